// A left side whose heads differ from those of a term, told without memory before anything is shared.
ghost use Rattle.std.specs.Prelude.{◌≡◌, ◌↔◌, not, IsTrue, map};
ghost use Rattle.std.specs.Str.{bytes_eq};
ghost use Rattle.kp_ground.specs.View.{value_view, values_of};
ghost use Rattle.kp_rules.specs.Skeletons as model;
ghost use Rattle.kp_rules.specs.Skeletons.{forms_of};
ghost use Rattle.kp_symbolic.specs.View.{term_view, terms_of};
ghost use Rattle.kp_case_laws.specs.Rows.{HasMembers};
ghost use Rattle.kp_unify.specs.Forms.{form_view, members_view};
ghost use Rattle.kp_unify.specs.Clash.{AsksOtherHead, AskOtherHeads, AsksOtherHeadOf, AskOtherHeadsOf};
ghost use Rattle.kp_unify.specs.Literals.{IsLiteral};

use crate::left_parts::{Ask, LeftPart, Members, ask_of};
use kp_ground::Value;
use kp_symbolic::Term;

/// Whether a literal is another value than a term.
fn literal_differs(literal: &Value, term: &Term) -> bool
    ensures { let l = value_view literal.now in IsLiteral l → IsTrue result ↔ AsksOtherHeadOf (model.fixed l) (term_view term.now) }
{
    match term {
        Term::Known { value } => !literal.equal(value),
        Term::Unknown { .. } | Term::Offset { .. } | Term::Headed { .. } => false,
    }
}

/// Whether these are two names.
fn is_other(first: &str, second: &str) -> bool
    ensures { result ≡ not (bytes_eq first.now second.now) }
{
    first != second
}

/// Whether some head of the form is another than that of the term in its place.
#[cycle(clash)]
pub fn clashes(term: &Term, form: LeftPart<'_>) -> bool
    ensures { IsTrue result ↔ AsksOtherHeadOf (form_view form.entry) (term_view term.now) }
{
    match ask_of(form) {
        Ask::Literal { value } => literal_differs(value, term),
        Ask::Constructor { symbol, members } => constructor_clashes(term, symbol, members),
        Ask::Anything | Ask::Nothing | Ask::Any { .. } | Ask::Variable { .. } => false,
    }
}

/// The same of a constructor and its members.
#[cycle(clash)]
fn constructor_clashes(term: &Term, symbol: &str, members: Members<'_>) -> bool
    ensures { (f : model.Form) → HasMembers f symbol.now (forms_of (members_view members.entry)) → IsTrue result ↔ AsksOtherHeadOf f (term_view term.now) }
{
    match term {
        Term::Unknown { .. } => false,
        Term::Offset { .. } => true,
        Term::Known { value } => constructor_clashes_with(value, symbol, members),
        Term::Headed {
            symbol: head,
            arguments,
        } => {
            if is_other(symbol, head) {
                return true;
            }
            some_clash(arguments, members)
        }
    }
}

/// The same of members and terms, one by one.
#[cycle(clash)]
fn some_clash(terms: &[Term], members: Members<'_>) -> bool
    ensures { IsTrue result ↔ AskOtherHeadsOf (forms_of (members_view members.entry)) (terms_of (map term_view terms.now)) }
{
    if members.count() != terms.len() {
        return true;
    }
    for place in 0..terms.len() {
        if clashes(&terms[place], members.at(place)) {
            return true;
        }
    }
    false
}

/// Whether some head of the form is another than that of the value in its place.
#[cycle(clash_with)]
fn clashes_with(value: &Value, form: LeftPart<'_>) -> bool
    ensures { IsTrue result ↔ AsksOtherHead (form_view form.entry) (value_view value.now) }
{
    match ask_of(form) {
        Ask::Literal { value: literal } => !literal.equal(value),
        Ask::Constructor { symbol, members } => constructor_clashes_with(value, symbol, members),
        Ask::Anything | Ask::Nothing | Ask::Any { .. } | Ask::Variable { .. } => false,
    }
}

/// The same of a constructor and its members.
#[cycle(clash_with)]
fn constructor_clashes_with(value: &Value, symbol: &str, members: Members<'_>) -> bool
    ensures { (f : model.Form) → HasMembers f symbol.now (forms_of (members_view members.entry)) → IsTrue result ↔ AsksOtherHead f (value_view value.now) }
{
    match value {
        Value::Constructed {
            constructor,
            arguments,
        } => {
            if is_other(symbol, constructor) {
                return true;
            }
            some_clash_with(arguments, members)
        }
        Value::Whole { .. } => true,
        Value::Truth { .. } => true,
        Value::Token { .. } => true,
    }
}

/// The same of members and values, one by one.
#[cycle(clash_with)]
fn some_clash_with(values: &[Value], members: Members<'_>) -> bool
    ensures { IsTrue result ↔ AskOtherHeads (forms_of (members_view members.entry)) (values_of (map value_view values.now)) }
{
    if members.count() != values.len() {
        return true;
    }
    for place in 0..values.len() {
        if clashes_with(&values[place], members.at(place)) {
            return true;
        }
    }
    false
}
