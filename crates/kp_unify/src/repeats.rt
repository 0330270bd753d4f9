// A variable that stands at two places of a left side, for a value and for a term that is never this value, told without memory.
// The equalities of a left side are those of the first term under a variable with the others: where the first is a call, what two of
// the others say isn't told by them.
ghost use Rattle.std.specs.Prelude.{◌≡◌, ◌↔◌, IsTrue, map};
ghost use Rattle.std.specs.Str.{bytes_eq};
ghost use Rattle.kp_kore.specs.Syntax.{Text, KoreSort};
ghost use Rattle.kp_ground.specs.View.{value_view};
ghost use Rattle.kp_rules.specs.Skeletons as model;
ghost use Rattle.kp_rules.specs.Skeletons.{one_of, forms_of};
ghost use Rattle.kp_symbolic.specs.View.{term_view, terms_of};
ghost use Rattle.kp_case_laws.specs.Rows.{HasMembers};
ghost use Rattle.kp_unify.specs.Clash.{IsNeverOf, HoldsOfOne, StandsOnOther, StandsOnTwo, Differs};
ghost use Rattle.kp_unify.specs.Forms.{form_view, members_view};

use crate::clash::clashes;
use crate::left_parts::{Ask, LeftPart, Members, ask_of};
use kp_ground::Value;
use kp_symbolic::Term;

/// Whether both are one name.
fn is_same_name(name: &str, other: &str) -> bool
    ensures { result ≡ bytes_eq name.now other.now }
{
    name == other
}

/// Whether the variable of the name stands somewhere for a term that has another head than the value.
#[cycle(other)]
fn stands_for_other(term: &Term, form: LeftPart<'_>, name: &str, value: &Value) -> bool
    ensures { IsTrue result ↔ StandsOnOther name.now (value_view value.now) (form_view form.entry) (term_view term.now) }
{
    match ask_of(form) {
        Ask::Variable { name: own, .. } => {
            is_same_name(own, name) && clashes(term, LeftPart::Value { value })
        }
        Ask::Constructor { members, .. } => members_stand_for_other(term, members, name, value),
        Ask::Anything | Ask::Nothing | Ask::Any { .. } | Ask::Literal { .. } => false,
    }
}

/// The same of a constructor's members.
#[cycle(other)]
fn members_stand_for_other(term: &Term, members: Members<'_>, name: &str, value: &Value) -> bool
    ensures { let IsThere = StandsOnOther name.now (value_view value.now) in
        (f : model.Form) (c : Text) → HasMembers f c (forms_of (members_view members.entry)) → IsTrue result ↔ IsThere f (term_view term.now) }
{
    match term {
        Term::Headed { arguments, .. } => some_stands_for_other(arguments, members, name, value),
        Term::Unknown { .. } => false,
        Term::Offset { .. } => false,
        Term::Known { .. } => false,
    }
}

/// The same of one of the members, each with its term.
#[cycle(other)]
fn some_stands_for_other(terms: &[Term], members: Members<'_>, name: &str, value: &Value) -> bool
    ensures { IsTrue result ↔ HoldsOfOne (StandsOnOther name.now (value_view value.now)) (forms_of (members_view members.entry)) (terms_of (map term_view terms.now)) }
{
    if members.count() != terms.len() {
        return false;
    }
    for place in 0..terms.len() {
        if stands_for_other(&terms[place], members.at(place), name, value) {
            return true;
        }
    }
    false
}

/// Whether the term is a value, and the variable of the name stands in the left side for a term that has another head.
fn differs_elsewhere(term: &Term, name: &str, all: &Term, left: LeftPart<'_>) -> bool
    ensures { (s : KoreSort) → IsTrue result ↔ StandsOnTwo (form_view left.entry) (term_view all.now) (one_of name.now s) (term_view term.now) }
{
    match term {
        Term::Known { value } => stands_for_other(all, left, name, value),
        Term::Unknown { .. } | Term::Offset { .. } | Term::Headed { .. } => false,
    }
}

/// Whether a variable stands here for a value, and in the left side for a term that has another head.
#[cycle(here)]
fn differs_here(term: &Term, form: LeftPart<'_>, all: &Term, left: LeftPart<'_>) -> bool
    ensures { IsTrue result ↔ StandsOnTwo (form_view left.entry) (term_view all.now) (form_view form.entry) (term_view term.now) }
{
    match ask_of(form) {
        Ask::Variable { name, .. } => differs_elsewhere(term, name, all, left),
        Ask::Constructor { members, .. } => members_differ(term, members, all, left),
        Ask::Anything | Ask::Nothing | Ask::Any { .. } | Ask::Literal { .. } => false,
    }
}

/// The same of a constructor's members.
#[cycle(here)]
fn members_differ(term: &Term, members: Members<'_>, all: &Term, left: LeftPart<'_>) -> bool
    ensures { let IsThere = StandsOnTwo (form_view left.entry) (term_view all.now) in
        (f : model.Form) (c : Text) → HasMembers f c (forms_of (members_view members.entry)) → IsTrue result ↔ IsThere f (term_view term.now) }
{
    match term {
        Term::Headed { arguments, .. } => some_differs(arguments, members, all, left),
        Term::Unknown { .. } | Term::Offset { .. } | Term::Known { .. } => false,
    }
}

/// The same of one of the members, each with its term.
#[cycle(here)]
fn some_differs(terms: &[Term], members: Members<'_>, all: &Term, left: LeftPart<'_>) -> bool
    ensures { IsTrue result ↔ HoldsOfOne (StandsOnTwo (form_view left.entry) (term_view all.now)) (forms_of (members_view members.entry)) (terms_of (map term_view terms.now)) }
{
    if members.count() != terms.len() {
        return false;
    }
    for place in 0..terms.len() {
        if differs_here(&terms[place], members.at(place), all, left) {
            return true;
        }
    }
    false
}

/// Whether some head of the form is another than that of the term in its place, or a variable of the form stands for a value and
/// for a term that has another head.
pub fn differs(term: &Term, form: LeftPart<'_>) -> bool
    ensures exactly { IsTrue result ↔ Differs (form_view form.entry) (term_view term.now) }
    ensures never { IsTrue result → IsNeverOf (form_view form.entry) (term_view term.now) }
{
    clashes(term, form) || differs_here(term, form, term, form)
}
