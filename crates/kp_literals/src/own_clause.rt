// What a literal says in a clause of its own.
ghost use Rattle.std.specs.Prelude.{◌≡◌, ◌++◌, IfOk, Some, map};
ghost use Rattle.std.specs.Option.{option_map};
ghost use Rattle.kp_signature.specs.View.{signature_view};
ghost use Rattle.kp_signature.specs.Meanings.{meaning_view};
ghost use Rattle.kp_symbolic.specs.Plain as model;
ghost use Rattle.kp_symbolic.specs.States.{atom_variables};
ghost use Rattle.kp_symbolic.specs.Terms.{headed};
ghost use Rattle.kp_symbolic.specs.View.{variable_view, term_view, terms_of, test_view, literal_view, clauses_view, state_view};
ghost use Rattle.kp_literals.specs.Forms.{asked_view, form_view};
ghost use Rattle.kp_literals.specs.Unknowns.{IsSaidAmong};
ghost use Rattle.kp_literals.specs.Equations.{equation_view};
ghost use Rattle.kp_ground.specs.View.{value_view, values_of};
ghost use Rattle.kp_kore.specs.Value.{constructed};
ghost use Rattle.kp_literals.specs.Own.{constant_said, constant_known, asks_constant, IsSetApart};

use crate::equation::{Equation, equation_of};
use crate::form::truth_of;
use crate::names::stands_in_none;
use crate::{AskedHeads, LiteralForm, form_of, has_only_numbers};
use kp_ground::Value;
use kp_kore::Hook;
use kp_signature::{Function, Meaning, Signature, meaning_of};
use kp_symbolic::{Atom, Clause, HeadTest, Literal, State, Term, Variable};
use std::alloc::{AllocError, Global};

/// The test of a head, borrowed.
fn borrowed_test(test: &HeadTest) -> AskedHeads<'_>
    ensures { asked_view result ≡ test_view test.now }
{
    match test {
        HeadTest::Constructor { symbol } => AskedHeads::Constructor { symbol },
        HeadTest::Sort { sort } => AskedHeads::Sort { sort },
    }
}

/// The constructor, if it has no arguments.
fn constant_named<'a>(constructor: &'a str, arguments: &[Value]) -> Option<&'a str>
    ensures { option_map (λ c. c.now) result ≡ constant_said (constructed constructor.now (values_of (map value_view arguments.now))) }
{
    if arguments.is_empty() {
        Some(constructor)
    } else {
        None
    }
}

/// The constructor without arguments that a value is, if it is one.
fn constant_value(value: &Value) -> Option<&str>
    ensures { option_map (λ c. c.now) result ≡ constant_said (value_view value.now) }
{
    match value {
        Value::Constructed {
            constructor,
            arguments,
        } => constant_named(constructor, arguments),
        Value::Whole { .. } | Value::Truth { .. } | Value::Token { .. } => None,
    }
}

/// The constructor without arguments that a term is, if it is one.
fn constant_of(term: &Term) -> Option<&str>
    ensures { option_map (λ c. c.now) result ≡ constant_known (term_view term.now) }
{
    match term {
        Term::Known { value } => constant_value(value),
        Term::Unknown { .. } | Term::Offset { .. } | Term::Headed { .. } => None,
    }
}

/// That the variable's head is the constructor, or isn't, if there is one.
fn asks_for<'a>(
    holds: bool,
    variable: &'a Variable,
    constant: Option<&'a str>,
) -> Option<LiteralForm<'a>>
    ensures view { option_map form_view result ≡ asks_constant holds (variable_view variable.now) (option_map (λ c. c.now) constant.entry) }
    ensures apart { IsSetApart result }
{
    match constant {
        Some(symbol) => Some(LiteralForm::Asks {
            variable,
            test: AskedHeads::Constructor { symbol },
            passes: holds,
        }),
        None => None,
    }
}

/// That a variable and a constructor without arguments are equal, or differ, if the terms are such.
fn constant_form<'a>(holds: bool, left: &'a Term, right: &'a Term) -> Option<LiteralForm<'a>>
    ensures view { option_map form_view result ≡ model.constant_form holds (term_view left.now) (term_view right.now) }
    ensures apart { IsSetApart result }
{
    if let Term::Unknown { variable } = left {
        return asks_for(holds, variable, constant_of(right));
    }
    if let Term::Unknown { variable } = right {
        return asks_for(holds, variable, constant_of(left));
    }
    None
}

/// What a call of two terms that is true, or false, says of the head of one of them, if it does.
fn head_by_call<'a>(
    holds: bool,
    meaning: Meaning,
    left: &'a Term,
    right: &'a Term,
) -> Option<LiteralForm<'a>>
    ensures view { option_map form_view result ≡ model.head_by_call holds (meaning_view meaning) (term_view left.now) (term_view right.now) }
    ensures apart { IsSetApart result }
{
    match meaning {
        Meaning::Interpreted(Function::Two(Hook::Equal)) => constant_form(holds, left, right),
        Meaning::Interpreted(Function::Two(Hook::Different)) => constant_form(!holds, left, right),
        Meaning::Interpreted(
            Function::Two(Hook::Comparison(_) | Hook::Arithmetic(_) | Hook::Connective(_)),
        )
        | Meaning::Interpreted(Function::Negation)
        | Meaning::Injection
        | Meaning::Constructor
        | Meaning::Foreign => None,
    }
}

/// What a symbol's call that is true, or false, says of the head of a variable, if it does.
fn head_by_symbol<'a>(
    signature: &Signature,
    holds: bool,
    symbol: &str,
    arguments: &'a [Term],
) -> Option<LiteralForm<'a>>
    ensures view { option_map form_view result ≡ model.head_by_truth (signature_view signature.now) holds (headed symbol.now (terms_of (map term_view arguments.now))) }
    ensures apart { IsSetApart result }
{
    match arguments {
        [left, right] => {
            let meaning = meaning_of(signature, symbol);
            head_by_call(holds, meaning, left, right)
        }
        _ => None,
    }
}

/// What a Boolean expression that is true, or false, says of the head of a variable, if it does.
fn head_by_truth<'a>(signature: &Signature, holds: bool, term: &'a Term) -> Option<LiteralForm<'a>>
    ensures view { option_map form_view result ≡ model.head_by_truth (signature_view signature.now) holds (term_view term.now) }
    ensures apart { IsSetApart result }
{
    match term {
        Term::Headed { symbol, arguments } => head_by_symbol(signature, holds, symbol, arguments),
        Term::Unknown { .. } | Term::Offset { .. } | Term::Known { .. } => None,
    }
}

/// What the equality of two terms, or its opposite, says of the head of a variable, if it does.
fn head_by_sides<'a>(
    signature: &Signature,
    holds: bool,
    left: &'a Term,
    right: &'a Term,
) -> Option<LiteralForm<'a>>
    ensures view { option_map form_view result ≡ model.head_by_sides (signature_view signature.now) holds (term_view left.now) (term_view right.now) }
    ensures apart { IsSetApart result }
{
    if let Some(value) = truth_of(right) {
        return head_by_truth(signature, holds == value, left);
    }
    if let Some(value) = truth_of(left) {
        return head_by_truth(signature, holds == value, right);
    }
    constant_form(holds, left, right)
}

/// What a literal says of the head of a variable, if it does.
fn head_form<'a>(signature: &Signature, literal: &'a Literal) -> Option<LiteralForm<'a>>
    ensures view { option_map form_view result ≡ model.head_form (signature_view signature.now) (literal_view literal.now) }
    ensures apart { IsSetApart result }
{
    match &literal.atom {
        Atom::Head { variable, test } => Some(LiteralForm::Asks {
            variable,
            test: borrowed_test(test),
            passes: literal.holds,
        }),
        Atom::Same { left, right, .. } => head_by_sides(signature, literal.holds, left, right),
        Atom::Quoted { .. } => None,
    }
}

/// The equation, if it is not one of whole numbers and its variable stands in no other clause.
fn solved_if<'a>(
    alloc: Global,
    signature: &Signature,
    state: &State,
    before: &[Clause],
    after: &[Clause],
    equation: Equation<'a>,
) -> Result<Option<LiteralForm<'a>>, AllocError>
    ensures view { let g = signature_view signature.now in IfOk result (λ f. option_map form_view f ≡ model.solved_form g (state_view state.now) (clauses_view before.now ++ clauses_view after.now) (Some (equation_view equation.entry))) }
    ensures apart { IfOk result IsSetApart }
{
    if has_only_numbers(signature, &equation.variable.sort) {
        return Ok(None);
    }
    if !stands_in_none(alloc, before, after, &equation.variable.name)? {
        return Ok(None);
    }
    Ok(Some(LiteralForm::Gives {
        variable: equation.variable,
        term: equation.term,
    }))
}

/// What a literal says in a clause of its own between others, where it says what is decided.
pub fn own_form<'a>(
    alloc: Global,
    signature: &Signature,
    state: &State,
    before: &[Clause],
    after: &[Clause],
    literal: &'a Literal,
) -> Result<Option<LiteralForm<'a>>, AllocError>
    ensures view { let g = signature_view signature.now in let others = clauses_view before.now ++ clauses_view after.now in IfOk result (λ f. option_map form_view f ≡ model.own_form g (state_view state.now) others (literal_view literal.now)) }
    ensures kinds { IfOk result (IsSaidAmong (signature_view signature.now) (atom_variables (literal_view literal.now).atom)) }
{
    if let Some(form) = form_of(signature, literal) {
        return Ok(Some(form));
    }
    if let Some(form) = head_form(signature, literal) {
        return Ok(Some(form));
    }
    match equation_of(signature, literal) {
        Some(equation) => solved_if(alloc, signature, state, before, after, equation),
        None => Ok(None),
    }
}
