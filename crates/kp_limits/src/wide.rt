// The first call in a state whose number leaves signed 128 bits.
ghost use Rattle.std.specs.Prelude.{◌≡◌, Some, map, string_bytes};
ghost use Rattle.std.specs.List.{flat_map};
ghost use Rattle.std.specs.Option.{option_map};
ghost use Rattle.kp_ground.specs.View.{value_view};
ghost use Rattle.kp_kore.specs.HookView.{arithmetic_view};
ghost use Rattle.kp_kore.specs.Hooks.{whole_arithmetic};
ghost use Rattle.kp_kore.specs.Signature.{interpretation};
ghost use Rattle.kp_signature.specs.Meanings.{meaning_view};
ghost use Rattle.kp_signature.specs.View.{signature_view};
ghost use Rattle.kp_symbolic.specs.Sources.{parts_of, all_parts_of, atom_parts, clause_parts};
ghost use Rattle.kp_symbolic.specs.Terms.{headed};
ghost use Rattle.kp_symbolic.specs.Sums.{whole_in, whole_known};
ghost use Rattle.kp_symbolic.specs.View.{term_view, terms_of, replaced_view, atom_view, literal_view, clauses_view, state_view};
ghost use Rattle.kp_limits.specs.Calls.{call_view};
ghost use Rattle.kp_limits.specs.Wide as model;

use kp_ground::Value;
use kp_kore::{Arithmetic, Hook};
use kp_signature::{Function, Meaning, Signature, meaning_of};
use kp_symbolic::{Atom, Clause, Literal, Replaced, State, Term};
use std::sync::Arc;

/// A call of a symbol of two numbers. `call_view` in specs/Calls.antt says which call it is.
#[derive(Clone, Copy)]
pub struct WideCall<'a> {
    pub symbol: &'a Arc<String>,
    pub first: i128,
    pub second: i128,
}

/// The number that a value is.
fn number_of(value: &Value) -> Option<i128>
    ensures { result ≡ whole_in (value_view value.now) }
{
    match value {
        Value::Whole { number } => Some(*number),
        Value::Truth { .. } | Value::Token { .. } | Value::Constructed { .. } => None,
    }
}

/// The number that a term is known to be.
fn number_known(term: &Term) -> Option<i128>
    ensures { result ≡ whole_known (term_view term.now) }
{
    match term {
        Term::Known { value } => number_of(value),
        Term::Unknown { .. } | Term::Offset { .. } | Term::Headed { .. } => None,
    }
}

/// Whether the number that is computed leaves 128 bits.
fn is_wide_number(operation: Arithmetic, first: i128, second: i128) -> bool
    ensures { result ≡ model.is_wide_of (interpretation (whole_arithmetic (arithmetic_view operation))) first second }
{
    match operation.computes(first, second) {
        Some(_) => false,
        None => true,
    }
}

/// Whether a symbol of this meaning makes of two numbers one that leaves 128 bits.
fn is_wide(meaning: Meaning, first: i128, second: i128) -> bool
    ensures { result ≡ model.is_wide_of (meaning_view meaning) first second }
{
    match meaning {
        Meaning::Interpreted(Function::Two(Hook::Arithmetic(operation))) => {
            is_wide_number(operation, first, second)
        }
        Meaning::Interpreted(
            Function::Two(
                Hook::Comparison(_) | Hook::Connective(_) | Hook::Equal | Hook::Different,
            ),
        ) => false,
        Meaning::Interpreted(Function::Negation) => false,
        Meaning::Injection | Meaning::Constructor | Meaning::Foreign => false,
    }
}

/// The call of a symbol of two numbers, where its number leaves 128 bits.
fn call_if<'a>(
    signature: &Signature,
    symbol: &'a Arc<String>,
    first: i128,
    second: i128,
) -> Option<WideCall<'a>>
    ensures { let g = signature_view signature.now in let f = string_bytes symbol.now.value in option_map call_view result ≡ model.call_of g f (Some first) (Some second) }
{
    if is_wide(meaning_of(signature, symbol), first, second) {
        return Some(WideCall {
            symbol,
            first,
            second,
        });
    }
    None
}

/// The call of a symbol of two terms, where both are numbers and its own leaves 128 bits.
fn call_of_two<'a>(
    signature: &Signature,
    symbol: &'a Arc<String>,
    left: &Term,
    right: &Term,
) -> Option<WideCall<'a>>
    ensures { let g = signature_view signature.now in let f = string_bytes symbol.now.value in option_map call_view result ≡ model.call_of g f (whole_known (term_view left.now)) (whole_known (term_view right.now)) }
{
    let first = number_known(left)?;
    let second = number_known(right)?;
    call_if(signature, symbol, first, second)
}

/// The application itself, where it is such a call.
fn wide_call<'a>(
    signature: &Signature,
    symbol: &'a Arc<String>,
    arguments: &[Term],
) -> Option<WideCall<'a>>
    ensures { let arguments' = terms_of (map term_view arguments.now) in option_map call_view result ≡ model.wide_call (signature_view signature.now) (headed (string_bytes symbol.now.value) arguments') }
{
    match arguments {
        [left, right] => call_of_two(signature, symbol, left, right),
        _ => None,
    }
}

/// The first such call among the parts of a term, the outermost first and then from the left.
#[cycle(wide)]
fn wide_in<'a>(term: &'a Term, signature: &Signature) -> Option<WideCall<'a>>
    ensures { option_map call_view result ≡ model.first_wide_among (signature_view signature.now) (parts_of (term_view term.now)) }
{
    match term {
        Term::Headed { symbol, arguments } => match wide_call(signature, symbol, arguments) {
            Some(call) => Some(call),
            None => wide_in_terms(arguments, signature),
        },
        Term::Unknown { .. } | Term::Offset { .. } | Term::Known { .. } => None,
    }
}

/// The same of terms, one after another.
#[cycle(wide)]
fn wide_in_terms<'a>(terms: &'a [Term], signature: &Signature) -> Option<WideCall<'a>>
    ensures { option_map call_view result ≡ model.first_wide_among (signature_view signature.now) (all_parts_of (terms_of (map term_view terms.now))) }
{
    for term in terms {
        if let Some(call) = wide_in(term, signature) {
            return Some(call);
        }
    }
    None
}

/// The first among the terms that stand in a predicate.
fn wide_in_replaced<'a>(signature: &Signature, replaced: &'a [Replaced]) -> Option<WideCall<'a>>
    ensures { option_map call_view result ≡ model.first_wide_among (signature_view signature.now) (flat_map (λ r. parts_of r.term) (map replaced_view replaced.now)) }
{
    for one in replaced {
        if let Some(call) = wide_in(&one.term, signature) {
            return Some(call);
        }
    }
    None
}

/// The first of two terms.
fn wide_in_two<'a>(signature: &Signature, left: &'a Term, right: &'a Term) -> Option<WideCall<'a>>
    ensures { let g = signature_view signature.now in option_map call_view result ≡ model.first_of (model.first_wide_among g (parts_of (term_view left.now))) (model.first_wide_among g (parts_of (term_view right.now))) }
{
    match wide_in(left, signature) {
        Some(call) => Some(call),
        None => wide_in(right, signature),
    }
}

/// The first in an atom.
fn wide_in_atom<'a>(signature: &Signature, atom: &'a Atom) -> Option<WideCall<'a>>
    ensures { option_map call_view result ≡ model.first_wide_among (signature_view signature.now) (atom_parts (atom_view atom.now)) }
{
    match atom {
        Atom::Same { left, right, .. } => wide_in_two(signature, left, right),
        Atom::Head { .. } => None,
        Atom::Quoted { replaced, .. } => wide_in_replaced(signature, replaced),
    }
}

/// The first in a clause.
fn wide_in_literals<'a>(signature: &Signature, literals: &'a [Literal]) -> Option<WideCall<'a>>
    ensures { option_map call_view result ≡ model.first_wide_among (signature_view signature.now) (flat_map (λ l. atom_parts l.atom) (map literal_view literals.now)) }
{
    for literal in literals {
        if let Some(call) = wide_in_atom(signature, &literal.atom) {
            return Some(call);
        }
    }
    None
}

/// The first in clauses.
fn wide_in_clauses<'a>(signature: &Signature, clauses: &'a [Clause]) -> Option<WideCall<'a>>
    ensures { option_map call_view result ≡ model.first_wide_among (signature_view signature.now) (clause_parts (clauses_view clauses.now)) }
{
    for clause in clauses {
        if let Some(call) = wide_in_literals(signature, &clause.literals) {
            return Some(call);
        }
    }
    None
}

/// The first call of two numbers in a state whose number leaves 128 bits, those in the term before those in the clauses.
pub fn first_wide<'a>(signature: &Signature, state: &'a State) -> Option<WideCall<'a>>
    ensures { option_map call_view result ≡ model.first_wide (signature_view signature.now) (state_view state.now) }
{
    match wide_in(&state.term, signature) {
        Some(call) => Some(call),
        None => wide_in_clauses(signature, &state.clauses),
    }
}
