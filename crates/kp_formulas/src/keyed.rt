// A number made of a clause's literals, by which most clauses differ.
ghost use Rattle.std.specs.Prelude.{◌≡◌, map};
ghost use Rattle.kp_ground.specs.View.{value_view};
ghost use Rattle.kp_symbolic.specs.View.{term_view, terms_of, test_view, atom_view, literal_view, clause_view};
ghost use Rattle.kp_formulas.specs.Keys as model;

use kp_ground::Value;
use kp_symbolic::{Atom, Clause, HeadTest, Literal, Term};

/// What a key is multiplied by before a further number is added.
const SPREAD: u128 = 0x9E37_79B9_7F4A_7C15;

/// A clause and its key.
#[derive(Drop)]
pub struct Keyed {
    pub key: u128,
    pub clause: Clause,
}

/// The key with a further number.
fn with_number(key: u128, number: u128) -> u128
    ensures { result ≡ model.with_number key number }
{
    key.wrapping_mul(SPREAD).wrapping_add(number)
}

/// The key with a further whole number.
fn with_whole(key: u128, number: i128) -> u128
    ensures { result ≡ model.with_whole key number }
{
    with_number(key, number.cast_unsigned())
}

/// The key with a text's bytes.
fn with_text(key: u128, text: &str) -> u128
    ensures { result ≡ model.with_text key text.now }
{
    let mut mixed = key;
    for byte in text.as_bytes() {
        mixed = with_number(mixed, *byte as u128);
    }
    mixed
}

/// The key with the number, the token or the constructor that a value is.
fn with_value(key: u128, value: &Value) -> u128
    ensures { result ≡ model.with_value key (value_view value.now) }
{
    match value {
        Value::Whole { number } => with_whole(key, *number),
        Value::Truth { .. } => key,
        Value::Token { text, .. } => with_text(key, text),
        Value::Constructed { constructor, .. } => with_text(key, constructor),
    }
}

/// The key with what stands in an argument, not in its own arguments.
fn with_argument(key: u128, term: &Term) -> u128
    ensures { result ≡ model.with_argument key (term_view term.now) }
{
    match term {
        Term::Unknown { variable } => with_text(key, &variable.name),
        Term::Offset { variable, constant } => with_whole(
            with_text(key, &variable.name),
            *constant,
        ),
        Term::Known { value } => with_value(key, value),
        Term::Headed { .. } => key,
    }
}

/// The key with what stands in each of the arguments.
fn with_arguments(key: u128, terms: &[Term]) -> u128
    ensures { result ≡ model.with_arguments key (terms_of (map term_view terms.now)) }
{
    let mut mixed = key;
    for term in terms {
        mixed = with_argument(mixed, term);
    }
    mixed
}

/// The key with what stands in a term, or in its arguments.
fn with_term(key: u128, term: &Term) -> u128
    ensures { result ≡ model.with_term key (term_view term.now) }
{
    match term {
        Term::Headed { arguments, .. } => with_arguments(key, arguments),
        Term::Unknown { .. } | Term::Offset { .. } | Term::Known { .. } => with_argument(key, term),
    }
}

/// The key with the constructor whose head is asked for.
fn with_test(key: u128, test: &HeadTest) -> u128
    ensures { result ≡ model.with_test key (test_view test.now) }
{
    match test {
        HeadTest::Constructor { symbol } => with_text(key, symbol),
        HeadTest::Sort { .. } => key,
    }
}

/// The key with what stands in an atom.
fn with_atom(key: u128, atom: &Atom) -> u128
    ensures { result ≡ model.with_atom key (atom_view atom.now) }
{
    match atom {
        Atom::Same { left, right, .. } => with_term(with_term(key, left), right),
        Atom::Head { variable, test } => with_test(with_text(key, &variable.name), test),
        Atom::Quoted { .. } => key,
    }
}

/// The key with what stands in a literal, and whether it is to be true.
fn with_literal(key: u128, literal: &Literal) -> u128
    ensures { result ≡ model.with_literal key (literal_view literal.now) }
{
    with_number(with_atom(key, &literal.atom), literal.holds as u128)
}

/// The key with what stands in each of the literals.
fn with_literals(key: u128, literals: &[Literal]) -> u128
    ensures { result ≡ model.with_literals key (map literal_view literals.now) }
{
    let mut mixed = key;
    for literal in literals {
        mixed = with_literal(mixed, literal);
    }
    mixed
}

/// The key of a clause.
fn key_of(clause: &Clause) -> u128
    ensures { result ≡ model.key_of (clause_view clause.now) }
{
    with_literals(0, &clause.literals)
}

/// The clause with its key.
pub fn with_key(clause: Clause) -> Keyed
    ensures same { result.clause ≡ clause }
    ensures key { result.key ≡ model.key_of (clause_view result.clause) }
{
    let key = key_of(&clause);
    Keyed { key, clause }
}

/// Whether the keys are the same.
pub fn are_same_keys(key: u128, other: u128) -> bool
    ensures { result ≡ model.keys_same key other }
{
    key == other
}
