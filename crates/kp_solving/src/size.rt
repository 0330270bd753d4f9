// How large a state gets while its equations are solved. Terms share their parts, and what is written doesn't: a chain of
// equations makes a few kilobytes more parts than any machine can hold. The count of parts ends at the most that there may be.
use kp_compile::subpatterns;
use kp_ground::Value;
use kp_kore::Pattern;
use kp_symbolic::replaced::replacement_of;
use kp_symbolic::{Atom, Clause, Literal, Replaced, Term};
use std::alloc::Global;

/// As many parts as a state may get: a line of more is longer than what a client reads of one reply.
const MOST_PARTS: u64 = 1_500_000;

/// What is left of so many parts behind those of a value; nothing where it has more.
#[cycle(values)]
fn behind_value(value: &Value, left: u64) -> Option<u64> {
    match value {
        Value::Constructed { arguments, .. } => behind_values(arguments, left.checked_sub(1)?),
        Value::Whole { .. } | Value::Truth { .. } | Value::Token { .. } => left.checked_sub(1),
    }
}

/// The same of values, one behind another.
#[cycle(values)]
fn behind_values(values: &[Value], left: u64) -> Option<u64> {
    let mut left = left;
    for value in values {
        left = behind_value(value, left)?;
    }
    Some(left)
}

/// What is left of so many parts behind those of a term; nothing where it has more.
#[cycle(terms)]
fn behind_term(term: &Term, left: u64) -> Option<u64> {
    match term {
        Term::Known { value } => behind_value(value, left),
        Term::Headed { arguments, .. } => behind_terms(arguments, left.checked_sub(1)?),
        Term::Unknown { .. } | Term::Offset { .. } => left.checked_sub(1),
    }
}

/// The same of terms, one behind another.
#[cycle(terms)]
fn behind_terms(terms: &[Term], left: u64) -> Option<u64> {
    let mut left = left;
    for term in terms {
        left = behind_term(term, left)?;
    }
    Some(left)
}

/// What is left behind a part of a predicate: a variable has the parts of the term that stands for it.
fn behind_part(part: &Pattern, replaced: &[Replaced], left: u64) -> Option<u64> {
    match part {
        Pattern::Variable { name, .. } => match replacement_of(replaced, name) {
            Some(term) => behind_term(term, left),
            None => left.checked_sub(1),
        },
        _ => left.checked_sub(1),
    }
}

/// The same of parts of a predicate, one behind another.
fn behind_parts(parts: &[&Pattern], replaced: &[Replaced], left: u64) -> Option<u64> {
    let mut left = left;
    for part in parts {
        left = behind_part(part, replaced, left)?;
    }
    Some(left)
}

/// The same of a predicate with terms in the place of variables; nothing also where memory runs out.
fn behind_predicate(
    alloc: Global,
    pattern: &Pattern,
    replaced: &[Replaced],
    left: u64,
) -> Option<u64> {
    match subpatterns(alloc, pattern) {
        Ok(parts) => behind_parts(&parts, replaced, left),
        Err(_) => None,
    }
}

/// The same of an atom.
fn behind_atom(alloc: Global, atom: &Atom, left: u64) -> Option<u64> {
    match atom {
        Atom::Same {
            left: first,
            right,
            ..
        } => behind_term(right, behind_term(first, left)?),
        Atom::Head { .. } => left.checked_sub(1),
        Atom::Quoted { pattern, replaced } => behind_predicate(alloc, pattern, replaced, left),
    }
}

/// The same of literals.
fn behind_literals(alloc: Global, literals: &[Literal], left: u64) -> Option<u64> {
    let mut left = left;
    for literal in literals {
        left = behind_atom(alloc, &literal.atom, left)?;
    }
    Some(left)
}

/// The same of clauses.
fn behind_clauses(alloc: Global, clauses: &[Clause], left: u64) -> Option<u64> {
    let mut left = left;
    for clause in clauses {
        left = behind_literals(alloc, &clause.literals, left)?;
    }
    Some(left)
}

/// Whether a state with this term and these clauses has more parts than there may be, or memory runs out.
pub(crate) fn is_too_large(alloc: Global, term: &Term, clauses: &[Clause]) -> bool {
    match behind_term(term, MOST_PARTS) {
        Some(left) => behind_clauses(alloc, clauses, left).is_none(),
        None => true,
    }
}
