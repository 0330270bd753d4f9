// How deep the terms are that are written for a state.
ghost use Rattle.std.specs.Prelude.{◌≡◌, suc, [], ◌∷◌, IfOk, map};
ghost use Rattle.std.specs.List.{flat_map};
ghost use Rattle.kp_kore.specs.Parts.{term_depth, most_term_depth};
ghost use Rattle.kp_kore.specs.View.{view, patterns_view, sort_view};
ghost use Rattle.kp_symbolic.specs.Languages.{language_view};
ghost use Rattle.kp_symbolic.specs.View.{atom_view, clauses_view, literal_view, state_view, term_view};
ghost use Rattle.kp_simplify.specs.Answers as model;

use crate::shallow::is_shallow;
use kp_kore::{Pattern, Sort};
use kp_outward::term_out;
use kp_signature::MOST_DEPTH;
use kp_symbolic::{Atom, Clause, Language, Literal, State, Term};
use std::alloc::{AllocError, Global};

/// Half as many levels as a term may have: each level of a term is written with at most one `inj` more, so a term of these isn't too deep.
const SURELY_WRITTEN: u64 = 24;

/// One level more.
fn with_level(levels: u64) -> Result<u64, AllocError>
    ensures { IfOk result (λ n. n ≡ suc levels) }
{
    match levels.checked_add(1) {
        Some(more) => Ok(more),
        None => Err(AllocError),
    }
}

/// The levels of a term, refused where no number counts them.
#[cycle(depth)]
fn depth_of(pattern: &Pattern) -> Result<u64, AllocError>
    ensures { IfOk result (λ n. n ≡ term_depth (view pattern.now)) }
{
    match pattern {
        Pattern::Application { arguments, .. } => with_level(most_depth(arguments)?),
        _ => Ok(1),
    }
}

/// Those of the deepest of terms.
#[cycle(depth)]
fn most_depth(patterns: &[Pattern]) -> Result<u64, AllocError>
    ensures { IfOk result (λ n. n ≡ most_term_depth (patterns_view patterns.now)) }
{
    let mut most: u64 = 0;
    for pattern in patterns {
        most = most.max(depth_of(pattern)?);
    }
    Ok(most)
}

/// The levels of what is written for a term, where they are more than a term may have.
fn deep_term(
    alloc: Global,
    language: &Language,
    sort: &Sort,
    term: &Term,
) -> Result<Option<u64>, AllocError>
    ensures { IfOk result (λ o. o ≡ model.too_deep (model.depth_of (language_view language.now) (model.side_of (sort_view sort.now) (term_view term.now)))) }
{
    if is_shallow(term, SURELY_WRITTEN) {
        return Ok(None);
    }
    let depth = depth_of(&term_out(term, alloc, language, sort)?)?;
    if depth > MOST_DEPTH as u64 {
        return Ok(Some(depth));
    }
    Ok(None)
}

/// Those of the first of two terms.
fn deep_of_two(
    alloc: Global,
    language: &Language,
    sort: &Sort,
    left: &Term,
    right: &Term,
) -> Result<Option<u64>, AllocError>
    ensures { let s = sort_view sort.now in IfOk result (λ o. o ≡ model.first_deep (language_view language.now) (model.side_of s (term_view left.now) ∷ model.side_of s (term_view right.now) ∷ [])) }
{
    match deep_term(alloc, language, sort, left)? {
        Some(depth) => Ok(Some(depth)),
        None => deep_term(alloc, language, sort, right),
    }
}

/// Those of the first side of an equality.
fn deep_atom(alloc: Global, language: &Language, atom: &Atom) -> Result<Option<u64>, AllocError>
    ensures { IfOk result (λ o. o ≡ model.first_deep (language_view language.now) (model.atom_sides (atom_view atom.now))) }
{
    match atom {
        Atom::Same { sort, left, right } => deep_of_two(alloc, language, sort, left, right),
        Atom::Head { .. } | Atom::Quoted { .. } => Ok(None),
    }
}

/// The first in a clause.
fn deep_literal(
    alloc: Global,
    language: &Language,
    literals: &[Literal],
) -> Result<Option<u64>, AllocError>
    ensures { IfOk result (λ o. o ≡ model.first_deep (language_view language.now) (flat_map (λ l. model.atom_sides l.atom) (map literal_view literals.now))) }
{
    for literal in literals {
        if let Some(depth) = deep_atom(alloc, language, &literal.atom)? {
            return Ok(Some(depth));
        }
    }
    Ok(None)
}

/// The levels of the first side of an equality in clauses that has more than a term may have.
pub fn deep_clause(
    alloc: Global,
    language: &Language,
    clauses: &[Clause],
) -> Result<Option<u64>, AllocError>
    ensures { IfOk result (λ o. o ≡ model.first_deep (language_view language.now) (model.clause_sides (clauses_view clauses.now))) }
{
    for clause in clauses {
        if let Some(depth) = deep_literal(alloc, language, &clause.literals)? {
            return Ok(Some(depth));
        }
    }
    Ok(None)
}

/// The levels of the first term that is written for a state and has more than a term may have: its own, then the sides of
/// equalities.
pub fn deep_in(alloc: Global, language: &Language, state: &State) -> Result<Option<u64>, AllocError>
    ensures { IfOk result (λ o. o ≡ model.first_deep (language_view language.now) (model.state_sides (state_view state.now))) }
{
    match deep_term(alloc, language, &state.sort, &state.term)? {
        Some(depth) => Ok(Some(depth)),
        None => deep_clause(alloc, language, &state.clauses),
    }
}
