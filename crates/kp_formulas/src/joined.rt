// Clauses put together: the literals of both, each clause with each, and each clause once.
ghost use Rattle.std.specs.Prelude.{◌≡◌, ℕ, nat_le, ◌&&◌, ◌+◌, ◌-◌, ◌^◌, min, [], ◌∷◌, ◌++◌, not, length, IfOk, OnOk, map};
ghost use Rattle.std.specs.List.{filter, list_any};
ghost use Rattle.kp_symbolic.specs.Alike.{literals_same};
ghost use Rattle.kp_symbolic.specs.Formulas as model;
ghost use Rattle.kp_symbolic.specs.Formulas.{most_compared};
ghost use Rattle.kp_symbolic.specs.View.{literal_view, clause_view, clauses_view};
ghost use Rattle.kp_formulas.specs.Keys.{keyed_same, clauses_with};

use crate::keyed::{Keyed, are_same_keys, with_key};
use kp_symbolic::{Clause, Literal};
use std::alloc::{AllocError, Global};
use std::sync::Arc;

/// Clauses are compared as long as those that were kept hold no more literals than this.
const MOST_COMPARED: usize = 4096;

/// A clause of one literal.
pub fn make_clause(alloc: Global, literal: Literal) -> Result<Clause, AllocError>
    ensures { IfOk result (λ c. clause_view c ≡ literal_view literal ∷ []) }
{
    let mut literals = Vec::new(alloc);
    literals.push(literal)?;
    Ok(Clause {
        literals: Arc::new(alloc, literals)?,
    })
}

/// Whether both are the same literal.
fn is_same(literal: &Literal, other: &Literal) -> bool
    ensures { result ≡ literals_same (literal_view literal.now) (literal_view other.now) }
{
    literal.same(other)
}

/// Whether the literal is among these.
fn is_among(literal: &Literal, literals: &[Literal]) -> bool
    ensures { result ≡ list_any (literals_same (literal_view literal.now)) (map literal_view literals.now) }
{
    for other in literals {
        if is_same(literal, other) {
            return true;
        }
    }
    false
}

/// The literals of both clauses, those of the second that aren't in the first behind it.
fn joined(alloc: Global, first: &Clause, second: &Clause) -> Result<Clause, AllocError>
    ensures { IfOk result (λ c. clause_view c ≡ model.joined literals_same (clause_view first.now) (clause_view second.now)) }
{
    let mut literals = share_literals(alloc, &first.literals)?;
    add_others(alloc, &mut literals, &first.literals, &second.literals)?;
    Ok(Clause {
        literals: Arc::new(alloc, literals)?,
    })
}

/// The same literals, sharing their parts.
fn share_literals(alloc: Global, literals: &[Literal]) -> Result<Vec<Literal>, AllocError>
    ensures { IfOk result (λ ls. map literal_view ls.items ≡ map literal_view literals.now) }
{
    let mut shared = Vec::new(alloc);
    for literal in literals {
        shared.push(literal.share(alloc)?)?;
    }
    Ok(shared)
}

/// Adds those of the second that aren't in the first.
fn add_others(
    alloc: Global,
    found: &mut Vec<Literal>,
    first: &[Literal],
    second: &[Literal],
) -> Result<(), AllocError>
    ensures { let first' = map literal_view first.now in let others = filter (λ l. not (list_any (literals_same l) first')) (map literal_view second.now) in OnOk result (map literal_view found.new.items ≡ map literal_view found.old.items ++ others) }
{
    for literal in second {
        if !is_among(literal, first) {
            found.push(literal.share(alloc)?)?;
        }
    }
    Ok(())
}

/// Adds the clause with each of the others.
fn add_joined(
    alloc: Global,
    found: &mut Vec<Clause>,
    first: &Clause,
    others: &[Clause],
) -> Result<(), AllocError>
    ensures { OnOk result (clauses_view found.new.items ≡ clauses_view found.old.items ++ map (model.joined literals_same (clause_view first.now)) (clauses_view others.now)) }
{
    for other in others {
        found.push(joined(alloc, first, other)?)?;
    }
    Ok(())
}

/// Each clause of the one list with each of the other.
pub fn crossed(
    alloc: Global,
    firsts: &[Clause],
    seconds: &[Clause],
) -> Result<Vec<Clause>, AllocError>
    ensures { IfOk result (λ cs. clauses_view cs.items ≡ model.crossed literals_same (clauses_view firsts.now) (clauses_view seconds.now)) }
{
    let mut found = Vec::new(alloc);
    for first in firsts {
        add_joined(alloc, &mut found, first, seconds)?;
    }
    Ok(found)
}

/// Whether the clauses have the same literals, one after the other.
fn is_same_clause(clause: &Clause, other: &Clause) -> bool
    ensures { result ≡ model.clauses_same literals_same (clause_view clause.now) (clause_view other.now) }
{
    clause.same(other)
}

/// Whether both have one key, and are the same clause.
fn is_same_keyed(keyed: &Keyed, other: &Keyed) -> bool
    ensures { result ≡ keyed_same keyed.now other.now }
{
    are_same_keys(keyed.key, other.key) && is_same_clause(&keyed.clause, &other.clause)
}

/// Whether the clause is among these.
fn is_kept(keyed: &Keyed, kept: &[Keyed]) -> bool
    ensures { result ≡ list_any (keyed_same keyed.now) kept.now }
{
    for other in kept {
        if is_same_keyed(keyed, other) {
            return true;
        }
    }
    false
}

/// Whether so many literals, those of the kept clauses, are still compared with others.
fn are_compared(literals: usize) -> bool
    ensures { (n : ℕ) → literals ≡ min n (2 ^ 64 - 1) → result ≡ nat_le n most_compared }
{
    literals <= MOST_COMPARED
}

/// Whether the clause is among those that were kept, as long as these are compared.
fn is_repeat(literals: usize, keyed: &Keyed, kept: &[Keyed]) -> bool
    ensures { (n : ℕ) → literals ≡ min n (2 ^ 64 - 1) → result ≡ (nat_le n most_compared && list_any (keyed_same keyed.now) kept.now) }
{
    are_compared(literals) && is_kept(keyed, kept)
}

/// How many literals these are and those of the clause.
fn with_literals(literals: usize, clause: &Clause) -> usize
    ensures { (n : ℕ) → literals ≡ min n (2 ^ 64 - 1) → result ≡ min (n + length (clause_view clause.now)) (2 ^ 64 - 1) }
{
    literals.saturating_add(clause.literals.len())
}

/// The clauses without their keys.
fn without_keys(alloc: Global, kept: Vec<Keyed>) -> Result<Vec<Clause>, AllocError>
    ensures { IfOk result (λ cs. clauses_view cs.items ≡ clauses_with kept.items) }
{
    let mut clauses = Vec::new(alloc);
    for keyed in kept {
        let Keyed { clause, .. } = keyed;
        clauses.push(clause)?;
    }
    Ok(clauses)
}

/// Each clause unless it is among those kept before it.
pub fn kept_once(alloc: Global, clauses: Vec<Clause>) -> Result<Vec<Clause>, AllocError>
    ensures { IfOk result (λ cs. clauses_view cs.items ≡ model.kept_once literals_same (clauses_view clauses.items)) }
{
    let mut kept = Vec::new(alloc);
    let mut literals: usize = 0;
    for clause in clauses {
        let keyed = with_key(clause);
        if !is_repeat(literals, &keyed, &kept) {
            literals = with_literals(literals, &keyed.clause);
            kept.push(keyed)?;
        }
    }
    without_keys(alloc, kept)
}
