// The first equation of a state that can be solved.
ghost use Rattle.std.specs.Prelude.{◌≡◌, ℕ, nat_le, ◌+◌, ◌-◌, ◌^◌, min, [], ◌++◌, length, Some, IfOk, map};
ghost use Rattle.std.specs.Option.{option_map};
ghost use Rattle.kp_signature.specs.View.{signature_view};
ghost use Rattle.kp_symbolic.specs.Solving as model;
ghost use Rattle.kp_symbolic.specs.Solving.{most_solved};
ghost use Rattle.kp_symbolic.specs.View.{literal_view, clause_view, clauses_view, state_view};
ghost use Rattle.kp_literals.specs.Equations.{equation_view};
ghost use Rattle.kp_solving.specs.Solvables.{solvable_view, solvable_clause};

use kp_literals::equation::{Equation, equation_of};
use kp_literals::names::stands_alone;
use kp_signature::Signature;
use kp_symbolic::{Clause, Literal, State};
use std::alloc::{AllocError, Global};

/// As many literals as a state may have that is solved.
const MOST_SOLVED: usize = 512;

/// An equation that can be solved, and the place of its clause. `solvable_view` in specs/Solvables.antt says which of
/// kp_symbolic it is.
#[derive(Clone, Copy)]
pub struct Solvable<'a> {
    pub place: usize,
    pub equation: Equation<'a>,
}

/// So many literals and those of a clause, or the most that a number counts.
fn with_clause(literals: usize, clause: &Clause) -> usize
    ensures { result ≡ min (literals + length (clause_view clause.now)) (2 ^ 64 - 1) }
{
    literals.saturating_add(clause.literals.len())
}

/// How many literals the clauses have, or the most that a number counts.
pub fn literals_in(clauses: &[Clause]) -> usize
    ensures { result ≡ min (model.literals_in (clauses_view clauses.now)) (2 ^ 64 - 1) }
{
    let mut count: usize = 0;
    for clause in clauses {
        count = with_clause(count, clause);
    }
    count
}

/// Whether a state of so many literals is solved.
fn are_solved(literals: usize) -> bool
    ensures { (n : ℕ) → literals ≡ min n (2 ^ 64 - 1) → result ≡ nat_le n most_solved }
{
    literals <= MOST_SOLVED
}

/// The equation that a clause is, where it has one literal.
fn equation_alone<'a>(signature: &Signature, clause: &'a [Literal]) -> Option<Equation<'a>>
    ensures { option_map equation_view result ≡ model.equation_of (signature_view signature.now) (map literal_view clause.now) }
{
    match clause {
        [literal] => equation_of(signature, literal),
        _ => None,
    }
}

/// The equation of the clause at a place between others, where its variable stands elsewhere too.
fn solvable_if<'a>(
    alloc: Global,
    state: &State,
    before: &[Clause],
    after: &[Clause],
    place: usize,
    equation: Equation<'a>,
) -> Result<Option<Solvable<'a>>, AllocError>
    ensures { let others = clauses_view before.now ++ clauses_view after.now in IfOk result (λ o. option_map solvable_view o ≡ model.solvable_if (state_view state.now) others place (Some (equation_view equation.entry))) }
{
    if stands_alone(alloc, state, before, after, &equation.variable.name)? {
        return Ok(None);
    }
    Ok(Some(Solvable { place, equation }))
}

/// The equation that the clause at a place between others is, where it can be solved.
fn solvable_at<'a>(
    alloc: Global,
    signature: &Signature,
    state: &State,
    before: &[Clause],
    after: &[Clause],
    place: usize,
    clause: &'a [Literal],
) -> Result<Option<Solvable<'a>>, AllocError>
    ensures { let g = signature_view signature.now in let others = clauses_view before.now ++ clauses_view after.now in IfOk result (λ o. option_map solvable_view o ≡ solvable_clause g (state_view state.now) others place (map literal_view clause.now)) }
{
    match equation_alone(signature, clause) {
        Some(equation) => solvable_if(alloc, state, before, after, place, equation),
        None => Ok(None),
    }
}

/// The first of the state's clauses that is an equation that can be solved.
fn first_among<'a>(
    alloc: Global,
    signature: &Signature,
    state: &'a State,
) -> Result<Option<Solvable<'a>>, AllocError>
    ensures { let s = state_view state.now in IfOk result (λ o. option_map solvable_view o ≡ model.first_solvable_among (signature_view signature.now) s [] s.clauses) }
{
    let clauses = state.clauses.as_slice();
    for i in 0..clauses.len() {
        let before = &clauses[..i];
        let after = &clauses[i + 1..];
        let literals = &clauses[i].literals;
        if let Some(solvable) = solvable_at(alloc, signature, state, before, after, i, literals)? {
            return Ok(Some(solvable));
        }
    }
    Ok(None)
}

/// The first equation of the state that can be solved; none where it has too many literals.
pub fn first_solvable<'a>(
    alloc: Global,
    signature: &Signature,
    state: &'a State,
) -> Result<Option<Solvable<'a>>, AllocError>
    ensures { IfOk result (λ o. option_map solvable_view o ≡ model.first_solvable (signature_view signature.now) (state_view state.now)) }
{
    if !are_solved(literals_in(&state.clauses)) {
        return Ok(None);
    }
    first_among(alloc, signature, state)
}
