// Whether the clauses of a state can be true: the plain clauses first, then all clauses by plain literals.
ghost use Rattle.std.specs.Prelude.{◌≡◌, ◌↔◌, IfOk, IsTrue, Some, None};
ghost use Rattle.std.specs.List.{AllByRecursion, list_all};
ghost use Rattle.kp_signature.specs.View.{signature_view};
ghost use Rattle.kp_heads.specs.Heads.{HasValue};
ghost use Rattle.kp_heads.specs.Made.{IsHeadTableOf};
ghost use Rattle.kp_symbolic.specs.States.{CanBeTrue};
ghost use Rattle.kp_symbolic.specs.Plain as model;
ghost use Rattle.kp_symbolic.specs.Verdicts.{undecided};
ghost use Rattle.kp_symbolic.specs.View as terms;
ghost use Rattle.kp_symbolic.specs.View.{state_view, variable_view, variables_view};
ghost use Rattle.kp_literals.specs.Readings.{clauses_view};
ghost use Rattle.kp_limits.specs.Told.{TellsWeight, weight_view};
ghost use Rattle.kp_satisfiability.specs.Answers.{IsRightAnswer, IsToldAs, ShowsOver};
ghost use Rattle.kp_satisfiability.specs.Read as spec;
ghost use Rattle.kp_satisfiability.specs.Read.{AreReadOf, HasSortedClauses, rough_in};

use crate::heads::heads_stand;
use crate::verdict::Verdict;
use kp_clause_demands::can_be_met_together;
use kp_heads::HeadTable;
use kp_limits::{Weighed, first_over, weight_of};
use kp_literals::plain_clauses::{have_plain, plain_clauses, rough_clauses};
use kp_literals::{ReadLiteral, read_clauses};
use kp_signature::Signature;
use kp_symbolic::{Clause, State, Variable};
use std::alloc::{AllocError, Global};
use std::sync::Arc;

/// Whether the variable's sort has a value.
fn has_value(signature: &Signature, table: &HeadTable, variable: &Variable) -> bool
    requires { IsHeadTableOf (signature_view signature.now) table.now }
    ensures { IsTrue result ↔ HasValue (signature_view signature.now) (variable_view variable.now).sort }
{
    table.has_value(signature, &variable.sort)
}

/// Whether each variable's sort has a value.
fn have_values(signature: &Signature, table: &HeadTable, variables: &[Arc<Variable>]) -> bool
    requires { IsHeadTableOf (signature_view signature.now) table.now }
    ensures { IsTrue result ↔ AllByRecursion (λ x. HasValue (signature_view signature.now) x.sort) (variables_view variables.now) }
{
    for variable in variables {
        if !has_value(signature, table, variable) {
            return false;
        }
    }
    true
}

/// Whether the clause has a literal.
fn has_literal(clause: &Clause) -> bool
    ensures { result ≡ spec.has_literal (terms.clause_view clause.now) }
{
    !clause.literals.is_empty()
}

/// Whether each clause has a literal.
fn have_literals(clauses: &[Clause]) -> bool
    ensures { result ≡ list_all spec.has_literal (terms.clauses_view clauses.now) }
{
    for clause in clauses {
        if !has_literal(clause) {
            return false;
        }
    }
    true
}

/// All clauses, which weigh more than is decided.
fn too_heavy(alloc: Global, state: &State, over: Weighed) -> Result<Verdict, AllocError>
    ensures { IfOk result (ShowsOver (state_view state.now).clauses over) }
{
    Ok(Verdict::Undecided {
        shown: Clause::share_all(alloc, &state.clauses)?,
        over: Some(over),
    })
}

/// The clauses that aren't plain, where no valuation is found by plain literals.
fn left_open(alloc: Global, clauses: &[Vec<ReadLiteral>]) -> Result<Verdict, AllocError>
    ensures { IfOk result (IsToldAs (undecided (rough_in (clauses_view clauses.now)) None)) }
{
    Ok(Verdict::Undecided {
        shown: rough_clauses(alloc, clauses)?,
        over: None,
    })
}

/// The weight of all clauses of the kind that the plain ones pass.
fn over_too(
    alloc: Global,
    clauses: &[Vec<ReadLiteral>],
    over: Weighed,
) -> Result<Weighed, AllocError>
    ensures kind { IfOk result (λ w. w.weight ≡ over.weight) }
    ensures number { IfOk result (λ w. TellsWeight (clauses_view clauses.now) (weight_view w.weight) w.number) }
{
    Ok(Weighed {
        weight: over.weight,
        number: weight_of(alloc, over.weight, clauses)?,
    })
}

/// Whether the clauses can be true by plain literals, where the plain ones can.
fn decide_rough(
    alloc: Global,
    signature: &Signature,
    state: &State,
    clauses: &[Vec<ReadLiteral>],
) -> Result<Verdict, AllocError>
    ensures { let g = signature_view signature.now in let s = state_view state.now in
        IfOk result (λ a. AreReadOf g s clauses.now → CanBeTrue g s.variables (model.plain_clauses g s) → IsRightAnswer g s a) }
{
    if !have_plain(clauses) {
        return left_open(alloc, clauses);
    }
    if let Some(over) = first_over(alloc, clauses)? {
        return too_heavy(alloc, state, over);
    }
    if can_be_met_together(alloc, signature, clauses)? {
        Ok(Verdict::SomeValuation)
    } else {
        left_open(alloc, clauses)
    }
}

/// Whether the clauses can be true, where all variables have values and heads.
fn decide_read(
    alloc: Global,
    signature: &Signature,
    state: &State,
    clauses: &[Vec<ReadLiteral>],
) -> Result<Verdict, AllocError>
    ensures { let g = signature_view signature.now in let s = state_view state.now in IfOk result (λ a. AreReadOf g s clauses.now → IsRightAnswer g s a) }
{
    let plain = plain_clauses(alloc, clauses)?;
    if let Some(over) = first_over(alloc, &plain)? {
        return too_heavy(alloc, state, over_too(alloc, clauses, over)?);
    }
    if !can_be_met_together(alloc, signature, &plain)? {
        return Ok(Verdict::NoValuation);
    }
    if plain.len() == clauses.len() {
        return Ok(Verdict::SomeValuation);
    }
    decide_rough(alloc, signature, state, clauses)
}

/// Whether the clauses of a state can be true; where they have the sorts of their places, the verdict is right.
pub fn decide(
    alloc: Global,
    signature: &Signature,
    table: &HeadTable,
    state: &State,
) -> Result<Verdict, AllocError>
    requires { IsHeadTableOf (signature_view signature.now) table.now }
    ensures { let g = signature_view signature.now in let s = state_view state.now in IfOk result (λ a. HasSortedClauses g s → IsRightAnswer g s a) }
{
    if !have_values(signature, table, &state.variables) {
        return Ok(Verdict::NoValuation);
    }
    if !have_literals(&state.clauses) {
        return Ok(Verdict::NoValuation);
    }
    let clauses = read_clauses(alloc, signature, state)?;
    if !heads_stand(signature, table, &clauses) {
        return Ok(Verdict::NoValuation);
    }
    decide_read(alloc, signature, state, &clauses)
}
