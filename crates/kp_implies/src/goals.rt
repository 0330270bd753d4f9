// The goals of the part that the consequent's term meets.
ghost use Rattle.std.specs.Prelude.{◌≡◌, [], ◌∷◌, IfOk, OnOk};
ghost use Rattle.kp_solving.specs.Further.{constrained};
ghost use Rattle.kp_step.specs.Laws.{CanBeDenied};
ghost use Rattle.kp_symbolic.specs.Solving.{negated};
ghost use Rattle.kp_goals.specs.View.{consequent_view};
ghost use Rattle.kp_symbolic.specs.View.{clause_view, clauses_view, state_view};
ghost use Rattle.kp_symbolic_laws.specs.Safe.{IsSafe};
ghost use Rattle.kp_unify.specs.Views.{signature_of, HasItsTable};
ghost use Rattle.kp_implies.specs.Steps.{IsLeft, ShowsAlone, TellsGivenGoal, TellsGoalAt, TellsGoalsAt, TellsState};

use crate::parts::{Found, FoundAmong, first_open, found_of};
use crate::shown::Open;
use kp_compile::CompileError;
use kp_goals::{Consequent, is_unbound};
use kp_solving::{constrain, settle};
use kp_step::opposite::negate;
use kp_symbolic::{Clause, State};
use kp_unify::Setting;
use std::alloc::{AllocError, Global};

/// The clause as the one of a list.
fn alone(alloc: Global, clause: &Clause) -> Result<Vec<Clause>, AllocError>
    ensures { IfOk result (λ cs. clauses_view cs.items ≡ clause_view clause.now ∷ []) }
{
    let mut clauses = Vec::new(alloc);
    clauses.push(clause.share()?)?;
    Ok(clauses)
}

/// The state with the opposite of the goal.
fn without(
    alloc: Global,
    setting: &Setting<'_>,
    state: &State,
    goal: &Clause,
) -> Result<State, CompileError>
    ensures without { let g = signature_of setting.now in let s = state_view state.now in let c = clause_view goal.now in IfOk result (λ q. state_view q ≡ constrained s (negated g s.sort (c ∷ []))) }
    ensures denied { let s = state_view state.now in let c = clause_view goal.now in OnOk result (CanBeDenied (signature_of setting.now) s.sort (c ∷ [])) }
{
    let goals = alone(alloc, goal)?;
    let opposite = negate(alloc, setting.language, &state.sort, &goals)?;
    Ok(constrain(alloc, state, &opposite)?)
}

/// What is found with the equations solved; what was shown before, where that isn't decided either.
fn solved_or(
    alloc: Global,
    setting: &Setting<'_>,
    asked: State,
    before: Open,
) -> Result<Found, CompileError>
    requires { HasItsTable setting.now }
    ensures { let g = signature_of setting.now in let s = state_view asked in IfOk result (λ f. IsSafe g s → IsLeft g s before → TellsState g s f) }
{
    let solved = settle(alloc, setting.language, asked)?;
    match found_of(alloc, setting, &solved)? {
        Found::Instance => Ok(Found::Instance),
        Found::Nothing => Ok(Found::Nothing),
        Found::Undecided { .. } => Ok(Found::Undecided { open: before }),
    }
}

/// Whether a state has an instance: as it stands, or with its equations solved.
fn found_solved(alloc: Global, setting: &Setting<'_>, asked: State) -> Result<Found, CompileError>
    requires { HasItsTable setting.now }
    ensures { let g = signature_of setting.now in let s = state_view asked in IfOk result (λ f. IsSafe g s → TellsState g s f) }
{
    match found_of(alloc, setting, &asked)? {
        Found::Instance => Ok(Found::Instance),
        Found::Nothing => Ok(Found::Nothing),
        Found::Undecided { open } => solved_or(alloc, setting, asked, open),
    }
}

/// Whether the state has an instance without the goal, in which no bound variable stands.
fn found_without(
    alloc: Global,
    setting: &Setting<'_>,
    consequent: &Consequent<'_>,
    state: &State,
    goal: &Clause,
) -> Result<Found, CompileError>
    requires { HasItsTable setting.now }
    ensures { let g = signature_of setting.now in let s = state_view state.now in let k = consequent_view consequent.now in let c = clause_view goal.now in
        IfOk result (TellsGivenGoal g k s c) }
{
    let asked = without(alloc, setting, state, goal)?;
    found_solved(alloc, setting, asked)
}

/// The goal as what is shown.
fn goal_alone(alloc: Global, goal: &Clause) -> Result<Open, AllocError>
    ensures { let c = clause_view goal.now in IfOk result (ShowsAlone c) }
{
    let shown = alone(alloc, goal)?;
    Ok(Open {
        shown,
        over: None,
        compared: 0,
    })
}

/// Whether the state has an instance without this goal.
fn asked_of(
    alloc: Global,
    setting: &Setting<'_>,
    consequent: &Consequent<'_>,
    state: &State,
    goal: &Clause,
) -> Result<Found, CompileError>
    requires { HasItsTable setting.now }
    ensures { let g = signature_of setting.now in let s = state_view state.now in let k = consequent_view consequent.now in let c = clause_view goal.now in
        IfOk result (TellsGoalAt g k s c) }
{
    if is_unbound(alloc, &consequent.bound, goal)? {
        let open = goal_alone(alloc, goal)?;
        return Ok(Found::Undecided { open });
    }
    found_without(alloc, setting, consequent, state, goal)
}

/// Whether the state has an instance without one of these goals.
pub fn search_goals(
    alloc: Global,
    setting: &Setting<'_>,
    consequent: &Consequent<'_>,
    state: &State,
    goals: &[Clause],
) -> Result<FoundAmong, CompileError>
    requires { HasItsTable setting.now }
    ensures { let g = signature_of setting.now in let s = state_view state.now in let k = consequent_view consequent.now in let cs = clauses_view goals.now in
        IfOk result (TellsGoalsAt g k s cs) }
{
    let mut kept = None;
    for goal in goals {
        match asked_of(alloc, setting, consequent, state, goal)? {
            Found::Instance => return Ok(FoundAmong::Instance),
            Found::Nothing => {}
            Found::Undecided { open: next } => kept = first_open(kept, next),
        }
    }
    Ok(FoundAmong::Rest { open: kept })
}
