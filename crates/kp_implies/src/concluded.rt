// What is answered where no part has an instance that isn't one of the consequent, as far as that is known.
ghost use Rattle.std.specs.Prelude.{◌≡◌, IfErr, IfOk, List, None, Some};
ghost use Rattle.kp_goals.specs.View.{consequent_view};
ghost use Rattle.kp_kore.specs.Syntax.{Text};
ghost use Rattle.kp_symbolic.specs.Plain as plain;
ghost use Rattle.kp_symbolic.specs.Plain.{IsPlainState};
ghost use Rattle.kp_symbolic.specs.View.{clauses_view, state_view};
ghost use Rattle.kp_unify.specs.Views.{signature_of, HasItsTable};
ghost use Rattle.kp_implies.specs.Steps.{Concludes, ConcludesGoal, IsLeft, IsSometimes};
ghost use Rattle.kp_implies.specs.Told.{IsUnanswered};

use crate::answer::{Implication, ImpliesError};
use crate::answered::{heavy_shown, rough_shown, valid};
use crate::parts::{Found, found_of};
use crate::shown::{Open, shown_open};
use kp_goals::Consequent;
use kp_literals::clauses::read_clauses;
use kp_literals::plain_clauses::rough_clauses;
use kp_symbolic::{Clause, State};
use kp_unify::Setting;
use std::alloc::{AllocError, Global};

/// What is shown of a goal that isn't decided, of a part that has an instance.
fn goal_shown(
    alloc: Global,
    setting: &Setting<'_>,
    state: &State,
    consequent: &Consequent<'_>,
    goal: Open,
) -> Result<Implication, ImpliesError>
    ensures answered { let g = signature_of setting.now in let s = state_view state.now in let k = consequent_view consequent.now in
        IfOk result (λ r. (used : List Text) → ConcludesGoal g used s k (IsSometimes g) goal r) }
    ensures refused { IfErr result (IsUnanswered (signature_of setting.now)) }
{
    if goal.over.is_some() {
        return heavy_shown(alloc, setting, state, consequent, goal);
    }
    shown_open(alloc, setting.language, &state.sort, &goal.shown, None)
}

/// What is shown where it isn't decided either whether the part has an instance: what is over a weight, the part before the goal.
fn part_shown(
    alloc: Global,
    setting: &Setting<'_>,
    state: &State,
    consequent: &Consequent<'_>,
    part: Open,
    goal: Open,
) -> Result<Implication, ImpliesError>
    ensures answered { let g = signature_of setting.now in let s = state_view state.now in let k = consequent_view consequent.now in
        IfOk result (λ r. (used : List Text) → ConcludesGoal g used s k (λ q. IsLeft g q part) goal r) }
    ensures refused { IfErr result (IsUnanswered (signature_of setting.now)) }
{
    if part.over.is_some() {
        return heavy_shown(alloc, setting, state, consequent, part);
    }
    heavy_shown(alloc, setting, state, consequent, goal)
}

/// The answer where a goal isn't decided: of a part without instances it doesn't matter.
fn open_goal(
    alloc: Global,
    setting: &Setting<'_>,
    state: &State,
    part: &State,
    consequent: &Consequent<'_>,
    goal: Open,
) -> Result<Implication, ImpliesError>
    requires { HasItsTable setting.now }
    ensures answered { let g = signature_of setting.now in let s = state_view state.now in let k = consequent_view consequent.now in
        IfOk result (λ r. (used : List Text) → IsPlainState g s → Concludes g used s k (state_view part.now) None (Some goal) r) }
    ensures refused { IfErr result (IsUnanswered (signature_of setting.now)) }
{
    match found_of(alloc, setting, part)? {
        Found::Nothing => valid(alloc, setting, state, consequent),
        Found::Instance => goal_shown(alloc, setting, state, consequent, goal),
        Found::Undecided { open: own } => {
            part_shown(alloc, setting, state, consequent, own, goal)
        }
    }
}

/// The answer of a plain state where a part or a goal isn't decided, or nothing is left open.
fn plainly_open(
    alloc: Global,
    setting: &Setting<'_>,
    state: &State,
    part: &State,
    consequent: &Consequent<'_>,
    apart: Option<Open>,
    goal: Option<Open>,
) -> Result<Implication, ImpliesError>
    requires { HasItsTable setting.now }
    ensures answered { let g = signature_of setting.now in let s = state_view state.now in let k = consequent_view consequent.now in
        IfOk result (λ r. (used : List Text) → IsPlainState g s → Concludes g used s k (state_view part.now) apart goal r) }
    ensures refused { IfErr result (IsUnanswered (signature_of setting.now)) }
{
    if let Some(open) = apart {
        return heavy_shown(alloc, setting, state, consequent, open);
    }
    match goal {
        Some(open) => open_goal(alloc, setting, state, part, consequent, open),
        None => valid(alloc, setting, state, consequent),
    }
}

/// The antecedent's clauses that aren't plain.
fn rough_of(alloc: Global, setting: &Setting<'_>, state: &State) -> Result<Vec<Clause>, AllocError>
    ensures { IfOk result (λ cs. clauses_view cs.items ≡ plain.rough_clauses (signature_of setting.now) (state_view state.now)) }
{
    let read = read_clauses(alloc, setting.language.signature, state)?;
    rough_clauses(alloc, &read)
}

/// The answer of a state with an instance, where something is left open: its own clauses that aren't plain, if there are any.
fn left_open(
    alloc: Global,
    setting: &Setting<'_>,
    state: &State,
    part: &State,
    consequent: &Consequent<'_>,
    apart: Option<Open>,
    goal: Option<Open>,
) -> Result<Implication, ImpliesError>
    requires { HasItsTable setting.now }
    ensures answered { let g = signature_of setting.now in let s = state_view state.now in let k = consequent_view consequent.now in
        IfOk result (λ r. (used : List Text) → Concludes g used s k (state_view part.now) apart goal r) }
    ensures refused { IfErr result (IsUnanswered (signature_of setting.now)) }
{
    let rough = rough_of(alloc, setting, state)?;
    if !rough.is_empty() {
        return rough_shown(alloc, setting, state, &rough);
    }
    plainly_open(alloc, setting, state, part, consequent, apart, goal)
}

/// The answer where no part has an instance that isn't one of the consequent, as far as that is known.
pub fn concluded(
    alloc: Global,
    setting: &Setting<'_>,
    state: &State,
    part: &State,
    consequent: &Consequent<'_>,
    apart: Option<Open>,
    goal: Option<Open>,
) -> Result<Implication, ImpliesError>
    requires { HasItsTable setting.now }
    ensures answered { let g = signature_of setting.now in let s = state_view state.now in let k = consequent_view consequent.now in
        IfOk result (λ r. (used : List Text) → Concludes g used s k (state_view part.now) apart goal r) }
    ensures refused { IfErr result (IsUnanswered (signature_of setting.now)) }
{
    if apart.is_none() && goal.is_none() {
        return valid(alloc, setting, state, consequent);
    }
    left_open(alloc, setting, state, part, consequent, apart, goal)
}
