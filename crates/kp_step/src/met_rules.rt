// Whether a part that a left side meets has an instance, and whether the left side meets the state at all.
ghost use Rattle.std.specs.Prelude.{◌↔◌, IfOk, IsTrue};
ghost use Rattle.kp_symbolic.specs.States.{SymbolicState};
ghost use Rattle.kp_symbolic.specs.View.{state_view};
ghost use Rattle.kp_rules.specs.Skeletons.{skeleton_view};
ghost use Rattle.kp_overlap.specs.Overlaps.{MeetsForm};
ghost use Rattle.kp_unify.specs.Views.{signature_of, HasItsTable};
ghost use Rattle.kp_step.specs.Answers.{ShowsOf, AreMet, IsMetAnswer, TellsWhereMet};

use crate::call_equalities::answer_with_implied;
use crate::part_answers::{PartAnswer, UndecidedClauses};
use kp_overlap::meets;
use kp_rules::Skeleton;
use kp_symbolic::State;
use kp_unify::Setting;
use std::alloc::{AllocError, Global};

/// Whether the left side stands for a value that the state's term may have.
pub fn can_meet(
    alloc: Global,
    setting: Setting<'_>,
    state: &State,
    left: &Skeleton,
) -> Result<bool, AllocError>
    requires { HasItsTable setting }
    ensures { let s = state_view state.now in IfOk result (λ b. IsTrue b ↔ MeetsForm (signature_of setting.entry) s.sort s.term (skeleton_view left.now)) }
{
    meets(
        alloc,
        setting.table,
        setting.language.signature,
        &state.sort,
        &state.term,
        left,
    )
}

/// What is answered of a part that is left open: it has no instance, where the left side meets no value that the state's term may have.
fn open_where_met(
    alloc: Global,
    setting: Setting<'_>,
    state: &State,
    left: &Skeleton,
    told: UndecidedClauses,
) -> Result<PartAnswer, AllocError>
    requires { HasItsTable setting }
    ensures { let g = signature_of setting.entry in let s = state_view state.now in let left' = skeleton_view left.now in
        IfOk result (λ a. (p : SymbolicState) → ShowsOf g s p told → AreMet g s left' p → IsMetAnswer g s p left' a) }
{
    if meets(
        alloc,
        setting.table,
        setting.language.signature,
        &state.sort,
        &state.term,
        left,
    )? {
        return Ok(PartAnswer::UndecidedClauses { told });
    }
    Ok(PartAnswer::Nothing)
}

/// Whether a part of the state has an instance, on each of which the left side is laid. Where that is open, the left side meets the
/// state.
pub fn answer_where_met(
    alloc: Global,
    setting: Setting<'_>,
    state: &State,
    part: &State,
    left: &Skeleton,
) -> Result<PartAnswer, AllocError>
    requires { HasItsTable setting }
    ensures { let g = signature_of setting.entry in IfOk result (TellsWhereMet g (state_view state.now) (state_view part.now) (skeleton_view left.now)) }
{
    match answer_with_implied(alloc, setting, state, part)? {
        PartAnswer::Instance => Ok(PartAnswer::Instance),
        PartAnswer::Nothing => Ok(PartAnswer::Nothing),
        PartAnswer::UndecidedClauses { told } => open_where_met(alloc, setting, state, left, told),
    }
}
