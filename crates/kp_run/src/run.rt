ghost use Rattle.std.specs.Prelude.{◌≡◌, ◌<◌, ◌≤◌, IfOk, IfErr, String};
ghost use Rattle.kp_kore.specs.Theory.{Theory};
ghost use Rattle.kp_ground.specs.View.{value_view};
ghost use Rattle.kp_rule_sets.specs.RuleSets.{RunsAs};
ghost use Rattle.kp_run.specs.Causes.{IsStateIn, StopsUntold};
ghost use Rattle.kp_run.specs.Runs.{IsAt, IsRunOf, written_of};
ghost use Rattle.kp_run.specs.declared.error.RunError.TheVariants.{NotAnswered};
ghost use Rattle.kp_run.specs.declared.run.GroundEnding.TheVariants.{Stuck, DepthBound, ForeignRule};

use crate::depths_of;
use crate::error::RunError;
use crate::step::{GroundNext, next_of};
use kp_compile::GroundState;
use kp_rule_sets::RuleSet;
use std::alloc::Global;

/// Why a run ends.
#[derive(Drop)]
pub enum GroundEnding {
    /// No rule fires, and no foreign rule might.
    Stuck,
    /// So many steps were taken as may be.
    DepthBound,
    /// A foreign rule might rewrite the last state: the rule's id.
    ForeignRule { id: String },
}

/// The end of a run: the number of steps, why it ends, and the last state.
#[derive(Drop)]
pub struct GroundRun {
    pub depth: u64,
    pub stop: GroundEnding,
    pub state: GroundState,
}

/// Runs the rule set from a state for at most `bound` steps.
pub fn execute(
    alloc: Global,
    rules: &RuleSet,
    state: GroundState,
    bound: u64,
) -> Result<GroundRun, RunError>
    ensures within { IfOk result (λ e. e.depth ≤ bound) }
    ensures stuck { IfOk result (λ e. e.stop ≡ Stuck → e.depth < bound) }
    ensures foreign { IfOk result (λ e. (id : String Global) → e.stop ≡ ForeignRule id → e.depth < bound) }
    ensures at_bound { IfOk result (λ e. e.stop ≡ DepthBound → e.depth ≡ bound) }
    ensures is_run { (t : Theory) → RunsAs t rules.now → IsAt t state → IfOk result (λ e. IsRunOf t (value_view state.value) bound e) }
    ensures written { (t : Theory) → RunsAs t rules.now → IsAt t state → IfOk result (λ e. IsStateIn t e.depth (written_of state) (written_of e.state)) }
    ensures answered { (t : Theory) → RunsAs t rules.now → IsAt t state → IfOk result (λ _. ¬ StopsUntold t (written_of state) bound) }
    ensures not_answered { (t : Theory) → RunsAs t rules.now → IsAt t state → IfErr result (λ e. e ≡ NotAnswered → StopsUntold t (written_of state) bound) }
{
    let mut state = state;
    let mut depths = depths_of(&state.value, alloc, &rules.signature)?;
    for depth in 0..bound {
        match next_of(alloc, rules, &state, &depths)? {
            GroundNext::Stepped {
                state: next,
                depths: levels,
            } => {
                state = next;
                depths = levels;
            }
            GroundNext::Stuck => {
                return Ok(GroundRun {
                    depth,
                    stop: GroundEnding::Stuck,
                    state,
                });
            }
            GroundNext::ForeignRule { id } => {
                return Ok(GroundRun {
                    depth,
                    stop: GroundEnding::ForeignRule { id },
                    state,
                });
            }
        }
    }
    Ok(GroundRun {
        depth: bound,
        stop: GroundEnding::DepthBound,
        state,
    })
}
