// What a ground run comes to, as a result.
ghost use Rattle.std.specs.Prelude.{◌≡◌, IfOk};
ghost use Rattle.kp_kore.specs.View.{view};
ghost use Rattle.kp_results.specs.View.{executed_view, reason_view};
ghost use Rattle.kp_methods.specs.Ends.{ending_of, result_of as end_result};

use kp_kore::Pattern;
use kp_results::{Cause, Executed, Reason, ReplyState};
use kp_run::{GroundEnding, GroundRun};
use std::alloc::{AllocError, Global};

/// The reason of a reply.
fn reason_of(stop: &GroundEnding) -> Result<Reason, AllocError>
    ensures { IfOk result (λ reason. reason_view reason ≡ ending_of stop.now) }
{
    match stop {
        GroundEnding::Stuck => Ok(Reason::Stuck),
        GroundEnding::DepthBound => Ok(Reason::DepthBound),
        GroundEnding::ForeignRule { id } => Ok(Reason::Aborted {
            cause: Cause::ForeignRule { id: id.clone()? },
        }),
    }
}

/// The result of a run whose last state is spelled so.
pub fn result_of(alloc: Global, end: &GroundRun, term: Pattern) -> Result<Executed, AllocError>
    ensures { IfOk result (λ x. executed_view x ≡ end_result end.now (view term)) }
{
    let reason = reason_of(&end.stop)?;
    Ok(Executed {
        depth: end.depth,
        state: ReplyState {
            term,
            predicate: None,
        },
        reason,
        next_states: Vec::new(alloc),
    })
}
