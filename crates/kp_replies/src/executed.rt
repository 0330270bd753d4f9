ghost use Rattle.std.specs.Prelude.{◌≡◌, IfOk, option_map, codes};
ghost use Rattle.serde_json.specs.Data.{string, object as object_data, put};
ghost use Rattle.serde_json.specs.View.{view, members_view};
ghost use Rattle.kp_results.specs.View.{cause_view, reason_view, nexts_view, executed_view};
ghost use Rattle.kp_results.specs.Results.{aborted};
ghost use Rattle.kp_replies.specs.Written.{with_ending, with_next_states, with_nexts, executed_members, executed_tree};

use crate::members::{empty_object, object_value, with_word_at};
use crate::states::{nexts_value, state_value};
use kp_results::{Cause, Executed, NextState, Reason};
use kp_rpc::{Object, with_member_at};
use serde_json::Value;
use std::alloc::{AllocError, Global};

/// The object with the reason of a run that a rule ends.
fn with_rule_at(
    alloc: Global,
    object: Object,
    key: &str,
    id: &str,
    reason: &str,
) -> Result<Object, AllocError>
    ensures { IfOk result (λ o. members_view o.entries ≡ put (codes "reason") (string reason.now) (put key.now (string id.now) (members_view object.entries))) }
{
    let object = with_word_at(alloc, object, key, id)?;
    with_word_at(alloc, object, "reason", reason)
}

/// The object with the cause of an aborted run.
fn with_cause_at(alloc: Global, object: Object, cause: &Cause) -> Result<Object, AllocError>
    ensures { IfOk result (λ o. members_view o.entries ≡ with_ending (aborted (cause_view cause.now)) (members_view object.entries)) }
{
    match cause {
        Cause::ForeignRule { id } => with_rule_at(
            alloc,
            object,
            "foreign-rule",
            id.as_str(),
            "aborted",
        ),
    }
}

/// The object with the reason of a run.
fn with_reason_at(alloc: Global, object: Object, reason: &Reason) -> Result<Object, AllocError>
    ensures { IfOk result (λ o. members_view o.entries ≡ with_ending (reason_view reason.now) (members_view object.entries)) }
{
    match reason {
        Reason::Vacuous => with_word_at(alloc, object, "reason", "vacuous"),
        Reason::DepthBound => with_word_at(alloc, object, "reason", "depth-bound"),
        Reason::Stuck => with_word_at(alloc, object, "reason", "stuck"),
        Reason::Branching => with_word_at(alloc, object, "reason", "branching"),
        Reason::CutPoint { rule } => with_rule_at(
            alloc,
            object,
            "rule",
            rule.as_str(),
            "cut-point-rule",
        ),
        Reason::Terminal { rule } => with_rule_at(
            alloc,
            object,
            "rule",
            rule.as_str(),
            "terminal-rule",
        ),
        Reason::Aborted { cause } => with_cause_at(alloc, object, cause),
    }
}

/// The object with next states.
fn with_next_states_at(
    alloc: Global,
    object: Object,
    nexts: &[NextState],
) -> Result<Option<Object>, AllocError>
    ensures { IfOk result (λ o. option_map (λ m. members_view m.entries) o ≡ with_next_states (nexts_view nexts.now) (members_view object.entries)) }
{
    match nexts_value(alloc, nexts)? {
        Some(values) => Ok(Some(with_member_at(
            alloc,
            object,
            "next-states",
            Value::Array(values),
        )?)),
        None => Ok(None),
    }
}

/// The object with the next states that stand with a reason.
fn with_nexts_at(
    alloc: Global,
    object: Object,
    reason: &Reason,
    nexts: &[NextState],
) -> Result<Option<Object>, AllocError>
    ensures { IfOk result (λ o. option_map (λ m. members_view m.entries) o ≡ with_nexts (reason_view reason.now) (nexts_view nexts.now) (members_view object.entries)) }
{
    match reason {
        Reason::Vacuous => Ok(Some(object)),
        Reason::DepthBound => Ok(Some(object)),
        Reason::Stuck => Ok(Some(object)),
        Reason::Branching => with_next_states_at(alloc, object, nexts),
        Reason::CutPoint { rule: _ } => with_next_states_at(alloc, object, nexts),
        Reason::Terminal { rule: _ } => Ok(Some(object)),
        Reason::Aborted { cause: _ } => Ok(Some(object)),
    }
}

/// The object with the depth, the reason and the state of a run.
fn members_at(alloc: Global, executed: &Executed, state: Value) -> Result<Object, AllocError>
    ensures { IfOk result (λ o. members_view o.entries ≡ executed_members executed.now.depth (reason_view executed.now.reason) (view state)) }
{
    let object = with_member_at(alloc, empty_object(alloc), "state", state)?;
    let object = with_reason_at(alloc, object, &executed.reason)?;
    with_member_at(alloc, object, "depth", Value::from(executed.depth))
}

/// The tree of a result, from its state's.
fn full_value(alloc: Global, executed: &Executed, state: Value) -> Result<Option<Value>, AllocError>
    ensures { let reason' = reason_view executed.now.reason in let nexts' = nexts_view executed.now.next_states.items in
        IfOk result (λ o. option_map view o ≡ option_map object_data (with_nexts reason' nexts' (executed_members executed.now.depth reason' (view state)))) }
{
    let object = members_at(alloc, executed, state)?;
    Ok(object_value(with_nexts_at(alloc, object, &executed.reason, &executed.next_states)?))
}

/// The tree of the result of execute; none where Kore JSON has no tag for a pattern in it.
pub fn executed_value(alloc: Global, executed: &Executed) -> Result<Option<Value>, AllocError>
    ensures { IfOk result (λ o. option_map view o ≡ executed_tree (executed_view executed.now)) }
{
    match state_value(alloc, &executed.state)? {
        Some(state) => full_value(alloc, executed, state),
        None => Ok(None),
    }
}
