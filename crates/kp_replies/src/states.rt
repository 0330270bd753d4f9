ghost use Rattle.std.specs.Prelude.{◌≡◌, IfOk, option_map, option_and_then, codes};
ghost use Rattle.serde_json.specs.View.{view, items_view, members_view};
ghost use Rattle.kp_kore.specs.View.{view as pattern_view};
ghost use Rattle.kp_results.specs.View.{state_view, next_view, nexts_view};
ghost use Rattle.kp_replies.specs.Written.{with_pattern, with_state, state_tree, next_tree, next_trees};

use crate::members::{empty_object, object_value, with_optional_at, with_pattern_at};
use kp_results::{NextState, ReplyState};
use kp_rpc::{Object, with_text_at};
use serde_json::Value;
use std::alloc::{AllocError, Global};

/// The object with the members of a state.
fn with_state_at(
    alloc: Global,
    object: Object,
    state: &ReplyState,
) -> Result<Option<Object>, AllocError>
    ensures { IfOk result (λ o. option_map (λ m. members_view m.entries) o ≡ with_state (state_view state.now) (members_view object.entries)) }
{
    match with_pattern_at(alloc, object, "term", &state.term)? {
        Some(object) => with_optional_at(alloc, object, "predicate", &state.predicate),
        None => Ok(None),
    }
}

/// The tree of a state; none where Kore JSON has no tag for a pattern in it.
pub fn state_value(alloc: Global, state: &ReplyState) -> Result<Option<Value>, AllocError>
    ensures { IfOk result (λ o. option_map view o ≡ state_tree (state_view state.now)) }
{
    Ok(object_value(with_state_at(alloc, empty_object(alloc), state)?))
}

/// The object with the state and the predicate of a next state.
fn with_next_at(
    alloc: Global,
    object: Object,
    next: &NextState,
) -> Result<Option<Object>, AllocError>
    ensures { let written = with_state (state_view next.now.state) (members_view object.entries) in
        IfOk result (λ o. option_map (λ m. members_view m.entries) o
        ≡ option_and_then (with_pattern (codes "rule-predicate") (pattern_view next.now.predicate)) written) }
{
    match with_state_at(alloc, object, &next.state)? {
        Some(object) => with_pattern_at(alloc, object, "rule-predicate", &next.predicate),
        None => Ok(None),
    }
}

/// The tree of a next state; none where Kore JSON has no tag for a pattern in it.
fn next_value(alloc: Global, next: &NextState) -> Result<Option<Value>, AllocError>
    ensures { IfOk result (λ o. option_map view o ≡ next_tree (next_view next.now)) }
{
    let object = with_text_at(alloc, empty_object(alloc), "rule-id", &next.rule)?;
    Ok(object_value(with_next_at(alloc, object, next)?))
}

/// The trees of next states; none where Kore JSON has no tag for a pattern in one.
pub fn nexts_value(alloc: Global, nexts: &[NextState]) -> Result<Option<Vec<Value>>, AllocError>
    ensures { IfOk result (λ o. option_map (λ vs. items_view vs.items) o ≡ next_trees (nexts_view nexts.now)) }
{
    let mut values = Vec::new(alloc);
    for next in nexts {
        match next_value(alloc, next)? {
            Some(value) => values.push(value)?,
            None => return Ok(None),
        }
    }
    Ok(Some(values))
}
