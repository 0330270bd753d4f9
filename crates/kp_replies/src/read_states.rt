ghost use Rattle.std.specs.Prelude.{◌≡◌, IfOk, option_map, option_and_then, codes};
ghost use Rattle.serde_json.specs.Find.{get};
ghost use Rattle.serde_json.specs.View.{view, items_view};
ghost use Rattle.kp_results.specs.View.{state_view, next_view, nexts_view};
ghost use Rattle.kp_replies.specs.Read.{read_state, read_next, read_nexts, read_next_states};

use crate::named::optional_rule_at;
use crate::patterns::{predicate_at, wrapped_at};
use kp_results::{NextState, ReplyState};
use serde_json::Value;
use std::alloc::{AllocError, Global};

/// The state that a tree tells.
fn state_of(alloc: Global, value: &Value) -> Result<Option<ReplyState>, AllocError>
    ensures { IfOk result (λ o. option_map state_view o ≡ read_state (view value.now)) }
{
    let Some(term) = wrapped_at(alloc, value, "term")? else {
        return Ok(None);
    };
    let Some(predicate) = predicate_at(alloc, value)? else {
        return Ok(None);
    };
    Ok(Some(ReplyState { term, predicate }))
}

/// The state under the key of one.
pub fn state_at(alloc: Global, value: &Value) -> Result<Option<ReplyState>, AllocError>
    ensures { IfOk result (λ o. option_map state_view o ≡ option_and_then read_state (get (codes "state") (view value.now))) }
{
    match value.get("state") {
        Some(tree) => state_of(alloc, tree),
        None => Ok(None),
    }
}

/// The next state that a tree tells.
fn next_of(alloc: Global, value: &Value) -> Result<Option<NextState>, AllocError>
    ensures { IfOk result (λ o. option_map next_view o ≡ read_next (view value.now)) }
{
    let Some(rule) = optional_rule_at(alloc, value, "rule-id")? else {
        return Ok(None);
    };
    let Some(predicate) = wrapped_at(alloc, value, "rule-predicate")? else {
        return Ok(None);
    };
    let Some(state) = state_of(alloc, value)? else {
        return Ok(None);
    };
    Ok(Some(NextState {
        rule,
        predicate,
        state,
    }))
}

/// The next states that trees tell.
fn nexts_of(alloc: Global, values: &[Value]) -> Result<Option<Vec<NextState>>, AllocError>
    ensures { IfOk result (λ o. option_map (λ ns. nexts_view ns.items) o ≡ read_nexts (items_view values.now)) }
{
    let mut nexts = Vec::new(alloc);
    for value in values {
        match next_of(alloc, value)? {
            Some(next) => match nexts.push(next) {
                Ok(()) => {}
                Err(_) => return Err(AllocError),
            },
            None => return Ok(None),
        }
    }
    Ok(Some(nexts))
}

/// The next states of a result.
pub fn nexts_at(alloc: Global, value: &Value) -> Result<Option<Vec<NextState>>, AllocError>
    ensures { IfOk result (λ o. option_map (λ ns. nexts_view ns.items) o ≡ read_next_states (view value.now)) }
{
    match value.get("next-states").and_then(Value::as_array) {
        Some(values) => nexts_of(alloc, values),
        None => Ok(None),
    }
}
