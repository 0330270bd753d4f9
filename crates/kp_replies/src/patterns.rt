ghost use Rattle.std.specs.Prelude.{◌≡◌, IfOk, option_map, codes};
ghost use Rattle.serde_json.specs.Find.{get};
ghost use Rattle.serde_json.specs.View.{view};
ghost use Rattle.kp_kore.specs.View.{view as pattern_view};
ghost use Rattle.kp_json.specs.Faults.{wrapped_reading};
ghost use Rattle.kp_replies.specs.Read.{pattern_in, read_wrapped, read_optional};

use kp_json::JsonError;
use kp_kore::Pattern;
use serde_json::Value;
use std::alloc::{AllocError, Global};

/// The pattern that a tree spells.
fn pattern_of(alloc: Global, tree: &Value) -> Result<Option<Pattern>, AllocError>
    ensures { IfOk result (λ o. option_map pattern_view o ≡ pattern_in (wrapped_reading (view tree.now))) }
{
    match kp_json::pattern_of(alloc, tree) {
        Ok(pattern) => Ok(Some(pattern)),
        Err(JsonError::Fault(_)) => Ok(None),
        Err(JsonError::Memory) => Err(AllocError),
    }
}

/// The pattern that a member spells.
pub fn wrapped_at(alloc: Global, value: &Value, key: &str) -> Result<Option<Pattern>, AllocError>
    ensures { IfOk result (λ o. option_map pattern_view o ≡ read_wrapped (get key.now (view value.now))) }
{
    match value.get(key) {
        Some(tree) => pattern_of(alloc, tree),
        None => Ok(None),
    }
}

/// The predicate of a state, where there is one.
pub fn predicate_at(alloc: Global, state: &Value) -> Result<Option<Option<Pattern>>, AllocError>
    ensures { IfOk result (λ o. option_map (option_map pattern_view) o ≡ read_optional (get (codes "predicate") (view state.now))) }
{
    let Some(tree) = state.get("predicate") else {
        return Ok(Some(None));
    };
    match pattern_of(alloc, tree)? {
        Some(predicate) => Ok(Some(Some(predicate))),
        None => Ok(None),
    }
}
