ghost use Rattle.std.specs.Prelude.{◌≡◌, IfOk, option_map};
ghost use Rattle.serde_json.specs.View.{view};
ghost use Rattle.kp_kore.specs.View.{view as pattern_view};
ghost use Rattle.kp_json.specs.Written.{two_parts, wrapped_pattern};
ghost use Rattle.kp_results.specs.View.{implied_view};
ghost use Rattle.kp_replies.specs.Read.{read_condition, read_implied};
ghost use Rattle.kp_replies.specs.Written.{valid_object, not_valid_object, implied_tree};

use crate::patterns::wrapped_at;
use kp_json::value_of;
use kp_kore::Pattern;
use kp_results::Implied;
use serde_json::{Value, json};
use std::alloc::{AllocError, Global};

// ---- written

/// The tree of an implication that holds.
fn valid_value(alloc: Global, predicate: Value, substitution: Value) -> Result<Value, AllocError>
    ensures { IfOk result (λ v. view v ≡ valid_object (view predicate) (view substitution)) }
{
    json!(in alloc; {
        "condition": {"predicate": predicate, "substitution": substitution},
        "valid": true
    })
}

/// The tree of an implication that doesn't hold.
fn not_valid_value(alloc: Global) -> Result<Value, AllocError>
    ensures { IfOk result (λ v. view v ≡ not_valid_object) }
{
    json!(in alloc; {"valid": false})
}

/// The tree of an implication that holds under this condition.
fn condition_value(
    alloc: Global,
    predicate: &Pattern,
    substitution: &Pattern,
) -> Result<Option<Value>, AllocError>
    ensures { IfOk result (λ o. option_map view o
        ≡ two_parts valid_object (wrapped_pattern (pattern_view predicate.now)) (wrapped_pattern (pattern_view substitution.now))) }
{
    let Some(predicate) = value_of(alloc, predicate)? else {
        return Ok(None);
    };
    let Some(substitution) = value_of(alloc, substitution)? else {
        return Ok(None);
    };
    Ok(Some(valid_value(alloc, predicate, substitution)?))
}

/// The tree of the result of implies; none where Kore JSON has no tag for a pattern in it.
pub fn implied_value(alloc: Global, implied: &Implied) -> Result<Option<Value>, AllocError>
    ensures { IfOk result (λ o. option_map view o ≡ implied_tree (implied_view implied.now)) }
{
    match implied {
        Implied::NotValid => Ok(Some(not_valid_value(alloc)?)),
        Implied::Valid {
            predicate,
            substitution,
        } => condition_value(alloc, predicate, substitution),
    }
}

// ---- read

/// The result of an implication that holds.
fn condition_of(alloc: Global, value: &Value) -> Result<Option<Implied>, AllocError>
    ensures { IfOk result (λ o. option_map implied_view o ≡ read_condition (view value.now)) }
{
    let Some(condition) = value.get("condition") else {
        return Ok(None);
    };
    let Some(predicate) = wrapped_at(alloc, condition, "predicate")? else {
        return Ok(None);
    };
    let Some(substitution) = wrapped_at(alloc, condition, "substitution")? else {
        return Ok(None);
    };
    Ok(Some(Implied::Valid {
        predicate,
        substitution,
    }))
}

/// The result of implies.
pub fn implied_of(alloc: Global, value: &Value) -> Result<Option<Implied>, AllocError>
    ensures { IfOk result (λ o. option_map implied_view o ≡ read_implied (view value.now)) }
{
    match value.get("valid").and_then(Value::as_bool) {
        Some(true) => condition_of(alloc, value),
        Some(false) => Ok(Some(Implied::NotValid)),
        None => Ok(None),
    }
}
