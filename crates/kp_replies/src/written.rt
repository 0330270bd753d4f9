ghost use Rattle.std.specs.Prelude.{◌≡◌, IfOk, false, option_map};
ghost use Rattle.serde_json.specs.View.{view};
ghost use Rattle.serde_json.specs.Written.{has_float};
ghost use Rattle.kp_kore.specs.View.{view as pattern_view};
ghost use Rattle.kp_rpc.specs.Reply.{result_reply, reply_bytes};
ghost use Rattle.kp_rpc.specs.View.{id_view};
ghost use Rattle.kp_results.specs.View.{executed_view, implied_view};
ghost use Rattle.kp_replies.specs.Written.{executed_tree, implied_tree, simplified_tree, added_tree};

use crate::executed::executed_value;
use crate::implied::implied_value;
use crate::members::{empty_object, object_value, with_pattern_at};
use kp_kore::Pattern;
use kp_results::{Executed, Implied};
use kp_rpc::{Id, id_value, line_of};
use serde_json::{Value, json};
use std::alloc::{AllocError, Global};

/// The tree of the reply with a result.
fn reply_value(alloc: Global, id: &Id, outcome: Value) -> Result<Value, AllocError>
    ensures { IfOk result (λ v. view v ≡ result_reply (id_view id.now) (view outcome)) }
{
    let id_member = id_value(id)?;
    json!(in alloc; {"id": id_member, "jsonrpc": "2.0", "result": outcome})
}

/// The bytes of the reply with a result, from its tree.
pub fn written_result(alloc: Global, id: &Id, outcome: Value) -> Result<Vec<u8>, AllocError>
    ensures { IfOk result (λ b. has_float (view outcome) ≡ false → b.items ≡ reply_bytes (result_reply (id_view id.now) (view outcome))) }
{
    let tree = reply_value(alloc, id, outcome)?;
    line_of(alloc, &tree)
}

/// The bytes of the reply with a result of execute, in one line. None where Kore JSON has no tag for a pattern in it.
/// Source: the K Haskell backend's JSON-RPC documentation (execute).
///
/// # Errors
/// Where memory runs out.
pub fn executed_text(
    alloc: Global,
    id: &Id,
    executed: &Executed,
) -> Result<Option<Vec<u8>>, AllocError>
    ensures { IfOk result (λ o. option_map (λ b. b.items) o ≡ option_map (λ t. reply_bytes (result_reply (id_view id.now) t)) (executed_tree (executed_view executed.now))) }
{
    match executed_value(alloc, executed)? {
        Some(tree) => Ok(Some(written_result(alloc, id, tree)?)),
        None => Ok(None),
    }
}

/// The bytes of the reply with the result of implies, in one line. None where Kore JSON has no tag for a pattern in the
/// condition.
/// Source: the K Haskell backend's JSON-RPC documentation (implies).
///
/// # Errors
/// Where memory runs out.
pub fn implied_text(
    alloc: Global,
    id: &Id,
    implied: &Implied,
) -> Result<Option<Vec<u8>>, AllocError>
    ensures { IfOk result (λ o. option_map (λ b. b.items) o ≡ option_map (λ t. reply_bytes (result_reply (id_view id.now) t)) (implied_tree (implied_view implied.now))) }
{
    match implied_value(alloc, implied)? {
        Some(tree) => Ok(Some(written_result(alloc, id, tree)?)),
        None => Ok(None),
    }
}

/// The tree of the result of simplify; none where Kore JSON has no tag for a pattern in it.
fn simplified_value(alloc: Global, state: &Pattern) -> Result<Option<Value>, AllocError>
    ensures { IfOk result (λ o. option_map view o ≡ simplified_tree (pattern_view state.now)) }
{
    Ok(object_value(with_pattern_at(alloc, empty_object(alloc), "state", state)?))
}

/// The bytes of the reply with a result of simplify, in one line. None where Kore JSON has no tag for a pattern in it.
/// Source: the K Haskell backend's JSON-RPC documentation (simplify).
///
/// # Errors
/// Where memory runs out.
pub fn simplified_text(
    alloc: Global,
    id: &Id,
    state: &Pattern,
) -> Result<Option<Vec<u8>>, AllocError>
    ensures { IfOk result (λ o. option_map (λ b. b.items) o ≡ option_map (λ t. reply_bytes (result_reply (id_view id.now) t)) (simplified_tree (pattern_view state.now))) }
{
    match simplified_value(alloc, state)? {
        Some(tree) => Ok(Some(written_result(alloc, id, tree)?)),
        None => Ok(None),
    }
}

/// The tree of the result of add-module.
fn added_value(alloc: Global, name: &str) -> Result<Value, AllocError>
    ensures { IfOk result (λ v. view v ≡ added_tree name.now) }
{
    json!(in alloc; {"module": name})
}

/// The bytes of the reply with a result of add-module, the module's id, in one line.
/// Source: the K Haskell backend's JSON-RPC documentation (add-module).
///
/// # Errors
/// Where memory runs out.
pub fn added_text(alloc: Global, id: &Id, name: &str) -> Result<Vec<u8>, AllocError>
    ensures { IfOk result (λ b. b.items ≡ reply_bytes (result_reply (id_view id.now) (added_tree name.now))) }
{
    let tree = added_value(alloc, name)?;
    written_result(alloc, id, tree)
}
