ghost use Rattle.std.specs.Prelude.{◌≡◌, ◌≤◌, length, IfOk, IfSome, Some, option_map};
ghost use Rattle.serde_json.specs.Data.{Data, depth};
ghost use Rattle.serde_json.specs.Read.{max_depth};
ghost use Rattle.serde_json.specs.View.{view, members_view};
ghost use Rattle.serde_json.specs.Written.{compact_text};
ghost use Rattle.kp_kore.specs.View.{view as pattern_view};
ghost use Rattle.kp_frames.specs.Frames.{most_frame};
ghost use Rattle.kp_rpc.specs.View.{id_view, name_view};
ghost use Rattle.kp_requests.specs.Asked.{simplify_params, simplify_tree, add_module_params, add_module_tree};
ghost use Rattle.kp_requests.specs.Frames.{IsJson};

use kp_json::value_of;
use kp_kore::Pattern;
use kp_rpc::{Id, Object, request_value, with_member_at, with_text_at};
use serde_json::{Map, Value};
use std::alloc::{AllocError, Global};

/// The params of simplify.
fn simplify_object(
    alloc: Global,
    module_name: &Option<String>,
    state: Value,
) -> Result<Object, AllocError>
    ensures { IfOk result (λ o. members_view o.entries ≡ simplify_params (name_view module_name.now) (view state)) }
{
    let object = with_text_at(alloc, Map::new(alloc), "module", module_name)?;
    with_member_at(alloc, object, "state", state)
}

/// The tree of a request of simplify; none where Kore JSON has no tag for a pattern in it.
fn simplify_value(
    alloc: Global,
    id: &Id,
    state: &Pattern,
    module_name: &Option<String>,
) -> Result<Option<Value>, AllocError>
    ensures { IfOk result (λ o. option_map view o ≡ simplify_tree (id_view id.now) (pattern_view state.now) (name_view module_name.now)) }
{
    let Some(state) = value_of(alloc, state)? else {
        return Ok(None);
    };
    let params = simplify_object(alloc, module_name, state)?;
    Ok(Some(request_value(alloc, id, "simplify", params)?))
}

/// The bytes of a request of simplify: its compact text with sorted keys. None where Kore JSON has no tag for a pattern in
/// it. Where they nest at most 127 deep and are no more than a frame may have, they are a frame of the request.
/// Source: the K Haskell backend's JSON-RPC documentation (simplify).
///
/// # Errors
/// Where memory runs out.
pub fn simplify_text(
    alloc: Global,
    id: &Id,
    state: &Pattern,
    module_name: &Option<String>,
) -> Result<Option<Vec<u8>>, AllocError>
    ensures text { IfOk result (λ o. option_map (λ b. b.items) o ≡ option_map compact_text (simplify_tree (id_view id.now) (pattern_view state.now) (name_view module_name.now))) }
    ensures read_back { let tree = simplify_tree (id_view id.now) (pattern_view state.now) (name_view module_name.now) in
        IfOk result (λ o. IfSome o (λ b. (d : Data) → tree ≡ Some d → depth d ≤ max_depth → length b.items ≤ most_frame → IsJson b.items d)) }
{
    match simplify_value(alloc, id, state, module_name)? {
        Some(tree) => Ok(Some(tree.to_vec(alloc)?)),
        None => Ok(None),
    }
}

/// The params of add-module.
fn add_module_object(alloc: Global, text: &str, name_as_id: bool) -> Result<Object, AllocError>
    ensures { IfOk result (λ o. members_view o.entries ≡ add_module_params text.now name_as_id) }
{
    let object = with_member_at(
        alloc,
        Map::new(alloc),
        "module",
        Value::String(String::from_str(alloc, text)?),
    )?;
    if name_as_id {
        return with_member_at(alloc, object, "name-as-id", Value::Bool(true));
    }
    Ok(object)
}

/// The tree of a request of add-module.
fn add_module_value(
    alloc: Global,
    id: &Id,
    text: &str,
    name_as_id: bool,
) -> Result<Value, AllocError>
    ensures { IfOk result (λ v. view v ≡ add_module_tree (id_view id.now) text.now name_as_id) }
{
    let params = add_module_object(alloc, text, name_as_id)?;
    request_value(alloc, id, "add-module", params)
}

/// The bytes of a request of add-module: its compact text with sorted keys. Where they are no more than a frame may have,
/// they are a frame of the request.
/// Source: the K Haskell backend's JSON-RPC documentation (add-module).
///
/// # Errors
/// Where memory runs out.
pub fn add_module_text(
    alloc: Global,
    id: &Id,
    text: &str,
    name_as_id: bool,
) -> Result<Vec<u8>, AllocError>
    ensures text { IfOk result (λ b. b.items ≡ compact_text (add_module_tree (id_view id.now) text.now name_as_id)) }
    ensures read_back { IfOk result (λ b. length b.items ≤ most_frame → IsJson b.items (add_module_tree (id_view id.now) text.now name_as_id)) }
{
    let tree = add_module_value(alloc, id, text, name_as_id)?;
    tree.to_vec(alloc)
}
