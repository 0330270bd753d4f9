ghost use Rattle.std.specs.Prelude.{◌≡◌, IfOk, option_map, codes};
ghost use Rattle.serde_json.specs.Data.{object as object_data, put};
ghost use Rattle.serde_json.specs.View.{view, members_view};
ghost use Rattle.kp_kore.specs.View.{view as pattern_view};
ghost use Rattle.kp_rpc.specs.Reply.{result_reply, reply_bytes};
ghost use Rattle.kp_rpc.specs.View.{id_view};
ghost use Rattle.kp_results.specs.Results.{predicate as undecided_predicate};
ghost use Rattle.kp_results.specs.View.{state_view, limit_view, undecided_view};
ghost use Rattle.kp_replies.specs.Failures.{limit_tree};
ghost use Rattle.kp_replies.specs.Aborted.{with_undecided, aborted_members, aborted_tree};

use crate::failure::{limit_value, with_limit_at};
use crate::members::{empty_object, object_value, with_pattern_at, with_word_at};
use crate::states::state_value;
use crate::written::written_result;
use kp_kore::Pattern;
use kp_results::{Limit, ReplyState, Undecided};
use kp_rpc::{Id, Object, with_member_at};
use serde_json::Value;
use std::alloc::{AllocError, Global};

/// The object with a predicate that isn't decided; none where Kore JSON has no tag for a pattern in it.
fn with_predicate_at(
    alloc: Global,
    object: Object,
    predicate: &Pattern,
    limit: &Option<Limit>,
) -> Result<Option<Object>, AllocError>
    ensures { let predicate' = pattern_view predicate.now in let limit' = option_map limit_view limit.now in
        IfOk result (λ o. option_map (λ m. members_view m.entries) o ≡ with_undecided (undecided_predicate predicate' limit') (members_view object.entries)) }
{
    let object = with_limit_at(alloc, object, limit)?;
    with_pattern_at(alloc, object, "unknown-predicate", predicate)
}

/// The object with a limit that is passed.
fn with_passed_at(alloc: Global, object: Object, limit: &Limit) -> Result<Object, AllocError>
    ensures { IfOk result (λ o. members_view o.entries ≡ put (codes "limit") (limit_tree (limit_view limit.now)) (members_view object.entries)) }
{
    let tree = limit_value(alloc, limit)?;
    with_member_at(alloc, object, "limit", tree)
}

/// The object with what isn't decided.
fn with_undecided_at(
    alloc: Global,
    object: Object,
    undecided: &Undecided,
) -> Result<Option<Object>, AllocError>
    ensures { IfOk result (λ o. option_map (λ m. members_view m.entries) o ≡ with_undecided (undecided_view undecided.now) (members_view object.entries)) }
{
    match undecided {
        Undecided::Predicate { predicate, limit } => with_predicate_at(
            alloc, object, predicate, limit,
        ),
        Undecided::Limit { limit } => Ok(Some(with_passed_at(alloc, object, limit)?)),
    }
}

/// The object with the depth, the reason and the state of a run that is aborted.
fn members_at(alloc: Global, depth: u64, state: Value) -> Result<Object, AllocError>
    ensures { IfOk result (λ o. members_view o.entries ≡ aborted_members depth (view state)) }
{
    let object = with_member_at(alloc, empty_object(alloc), "state", state)?;
    let object = with_word_at(alloc, object, "reason", "aborted")?;
    with_member_at(alloc, object, "depth", Value::from(depth))
}

/// The tree of a run that is aborted, from its state's.
fn full_value(
    alloc: Global,
    depth: u64,
    state: Value,
    undecided: &Undecided,
) -> Result<Option<Value>, AllocError>
    ensures { IfOk result (λ o. option_map view o ≡ option_map object_data (with_undecided (undecided_view undecided.now) (aborted_members depth (view state)))) }
{
    let object = members_at(alloc, depth, state)?;
    Ok(object_value(with_undecided_at(alloc, object, undecided)?))
}

/// The tree of a run that is aborted by what isn't decided; none where Kore JSON has no tag for a pattern in it.
fn aborted_value(
    alloc: Global,
    depth: u64,
    state: &ReplyState,
    undecided: &Undecided,
) -> Result<Option<Value>, AllocError>
    ensures { IfOk result (λ o. option_map view o ≡ aborted_tree depth (state_view state.now) (undecided_view undecided.now)) }
{
    match state_value(alloc, state)? {
        Some(tree) => full_value(alloc, depth, tree, undecided),
        None => Ok(None),
    }
}

/// The bytes of the reply with a run that is aborted by what isn't decided of its last state, in one line. None where Kore
/// JSON has no tag for a pattern in it.
/// Source: the K Haskell backend's JSON-RPC documentation (execute: aborted).
///
/// # Errors
/// Where memory runs out.
pub fn aborted_text(
    alloc: Global,
    id: &Id,
    depth: u64,
    state: &ReplyState,
    undecided: &Undecided,
) -> Result<Option<Vec<u8>>, AllocError>
    ensures { let tree = aborted_tree depth (state_view state.now) (undecided_view undecided.now) in
        IfOk result (λ o. option_map (λ b. b.items) o ≡ option_map (λ t. reply_bytes (result_reply (id_view id.now) t)) tree) }
{
    match aborted_value(alloc, depth, state, undecided)? {
        Some(tree) => Ok(Some(written_result(alloc, id, tree)?)),
        None => Ok(None),
    }
}
