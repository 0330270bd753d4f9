// The calls of a batch, whose replies stand in one array.
ghost use Rattle.std.specs.Prelude.{◌≡◌, ◌∷◌, [], IfOk, OnErr, OnOk, option_map};
ghost use Rattle.kp_requests.specs.View.{call_view, calls_view};
ghost use Rattle.kp_registry.specs.Registries.{IsPassOf};
ghost use Rattle.kp_service.specs.Answers.{IsFront};
ghost use Rattle.kp_service.specs.Batches.{FromEachBookSeen, AreMembersText, IsNextTold, text_closed, text_with};
ghost use Rattle.kp_service.specs.Ready.{IsReadyFor};

use crate::member::answered;
use kp_methods::Prepared;
use kp_registry::{Pass, Registry};
use kp_requests::Call;
use std::alloc::{AllocError, Global};
use std::sync::Wait;

/// The text of the replies to a batch's calls in order, as one array; none where none of them has a reply.
pub fn answered_batch<R: Wait>(
    rt: &R,
    alloc: Global,
    registry: &Registry,
    prepared: &Prepared,
    pass: &mut Pass,
    calls: Vec<Call>,
) -> Result<Option<Vec<u8>>, AllocError>
    requires pass { IsPassOf registry.now pass.old }
    requires prepared { IsReadyFor registry.now prepared.now }
    ensures pass { IsPassOf registry.now pass.new }
    ensures told { let calls' = calls_view calls.items in IfOk result (λ array. FromEachBookSeen registry.now pass.old pass.new (λ o seen. AreMembersText o seen calls' (option_map (λ text. text.items) array))) }
    ensures begun { OnErr result (FromEachBookSeen registry.now pass.old pass.new (λ o seen. IsFront o seen (calls_view calls.items))) }
{
    let mut replies = Vec::new(alloc);
    for call in calls {
        answer_next(rt, alloc, registry, prepared, pass, call, &mut replies)?;
    }
    closed(replies)
}

/// Answers one more call, and adds its reply, where it has one.
fn answer_next<R: Wait>(
    rt: &R,
    alloc: Global,
    registry: &Registry,
    prepared: &Prepared,
    pass: &mut Pass,
    call: Call,
    replies: &mut Vec<u8>,
) -> Result<(), AllocError>
    requires pass { IsPassOf registry.now pass.old }
    requires prepared { IsReadyFor registry.now prepared.now }
    ensures pass { IsPassOf registry.now pass.new }
    ensures told { OnOk result (FromEachBookSeen registry.now pass.old pass.new (λ o seen. IsNextTold o seen (call_view call) replies.old.items replies.new.items)) }
    ensures begun { OnErr result (FromEachBookSeen registry.now pass.old pass.new (λ o seen. IsFront o seen (call_view call ∷ []))) }
{
    let told = answered(rt, alloc, registry, prepared, pass, call)?;
    match told {
        Some(reply) => add_reply(replies, &reply),
        None => Ok(()),
    }
}

/// Adds a reply behind a bracket, or behind a comma and the replies before.
fn add_reply(replies: &mut Vec<u8>, reply: &[u8]) -> Result<(), AllocError>
    ensures { OnOk result (replies.new.items ≡ text_with replies.old.items reply.now) }
{
    let mark = if replies.is_empty() { b'[' } else { b',' };
    replies.push(mark)?;
    replies.extend_from_slice(reply)?;
    Ok(())
}

/// The array of replies, where there are any.
fn closed(replies: Vec<u8>) -> Result<Option<Vec<u8>>, AllocError>
    ensures { IfOk result (λ array. option_map (λ text. text.items) array ≡ text_closed replies.items) }
{
    if replies.is_empty() {
        return Ok(None);
    }
    let mut array = replies;
    array.push(b']')?;
    Ok(Some(array))
}
