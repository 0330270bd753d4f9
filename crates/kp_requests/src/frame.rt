ghost use Rattle.std.specs.Prelude.{◌≡◌, IfOk, IfSome, IfNone};
ghost use Rattle.serde_json.specs.Data.{Data};
ghost use Rattle.serde_json.specs.View.{view, items_view};
ghost use Rattle.kp_requests.specs.Frames.{IsJson, Asks};
ghost use Rattle.kp_requests.specs.Calls.{read_batch, read_calls, read_frame};
ghost use Rattle.kp_requests.specs.View.{calls_view, parsed_view};

use crate::call::{Call, call_of};
use kp_frames::MOST_FRAME;
use kp_rpc::Refusal;
use serde_json::Value;
use std::alloc::{AllocError, Global};

/// What a frame asks: one call, or a batch of calls, whose replies stand in one array in their order; or why it is refused
/// as a whole, with one reply whose id is null.
/// Source: JSON-RPC 2.0 (batch).
#[derive(Drop)]
pub enum Parsed {
    Single(Call),
    Batch(Vec<Call>),
    Refused(Refusal),
}

/// The JSON value that the bytes are the text of.
fn json_of(alloc: Global, bytes: &[u8]) -> Result<Option<Value>, AllocError>
    ensures found { IfOk result (λ o. IfSome o (λ v. IsJson bytes.now (view v))) }
    ensures none { IfOk result (λ o. IfNone o ((d : Data) → ¬ IsJson bytes.now d)) }
{
    if bytes.len() > MOST_FRAME {
        return Ok(None);
    }
    match Value::from_slice(alloc, bytes) {
        Ok(value) => Ok(Some(value)),
        Err(error) => if error.is_memory() {
            Err(AllocError)
        } else {
            Ok(None)
        },
    }
}

/// What the members of a batch ask, each on its own.
fn calls_of(alloc: Global, members: &[Value]) -> Result<Vec<Call>, AllocError>
    ensures { IfOk result (λ cs. calls_view cs.items ≡ read_calls (items_view members.now)) }
{
    let mut calls = Vec::new(alloc);
    for member in members {
        calls.push(call_of(alloc, member)?)?;
    }
    Ok(calls)
}

/// What a batch asks.
fn batch_of(alloc: Global, members: &[Value]) -> Result<Parsed, AllocError>
    ensures { IfOk result (λ p. parsed_view p ≡ read_batch (items_view members.now)) }
{
    if members.is_empty() {
        return Ok(Parsed::Refused(Refusal::InvalidRequest));
    }
    Ok(Parsed::Batch(calls_of(alloc, members)?))
}

/// What a JSON value asks.
fn parsed_of(alloc: Global, value: &Value) -> Result<Parsed, AllocError>
    ensures { IfOk result (λ p. parsed_view p ≡ read_frame (view value.now)) }
{
    match value.as_array() {
        Some(members) => batch_of(alloc, members),
        None => Ok(Parsed::Single(call_of(alloc, value)?)),
    }
}

/// What the bytes of a frame ask. Bytes that aren't JSON of at most 4,194,304 bytes, nested at most 127 deep, are a parse
/// error; a JSON value that is neither a request object nor a batch is an invalid request.
/// Source: JSON-RPC 2.0 (request objects, batch, error codes).
///
/// # Errors
/// Where memory runs out.
pub fn request_of(alloc: Global, bytes: &[u8]) -> Result<Parsed, AllocError>
    ensures { IfOk result (λ p. Asks bytes.now (parsed_view p)) }
{
    match json_of(alloc, bytes)? {
        Some(value) => parsed_of(alloc, &value),
        None => Ok(Parsed::Refused(Refusal::ParseError)),
    }
}
