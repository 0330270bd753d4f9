ghost use Rattle.std.specs.Prelude.{◌≡◌, option_map, IfOk, codes};
ghost use Rattle.serde_json.specs.Find.{get};
ghost use Rattle.serde_json.specs.View.{view};
ghost use Rattle.kp_rpc.specs.View.{id_view};
ghost use Rattle.kp_requests.specs.Calls.{or_invalid_params, asked_of as spec_asked_of, read_call_id, echoed, invalid_call, read_call};
ghost use Rattle.kp_requests.specs.View.{request_view, asked_view, call_view};

use crate::params::{add_module_of, execute_of, implies_of, simplify_of};
use crate::request::Request;
use kp_rpc::{Id, Refusal, id_of, is_version_two, member_text, object_at};
use serde_json::Value;
use std::alloc::{AllocError, Global};

/// What a call asks, or why it is refused.
#[derive(Drop)]
pub enum Asked {
    Request(Request),
    Refused(Refusal),
}

/// One call, alone or in a batch: what it asks, and the id of its reply. Without an id it is a notification, which gets
/// no reply.
/// Source: JSON-RPC 2.0 (request objects, notifications).
#[derive(Drop)]
pub struct Call {
    pub id: Option<Id>,
    pub asked: Asked,
}

/// A request, or invalid params where there is none.
fn or_refused(request: Option<Request>) -> Asked
    ensures { asked_view result ≡ or_invalid_params (option_map request_view request) }
{
    match request {
        Some(request) => Asked::Request(request),
        None => Asked::Refused(Refusal::InvalidParams),
    }
}

/// What a method of this name is asked by its params, where these are an object.
fn asked_of(alloc: Global, method: &str, params: Option<&Value>) -> Result<Asked, AllocError>
    ensures { IfOk result (λ a. asked_view a ≡ spec_asked_of method.now (option_map (λ v. view v.now) params.entry)) }
{
    if method == "execute" {
        return Ok(or_refused(execute_of(alloc, params)?));
    }
    if method == "implies" {
        return Ok(or_refused(implies_of(alloc, params)?));
    }
    if method == "simplify" {
        return Ok(or_refused(simplify_of(alloc, params)?));
    }
    if method == "add-module" {
        return Ok(or_refused(add_module_of(alloc, params)?));
    }
    Ok(Asked::Refused(Refusal::MethodNotFound))
}

/// The id of a call, where it has one; none where that is unlawful.
fn call_id(value: &Value) -> Result<Option<Option<Id>>, AllocError>
    ensures { IfOk result (λ o. option_map (option_map id_view) o ≡ read_call_id (get (codes "id") (view value.now))) }
{
    let Some(member) = value.get("id") else {
        return Ok(Some(None));
    };
    match id_of(member)? {
        Some(id) => Ok(Some(Some(id))),
        None => Ok(None),
    }
}

/// The id that the reply to a value carries which is no request.
fn echoed_id(value: &Value) -> Result<Id, AllocError>
    ensures { IfOk result (λ id. id_view id ≡ echoed (view value.now)) }
{
    match call_id(value)? {
        Some(Some(id)) => Ok(id),
        Some(None) => Ok(Id::Null),
        None => Ok(Id::Null),
    }
}

/// The call of a value that is no request.
fn no_request(value: &Value) -> Result<Call, AllocError>
    ensures { IfOk result (λ c. call_view c ≡ invalid_call (view value.now)) }
{
    Ok(Call {
        id: Some(echoed_id(value)?),
        asked: Asked::Refused(Refusal::InvalidRequest),
    })
}

/// What one JSON value asks, alone or as a member of a batch.
pub fn call_of(alloc: Global, value: &Value) -> Result<Call, AllocError>
    ensures { IfOk result (λ c. call_view c ≡ read_call (view value.now)) }
{
    if !is_version_two(value) {
        return no_request(value);
    }
    let Some(method) = member_text(value, "method") else {
        return no_request(value);
    };
    let Some(id) = call_id(value)? else {
        return no_request(value);
    };
    Ok(Call {
        id,
        asked: asked_of(alloc, method, object_at(value, "params"))?,
    })
}
