ghost use Rattle.std.specs.Prelude.{◌≡◌, IfOk, false};
ghost use Rattle.serde_json.specs.Find.{of_integer};
ghost use Rattle.serde_json.specs.View.{view};
ghost use Rattle.serde_json.specs.Written.{has_float};
ghost use Rattle.kp_rpc.specs.Reply.{error_reply, error_parts, reply_bytes};
ghost use Rattle.kp_rpc.specs.View.{id_view, refusal_view};

use crate::id::{Id, id_value};
use crate::request::Refusal;
use serde_json::{Value, json};
use std::alloc::{AllocError, Global};

/// The code of a refusal.
fn code_of(refusal: Refusal) -> i64
    ensures { of_integer result ≡ (error_parts (refusal_view refusal)).code }
{
    match refusal {
        Refusal::ParseError => -32700,
        Refusal::InvalidRequest => -32600,
        Refusal::MethodNotFound => -32601,
        Refusal::InvalidParams => -32602,
    }
}

/// The message of a refusal.
fn message_of(refusal: Refusal) -> &'static str
    ensures { result.now ≡ (error_parts (refusal_view refusal)).message }
{
    match refusal {
        Refusal::ParseError => "Parse error",
        Refusal::InvalidRequest => "Invalid Request",
        Refusal::MethodNotFound => "Method not found",
        Refusal::InvalidParams => "Invalid params",
    }
}

/// The tree of the reply to a refused frame.
fn refusal_value(alloc: Global, id: &Id, refusal: Refusal) -> Result<Value, AllocError>
    ensures { IfOk result (λ v. view v ≡ error_reply (id_view id.now) (refusal_view refusal)) }
{
    let id_member = id_value(id)?;
    json!(in alloc; {
        "error": {"code": code_of(refusal), "message": message_of(refusal)},
        "id": id_member,
        "jsonrpc": "2.0"
    })
}

/// The compact text of a tree, and one line feed.
pub fn line_of(alloc: Global, tree: &Value) -> Result<Vec<u8>, AllocError>
    ensures { IfOk result (λ b. has_float (view tree.now) ≡ false → b.items ≡ reply_bytes (view tree.now)) }
{
    let mut line = tree.to_vec(alloc)?;
    match line.push(b'\n') {
        Ok(()) => Ok(line),
        Err(_) => Err(AllocError),
    }
}

/// The bytes of the reply to a refused frame.
pub fn refusal_text(alloc: Global, id: &Id, refusal: Refusal) -> Result<Vec<u8>, AllocError>
    ensures { IfOk result (λ b. b.items ≡ reply_bytes (error_reply (id_view id.now) (refusal_view refusal))) }
{
    let tree = refusal_value(alloc, id, refusal)?;
    line_of(alloc, &tree)
}
