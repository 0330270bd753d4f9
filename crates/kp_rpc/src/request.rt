ghost use Rattle.std.specs.Prelude.{◌≡◌, ◌↔◌, Some, IsTrue, option_map, option_and_then, codes};
ghost use Rattle.serde_json.specs.Find.{get, as_str};
ghost use Rattle.serde_json.specs.View.{view};

use serde_json::Value;

/// Why a frame is refused before its state is read.
#[derive(Clone, Copy, Drop)]
pub enum Refusal {
    ParseError,
    InvalidRequest,
    MethodNotFound,
    InvalidParams,
}

/// A member that is a text.
pub fn member_text<'a>(value: &'a Value, key: &str) -> Option<&'a str>
    ensures { option_map (λ t. t.now) result ≡ option_and_then as_str (get key.now (view value.now)) }
{
    value.get(key).and_then(Value::as_str)
}

/// Whether the object speaks version 2.0 of JSON-RPC.
pub fn is_version_two(value: &Value) -> bool
    ensures { IsTrue result ↔ (option_and_then as_str (get (codes "jsonrpc") (view value.now)) ≡ Some (codes "2.0")) }
{
    match member_text(value, "jsonrpc") {
        Some(version) => version == "2.0",
        None => false,
    }
}
