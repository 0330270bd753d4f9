ghost use Rattle.std.specs.Prelude.{◌≡◌, option_map, option_and_then, IfOk, codes};
ghost use Rattle.serde_json.specs.Find.{get};
ghost use Rattle.serde_json.specs.View.{view, number_view};
ghost use Rattle.kp_rpc.specs.Request.{id_tree};
ghost use Rattle.kp_rpc.specs.View.{id_view};
ghost use Rattle.kp_rpc.specs.Readings.{read_id, read_number_id};

use serde_json::{Number, Value};
use std::alloc::AllocError;

/// The id of a request, which its reply carries.
#[derive(Drop)]
pub enum Id {
    Text(String),
    Unsigned(u64),
    Signed(i64),
    Null,
}

/// The id that a tree is; none where it is neither a text nor a whole number nor null.
pub fn id_of(value: &Value) -> Result<Option<Id>, AllocError>
    ensures { IfOk result (λ o. option_map id_view o ≡ read_id (view value.now)) }
{
    match value {
        Value::Null => Ok(Some(Id::Null)),
        Value::Bool(_) => Ok(None),
        Value::Number(number) => Ok(number_id(number)),
        Value::String(text) => Ok(Some(Id::Text(text.clone()?))),
        Value::Array(_) => Ok(None),
        Value::Object(_) => Ok(None),
    }
}

/// The id that a number is, where it is whole.
fn number_id(number: &Number) -> Option<Id>
    ensures { option_map id_view result ≡ read_number_id (number_view number.now) }
{
    match number.as_i64() {
        Some(z) => Some(Id::Signed(z)),
        None => match number.as_u64() {
            Some(n) => Some(Id::Unsigned(n)),
            None => None,
        },
    }
}

/// The tree of an id.
pub fn id_value(id: &Id) -> Result<Value, AllocError>
    ensures { IfOk result (λ v. view v ≡ id_tree (id_view id.now)) }
{
    match id {
        Id::Text(text) => Ok(Value::from(text.clone()?)),
        Id::Unsigned(n) => Ok(Value::from(*n)),
        Id::Signed(z) => Ok(Value::from(*z)),
        Id::Null => Ok(Value::Null),
    }
}
