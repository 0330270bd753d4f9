ghost use Rattle.std.specs.Prelude.{◌≡◌, IfOk, option_map};
ghost use Rattle.serde_json.specs.Data.{string, object as object_data, no_members, put as with_member};
ghost use Rattle.serde_json.specs.View.{view, members_view};
ghost use Rattle.kp_kore.specs.View.{view as pattern_view};
ghost use Rattle.kp_replies.specs.Written.{with_pattern, with_optional};

use kp_json::value_of;
use kp_kore::Pattern;
use kp_rpc::{Object, with_member_at};
use serde_json::{Map, Value};
use std::alloc::{AllocError, Global};

/// An object without members.
pub fn empty_object(alloc: Global) -> Object
    ensures { members_view result.entries ≡ no_members }
{
    Map::new(alloc)
}

/// The tree of an object, where there is one.
pub fn object_value(object: Option<Object>) -> Option<Value>
    ensures { option_map view result ≡ option_map object_data (option_map (λ m. members_view m.entries) object) }
{
    match object {
        Some(object) => Some(Value::Object(object)),
        None => None,
    }
}

/// The object with a text.
pub fn with_word_at(
    alloc: Global,
    object: Object,
    key: &str,
    text: &str,
) -> Result<Object, AllocError>
    ensures { IfOk result (λ o. members_view o.entries ≡ with_member key.now (string text.now) (members_view object.entries)) }
{
    let value = Value::String(String::from_str(alloc, text)?);
    with_member_at(alloc, object, key, value)
}

/// The object with a pattern; none where Kore JSON has no tag for a pattern in it.
pub fn with_pattern_at(
    alloc: Global,
    object: Object,
    key: &str,
    pattern: &Pattern,
) -> Result<Option<Object>, AllocError>
    ensures { IfOk result (λ o. option_map (λ m. members_view m.entries) o ≡ with_pattern key.now (pattern_view pattern.now) (members_view object.entries)) }
{
    match value_of(alloc, pattern)? {
        Some(tree) => Ok(Some(with_member_at(alloc, object, key, tree)?)),
        None => Ok(None),
    }
}

/// The object with a pattern, where there is one.
pub fn with_optional_at(
    alloc: Global,
    object: Object,
    key: &str,
    pattern: &Option<Pattern>,
) -> Result<Option<Object>, AllocError>
    ensures { IfOk result (λ o. option_map (λ m. members_view m.entries) o ≡ with_optional key.now (option_map pattern_view pattern.now) (members_view object.entries)) }
{
    match pattern {
        Some(pattern) => with_pattern_at(alloc, object, key, pattern),
        None => Ok(Some(object)),
    }
}
