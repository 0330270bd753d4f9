ghost use Rattle.std.specs.Prelude.{◌≡◌, ◌↔◌, IfOk, IfErr, IsTrue, option_map};
ghost use Rattle.std.specs.List.{list_all};
ghost use Rattle.serde_json.specs.Find.{get_member};
ghost use Rattle.serde_json.specs.View.{view, items_view, members_view};
ghost use Rattle.kp_json.specs.Members.{is_identifier, is_identifier_byte};
ghost use Rattle.kp_json.specs.Faults.{read, member_at, text_in, name_in, tree_in, trees_in, are_objects, tag_of};
ghost use Rattle.kp_json.specs.View.{Tells};

use crate::fault::{JsonError, missing, other_kind};
use serde_json::{Map, Value};
use std::alloc::Global;

/// The members of a JSON object.
pub type Object = Map<String, Value>;

/// The member, if there is one.
pub fn find<'a>(object: &'a Object, key: &str) -> Option<&'a Value>
    ensures { option_map (λ v. view v.now) result
        ≡ get_member key.now (members_view object.now.entries) }
{
    object.get(key)
}

/// The member that must be there.
pub fn member<'a>(alloc: Global, object: &'a Object, key: &str) -> Result<&'a Value, JsonError>
    ensures found { IfOk result (λ v. member_at (members_view object.now.entries) key.now ≡ read (view v.now)) }
    ensures fault { IfErr result (λ e. Tells e (member_at (members_view object.now.entries) key.now)) }
{
    match find(object, key) {
        Some(value) => Ok(value),
        None => Err(missing(alloc, key)),
    }
}

/// The text that the member must be.
pub fn text<'a>(alloc: Global, key: &str, value: &'a Value) -> Result<&'a str, JsonError>
    ensures found { IfOk result (λ t. text_in key.now (view value.now) ≡ read t.now) }
    ensures fault { IfErr result (λ e. Tells e (text_in key.now (view value.now))) }
{
    match value.as_str() {
        Some(text) => Ok(text),
        None => Err(other_kind(alloc, key)),
    }
}

/// The name that the member must be.
pub fn name<'a>(alloc: Global, key: &str, value: &'a Value) -> Result<&'a str, JsonError>
    ensures found { IfOk result (λ n. name_in key.now (view value.now) ≡ read n.now) }
    ensures fault { IfErr result (λ e. Tells e (name_in key.now (view value.now))) }
{
    let text = text(alloc, key, value)?;
    if is_name(text.as_bytes()) {
        Ok(text)
    } else {
        Err(other_kind(alloc, key))
    }
}

/// The object that the member must be.
pub fn tree<'a>(alloc: Global, key: &str, value: &'a Value) -> Result<&'a Object, JsonError>
    ensures found { IfOk result (λ o. tree_in key.now (view value.now) ≡ read (members_view o.now.entries)) }
    ensures fault { IfErr result (λ e. Tells e (tree_in key.now (view value.now))) }
{
    match value.as_object() {
        Some(object) => Ok(object),
        None => Err(other_kind(alloc, key)),
    }
}

/// The list of objects that the member must be.
pub fn trees<'a>(alloc: Global, key: &str, value: &'a Value) -> Result<&'a Vec<Value>, JsonError>
    ensures found { IfOk result (λ l. trees_in key.now (view value.now) ≡ read (items_view l.now.items)) }
    ensures fault { IfErr result (λ e. Tells e (trees_in key.now (view value.now))) }
{
    match value.as_array() {
        Some(list) => {
            if all_objects(list) {
                Ok(list)
            } else {
                Err(other_kind(alloc, key))
            }
        }
        None => Err(other_kind(alloc, key)),
    }
}

/// Whether each of them is an object.
fn all_objects(values: &[Value]) -> bool
    ensures { result ≡ are_objects (items_view values.now) }
{
    for value in values {
        if !value.is_object() {
            return false;
        }
    }
    true
}

/// The object's tag.
pub fn tag<'a>(alloc: Global, object: &'a Object) -> Result<&'a str, JsonError>
    ensures found { IfOk result (λ t. tag_of (members_view object.now.entries) ≡ read t.now) }
    ensures fault { IfErr result (λ e. Tells e (tag_of (members_view object.now.entries))) }
{
    text(alloc, "tag", member(alloc, object, "tag")?)
}

/// A letter, and then letters, digits, ' and -.
fn is_name(text: &[u8]) -> bool
    ensures { result ≡ is_identifier text.now }
{
    match text {
        [] => false,
        [first, rest @ ..] => first.is_ascii_alphabetic() && are_name_bytes(rest),
    }
}

/// Whether each byte may stand in a name.
fn are_name_bytes(text: &[u8]) -> bool
    ensures { result ≡ list_all is_identifier_byte text.now }
{
    for b in text {
        if !is_name_byte(*b) {
            return false;
        }
    }
    true
}

/// A letter, a digit, ' or -.
fn is_name_byte(b: u8) -> bool
    ensures { result ≡ is_identifier_byte b }
{
    b.is_ascii_alphabetic() || b.is_ascii_digit() || b == b'\'' || b == b'-'
}
