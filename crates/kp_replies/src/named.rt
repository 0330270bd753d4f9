ghost use Rattle.std.specs.Prelude.{◌≡◌, IfOk, option_map, option_and_then, string_bytes, codes};
ghost use Rattle.std.specs.List.{list_all};
ghost use Rattle.serde_json.specs.Find.{get, as_str};
ghost use Rattle.serde_json.specs.View.{view};
ghost use Rattle.kp_kore.specs.ClaimRules.{is_lower_hexadecimal};
ghost use Rattle.kp_replies.specs.Read.{is_visible as visible_test, is_rule_id as rule_id_test, is_module_id as module_id_test, if_module_id, if_rule_id, read_rule, read_optional_rule, is_limit_name as limit_name_test, if_limit_name, limit_name, told_limit, text_in};

use kp_rpc::member_text;
use serde_json::Value;
use std::alloc::{AllocError, Global};

/// Whether a text can be a rule's id: one or more characters from 33 to 126, so that it is one word of a line.
pub fn is_rule_id(text: &str) -> bool
    ensures { result ≡ rule_id_test text.now }
{
    0 < text.len() && are_visible(text.as_bytes())
}

/// Whether each byte is a character from 33 to 126.
fn are_visible(text: &[u8]) -> bool
    ensures { result ≡ list_all visible_test text.now }
{
    text.iter().all(|byte| is_visible(*byte))
}

/// Whether a byte is a character from 33 to 126.
fn is_visible(byte: u8) -> bool
    ensures { result ≡ visible_test byte }
{
    33 <= byte && byte <= 126
}

/// Whether a text is an added module's id: m and 64 lower-case hexadecimal digits.
/// Source: the K Haskell backend's JSON-RPC documentation (add-module).
pub fn is_module_id(text: &str) -> bool
    ensures { result ≡ module_id_test text.now }
{
    is_mark_and_digits(text.as_bytes())
}

/// Whether it is m and 64 lower-case hexadecimal digits.
fn is_mark_and_digits(text: &[u8]) -> bool
    ensures { result ≡ module_id_test text.now }
{
    match text {
        [first, digits @ ..] => *first == b'm' && digits.len() == 64 && are_hexadecimal(digits),
        [] => false,
    }
}

/// Whether each byte is a lower-case hexadecimal digit.
fn are_hexadecimal(text: &[u8]) -> bool
    ensures { result ≡ list_all is_lower_hexadecimal text.now }
{
    text.iter().all(|byte| is_hexadecimal(*byte))
}

/// Whether a byte is a lower-case hexadecimal digit.
fn is_hexadecimal(byte: u8) -> bool
    ensures { result ≡ is_lower_hexadecimal byte }
{
    byte.is_ascii_digit() || (97 <= byte && byte <= 102)
}

/// The module's id that a text is.
fn module_named(alloc: Global, text: &str) -> Result<Option<String>, AllocError>
    ensures { IfOk result (λ o. option_map string_bytes o ≡ if_module_id text.now) }
{
    if is_module_id(text) {
        return Ok(Some(String::from_str(alloc, text)?));
    }
    Ok(None)
}

/// The added module's id of a result.
pub fn module_at(alloc: Global, value: &Value) -> Result<Option<String>, AllocError>
    ensures { IfOk result (λ o. option_map string_bytes o ≡ option_and_then if_module_id (text_in (get (codes "module") (view value.now)))) }
{
    match member_text(value, "module") {
        Some(text) => module_named(alloc, text),
        None => Ok(None),
    }
}

/// The rule's id that a text is.
fn named(alloc: Global, text: &str) -> Result<Option<String>, AllocError>
    ensures { IfOk result (λ o. option_map string_bytes o ≡ if_rule_id text.now) }
{
    if is_rule_id(text) {
        return Ok(Some(String::from_str(alloc, text)?));
    }
    Ok(None)
}

/// The rule's id under a key.
pub fn rule_at(alloc: Global, value: &Value, key: &str) -> Result<Option<String>, AllocError>
    ensures { IfOk result (λ o. option_map string_bytes o ≡ read_rule (get key.now (view value.now))) }
{
    match member_text(value, key) {
        Some(text) => named(alloc, text),
        None => Ok(None),
    }
}

/// The rule's id that a tree is.
fn rule_of(alloc: Global, tree: &Value) -> Result<Option<String>, AllocError>
    ensures { IfOk result (λ o. option_map string_bytes o ≡ option_and_then if_rule_id (as_str (view tree.now))) }
{
    match tree.as_str() {
        Some(text) => named(alloc, text),
        None => Ok(None),
    }
}

/// The rule's id under a key, where there is such a member.
pub fn optional_rule_at(
    alloc: Global,
    value: &Value,
    key: &str,
) -> Result<Option<Option<String>>, AllocError>
    ensures { IfOk result (λ o. option_map (option_map string_bytes) o ≡ read_optional_rule (get key.now (view value.now))) }
{
    let Some(tree) = value.get(key) else {
        return Ok(Some(None));
    };
    match rule_of(alloc, tree)? {
        Some(id) => Ok(Some(Some(id))),
        None => Ok(None),
    }
}

/// Whether a text is the name of a limit.
fn is_limit_name(text: &str) -> bool
    ensures { result ≡ limit_name_test text.now }
{
    text == "bits" || text == "literals" || text == "product" || text == "depth" || text == "number"
}

/// The name of a limit that a text is.
fn limit_named(alloc: Global, text: &str) -> Result<Option<String>, AllocError>
    ensures { IfOk result (λ o. option_map string_bytes o ≡ if_limit_name text.now) }
{
    if is_limit_name(text) {
        return Ok(Some(String::from_str(alloc, text)?));
    }
    Ok(None)
}

/// The name of the limit of a result.
fn limit_at(alloc: Global, value: &Value) -> Result<Option<String>, AllocError>
    ensures { IfOk result (λ o. option_map string_bytes o ≡ limit_name (view value.now)) }
{
    let Some(limit) = value.get("limit") else {
        return Ok(None);
    };
    match member_text(limit, "name") {
        Some(name) => limit_named(alloc, name),
        None => Ok(None),
    }
}

/// What isn't decided of a result: with a predicate no limit is read, else one is needed.
pub fn told_limit_at(alloc: Global, value: &Value) -> Result<Option<Option<String>>, AllocError>
    ensures { IfOk result (λ o. option_map (option_map string_bytes) o ≡ told_limit (view value.now)) }
{
    if value.get("unknown-predicate").is_some() {
        return Ok(Some(None));
    }
    match limit_at(alloc, value)? {
        Some(name) => Ok(Some(Some(name))),
        None => Ok(None),
    }
}
