ghost use Rattle.std.specs.Prelude.{◌≡◌, IfOk, IfErr};
ghost use Rattle.serde_json.specs.View.{view as data_view, number_view, members_view};
ghost use Rattle.kp_kore.specs.View.{view};
ghost use Rattle.kp_json.specs.Faults.{read, whole_in, wrapped_term, wrapped_object, wrapped_reading};
ghost use Rattle.kp_json.specs.View.{Tells, TellsThatNone};
ghost use Rattle.kp_json.specs.Trees.{SpellsWrapped};

use crate::fault::{JsonError, missing, other_format, other_kind};
use crate::member::{Object, member, text, tree};
use crate::pattern::pattern_at;
use kp_kore::Pattern;
use serde_json::{Number, Value};
use std::alloc::Global;

/// So deep may patterns nest.
const MOST_PATTERNS: usize = 100;

/// The pattern that a wrapper `{"format":"KORE","version":1,"term":T}` spells.
/// Source: the K framework's Kore JSON, version 1.
///
/// # Errors
/// `Memory`, or the first fault: of the wrapper first, then of the term from the top down.
pub fn pattern_of(alloc: Global, tree: &Value) -> Result<Pattern, JsonError>
    ensures found { IfOk result (λ p. SpellsWrapped (data_view tree.now) (view p)) }
    ensures fault { IfErr result (λ e. Tells e (wrapped_reading (data_view tree.now))) }
    ensures none { IfErr result (λ e. TellsThatNone e (data_view tree.now)) }
{
    read_wrapped(alloc, tree)
}

/// What is read of a wrapper.
fn read_wrapped(alloc: Global, tree: &Value) -> Result<Pattern, JsonError>
    ensures found { IfOk result (λ p. wrapped_reading (data_view tree.now) ≡ read (view p)) }
    ensures fault { IfErr result (λ e. Tells e (wrapped_reading (data_view tree.now))) }
{
    let object = wrapper(alloc, tree)?;
    let term = term(alloc, object)?;
    pattern_at(alloc, MOST_PATTERNS, term)
}

/// What is no object has no format either.
fn wrapper<'a>(alloc: Global, tree: &'a Value) -> Result<&'a Object, JsonError>
    ensures found { IfOk result (λ o. wrapped_object (data_view tree.now) ≡ read (members_view o.now.entries)) }
    ensures fault { IfErr result (λ e. Tells e (wrapped_object (data_view tree.now))) }
{
    match tree.as_object() {
        Some(object) => Ok(object),
        None => Err(missing(alloc, "format")),
    }
}

/// The term of a wrapper of the right format and version.
fn term<'a>(alloc: Global, object: &'a Object) -> Result<&'a Object, JsonError>
    ensures found { IfOk result (λ o. wrapped_term (members_view object.now.entries) ≡ read (members_view o.now.entries)) }
    ensures fault { IfErr result (λ e. Tells e (wrapped_term (members_view object.now.entries))) }
{
    let format = member(alloc, object, "format")?;
    let version = member(alloc, object, "version")?;
    let term = member(alloc, object, "term")?;
    let format = text(alloc, "format", format)?;
    let version = whole(alloc, "version", version)?;
    let term = tree(alloc, "term", term)?;
    if format != "KORE" {
        Err(other_format(alloc, "format"))
    } else if version.as_u64() != Some(1) {
        Err(other_format(alloc, "version"))
    } else {
        Ok(term)
    }
}

/// The whole number that the member must be.
fn whole(alloc: Global, key: &str, value: &Value) -> Result<Number, JsonError>
    ensures found { IfOk result (λ n. whole_in key.now (data_view value.now) ≡ read (number_view n)) }
    ensures fault { IfErr result (λ e. Tells e (whole_in key.now (data_view value.now))) }
{
    match value.as_number() {
        Some(number) => {
            if number.is_f64() {
                Err(other_kind(alloc, key))
            } else {
                Ok(*number)
            }
        }
        None => Err(other_kind(alloc, key)),
    }
}
