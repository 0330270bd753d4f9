ghost use Rattle.std.specs.Prelude.{◌≡◌, Option, Some, None, List, option_map, option_and_then, IfOk, IfErr, codes, string_bytes, map};
ghost use Rattle.serde_json.specs.Data.{array};
ghost use Rattle.serde_json.specs.Find.{get};
ghost use Rattle.serde_json.specs.View.{view, items_view};
ghost use Rattle.kp_rpc.specs.Request.{bound_of};
ghost use Rattle.kp_rpc.specs.View.{texts_view, options_view};
ghost use Rattle.kp_rpc.specs.Readings.{read_number, read_text, read_texts, read_items, read_options, read_object};
ghost use Rattle.kp_rpc.specs.declared.params.ParamsError.TheVariants.{OtherKind};

use serde_json::Value;
use std::alloc::{AllocError, AllocFailed, Global};

/// What a request of execute says beside its state.
#[derive(Drop)]
pub struct ExecuteOptions {
    pub max_depth: Option<u64>,
    pub module_name: Option<String>,
    pub cut_points: Vec<String>,
    pub terminals: Vec<String>,
}

/// The most steps of a run.
pub const MOST_STEPS: u64 = 10_000;

/// How many steps a run may take at most: `max-depth`, but no more than 10,000, which also holds where there is none.
pub fn bound_of(options: &ExecuteOptions) -> u64
    ensures { result ≡ bound_of (options_view options.now) }
{
    match options.max_depth {
        Some(depth) => depth.min(MOST_STEPS),
        None => MOST_STEPS,
    }
}

/// Why params aren't read.
#[derive(Clone, Copy, Drop)]
pub enum ParamsError {
    Memory,
    OtherKind,
}

impl From<AllocError> for ParamsError {
    ghost use Rattle.std.specs.Prelude.{◌≡◌};
    ghost use Rattle.kp_rpc.specs.declared.params.ParamsError.TheVariants.{Memory};

    ghost from_gives = { λ _ e. e ≡ Memory };

    fn from(_error: AllocError) -> Self {
        ParamsError::Memory
    }
}

impl<T: Drop> From<AllocFailed<T>> for ParamsError {
    ghost use Rattle.std.specs.Prelude.{◌≡◌};
    ghost use Rattle.kp_rpc.specs.declared.params.ParamsError.TheVariants.{Memory};

    ghost from_gives = { λ _ e. e ≡ Memory };

    fn from(_error: AllocFailed<T>) -> Self {
        ParamsError::Memory
    }
}

/// An optional whole number from 0: absent and null are none.
fn number_at(params: &Value, key: &str) -> Option<Option<u64>>
    ensures { result ≡ read_number (get key.now (view params.now)) }
{
    match params.get(key) {
        None => Some(None),
        Some(Value::Null) => Some(None),
        Some(member) => match member.as_u64() {
            Some(n) => Some(Some(n)),
            None => None,
        },
    }
}

/// An optional text: absent and null are none.
pub fn text_at<'a>(params: &'a Value, key: &str) -> Option<Option<&'a str>>
    ensures { option_map (option_map (λ t. t.now)) result ≡ read_text (get key.now (view params.now)) }
{
    match params.get(key) {
        None => Some(None),
        Some(Value::Null) => Some(None),
        Some(member) => match member.as_str() {
            Some(text) => Some(Some(text)),
            None => None,
        },
    }
}

/// The texts of a list of texts.
fn texts_of(alloc: Global, members: &[Value]) -> Result<Option<Vec<String>>, AllocError>
    ensures { IfOk result (λ o. option_map (λ v. texts_view v.items) o ≡ read_items (items_view members.now)) }
{
    let mut texts = Vec::new(alloc);
    for member in members {
        match member.as_str() {
            Some(text) => match texts.push(String::from_str(alloc, text)?) {
                Ok(()) => {}
                Err(_) => return Err(AllocError),
            },
            None => return Ok(None),
        }
    }
    Ok(Some(texts))
}

/// An optional list of texts: absent and null are the empty list.
fn texts_at(alloc: Global, params: &Value, key: &str) -> Result<Option<Vec<String>>, AllocError>
    ensures { IfOk result (λ o. option_map (λ v. texts_view v.items) o ≡ read_texts (get key.now (view params.now))) }
{
    match params.get(key) {
        None => Ok(Some(Vec::new(alloc))),
        Some(Value::Null) => Ok(Some(Vec::new(alloc))),
        Some(member) => match member.as_array() {
            Some(members) => texts_of(alloc, members),
            None => Ok(None),
        },
    }
}

/// The params of execute, but for its state.
///
/// # Errors
/// `OtherKind` where a member is of another kind; `Memory`.
pub fn options_of(alloc: Global, params: &Value) -> Result<ExecuteOptions, ParamsError>
    ensures found { IfOk result (λ o. read_options (view params.now) ≡ Some (options_view o)) }
    ensures only { IfErr result (λ e. e ≡ OtherKind → read_options (view params.now) ≡ None) }
{
    let Some(max_depth) = number_at(params, "max-depth") else {
        return Err(ParamsError::OtherKind);
    };
    let Some(name) = text_at(params, "module") else {
        return Err(ParamsError::OtherKind);
    };
    let module_name = match name {
        Some(text) => Some(String::from_str(alloc, text)?),
        None => None,
    };
    let Some(cut_points) = texts_at(alloc, params, "cut-point-rules")? else {
        return Err(ParamsError::OtherKind);
    };
    let Some(terminals) = texts_at(alloc, params, "terminal-rules")? else {
        return Err(ParamsError::OtherKind);
    };
    Ok(ExecuteOptions {
        max_depth,
        module_name,
        cut_points,
        terminals,
    })
}

/// A member that is an object.
pub fn object_at<'a>(value: &'a Value, key: &str) -> Option<&'a Value>
    ensures { option_map (λ v. view v.now) result ≡ read_object key.now (view value.now) }
{
    match value.get(key) {
        Some(member) => if member.is_object() {
            Some(member)
        } else {
            None
        },
        None => None,
    }
}
