ghost use Rattle.std.specs.Prelude.{◌≡◌, option_map, option_and_then, IfOk, string_bytes};
ghost use Rattle.serde_json.specs.Find.{get};
ghost use Rattle.serde_json.specs.View.{view};
ghost use Rattle.kp_json.specs.Faults.{wrapped_reading};
ghost use Rattle.kp_requests.specs.Requests.{implies, simplify};
ghost use Rattle.kp_requests.specs.Calls.{read_flag, read_execute, read_implies, read_simplify, read_add_module};
ghost use Rattle.kp_requests.specs.View.{reading_view, request_view};

use crate::request::{Reading, Request};
use kp_json::JsonError;
use kp_rpc::{ParamsError, member_text, object_at, options_of, text_at};
use serde_json::Value;
use std::alloc::{AllocError, Global};

/// What is read of a pattern's tree.
fn reading_of(alloc: Global, tree: &Value) -> Result<Reading, AllocError>
    ensures { IfOk result (λ r. reading_view r ≡ wrapped_reading (view tree.now)) }
{
    match kp_json::pattern_of(alloc, tree) {
        Ok(pattern) => Ok(Reading::Pattern(pattern)),
        Err(JsonError::Fault(fault)) => Ok(Reading::Fault(fault)),
        Err(JsonError::Memory) => Err(AllocError),
    }
}

/// An optional truth value: absent and null are false.
fn flag_at(params: &Value, key: &str) -> Option<bool>
    ensures { result ≡ read_flag (get key.now (view params.now)) }
{
    match params.get(key) {
        None => Some(false),
        Some(Value::Null) => Some(false),
        Some(member) => member.as_bool(),
    }
}

/// A copy of a text, where there is one.
fn copied(alloc: Global, text: Option<&str>) -> Result<Option<String>, AllocError>
    ensures { IfOk result (λ o. option_map string_bytes o ≡ option_map (λ t. t.now) text.entry) }
{
    match text {
        Some(text) => Ok(Some(String::from_str(alloc, text)?)),
        None => Ok(None),
    }
}

/// What execute is asked by these params; none where they aren't its own.
pub fn execute_of(alloc: Global, params: Option<&Value>) -> Result<Option<Request>, AllocError>
    ensures { IfOk result (λ o. option_map request_view o ≡ option_and_then read_execute (option_map (λ v. view v.now) params.entry)) }
{
    let Some(params) = params else {
        return Ok(None);
    };
    let Some(tree) = object_at(params, "state") else {
        return Ok(None);
    };
    match options_of(alloc, params) {
        Ok(options) => Ok(Some(Request::Execute {
            state: reading_of(alloc, tree)?,
            options,
        })),
        Err(ParamsError::OtherKind) => Ok(None),
        Err(ParamsError::Memory) => Err(AllocError),
    }
}

/// The implication of two trees, in a module of this name.
fn implication_of(
    alloc: Global,
    antecedent: &Value,
    consequent: &Value,
    name: Option<&str>,
) -> Result<Request, AllocError>
    ensures { IfOk result (λ r. request_view r ≡ implies (wrapped_reading (view antecedent.now)) (wrapped_reading (view consequent.now)) (option_map (λ t. t.now) name.entry)) }
{
    let module_name = copied(alloc, name)?;
    let antecedent = reading_of(alloc, antecedent)?;
    let consequent = reading_of(alloc, consequent)?;
    Ok(Request::Implies {
        antecedent,
        consequent,
        module_name,
    })
}

/// What implies is asked by these params; none where they aren't its own.
pub fn implies_of(alloc: Global, params: Option<&Value>) -> Result<Option<Request>, AllocError>
    ensures { IfOk result (λ o. option_map request_view o ≡ option_and_then read_implies (option_map (λ v. view v.now) params.entry)) }
{
    let Some(params) = params else {
        return Ok(None);
    };
    let Some(antecedent) = object_at(params, "antecedent") else {
        return Ok(None);
    };
    let Some(consequent) = object_at(params, "consequent") else {
        return Ok(None);
    };
    let Some(name) = text_at(params, "module") else {
        return Ok(None);
    };
    Ok(Some(implication_of(alloc, antecedent, consequent, name)?))
}

/// The state of a tree to simplify, in a module of this name.
fn simplified_of(alloc: Global, tree: &Value, name: Option<&str>) -> Result<Request, AllocError>
    ensures { IfOk result (λ r. request_view r ≡ simplify (wrapped_reading (view tree.now)) (option_map (λ t. t.now) name.entry)) }
{
    let module_name = copied(alloc, name)?;
    let state = reading_of(alloc, tree)?;
    Ok(Request::Simplify { state, module_name })
}

/// What simplify is asked by these params; none where they aren't its own.
pub fn simplify_of(alloc: Global, params: Option<&Value>) -> Result<Option<Request>, AllocError>
    ensures { IfOk result (λ o. option_map request_view o ≡ option_and_then read_simplify (option_map (λ v. view v.now) params.entry)) }
{
    let Some(params) = params else {
        return Ok(None);
    };
    let Some(tree) = object_at(params, "state") else {
        return Ok(None);
    };
    let Some(name) = text_at(params, "module") else {
        return Ok(None);
    };
    Ok(Some(simplified_of(alloc, tree, name)?))
}

/// What add-module is asked by these params; none where they aren't its own.
pub fn add_module_of(alloc: Global, params: Option<&Value>) -> Result<Option<Request>, AllocError>
    ensures { IfOk result (λ o. option_map request_view o ≡ option_and_then read_add_module (option_map (λ v. view v.now) params.entry)) }
{
    let Some(params) = params else {
        return Ok(None);
    };
    let Some(text) = member_text(params, "module") else {
        return Ok(None);
    };
    let Some(name_as_id) = flag_at(params, "name-as-id") else {
        return Ok(None);
    };
    Ok(Some(Request::AddModule {
        text: String::from_str(alloc, text)?,
        name_as_id,
    }))
}
