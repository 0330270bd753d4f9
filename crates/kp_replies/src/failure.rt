ghost use Rattle.std.specs.Prelude.{◌≡◌, ◌∷◌, [], IfOk, option_map, codes, false};
ghost use Rattle.serde_json.specs.Data.{number, string, unsigned};
ghost use Rattle.serde_json.specs.View.{view, members_view};
ghost use Rattle.serde_json.specs.Written.{has_float};
ghost use Rattle.kp_kore.specs.View.{view as pattern_view};
ghost use Rattle.kp_json.specs.Members.{object_of};
ghost use Rattle.kp_rpc.specs.Reply.{reply_bytes};
ghost use Rattle.kp_rpc.specs.View.{id_view};
ghost use Rattle.kp_results.specs.Results.{weighed, wide_call, predicate as undecided_predicate};
ghost use Rattle.kp_results.specs.View.{weight_view, limit_view, undecided_view};
ghost use Rattle.kp_replies.specs.Failures.{bad_text, sides_data, weight_name, limit_tree, with_limit, undecided_data, addition_data, failure_data, failure_code, failure_message, failure_error, failed_reply, failure_reply};
ghost use Rattle.kp_replies.specs.View.{sides_view, addition_view, failure_view};

use crate::members::{empty_object, object_value, with_pattern_at};
use kp_kore::Pattern;
use kp_results::{Limit, Undecided, Weight};
use kp_rpc::{Id, Object, id_value, kind_value, line_of, named_value, with_member_at};
use serde_json::{Value, json};
use std::alloc::{AllocError, Global};

/// What is wrong with the sides of an implication.
#[derive(Drop)]
pub enum SidesFault {
    /// I1: a bound variable that is in no term position.
    NotInATerm { name: String },
    /// I2: a side without one term, or sides of two sorts.
    NotOneTerm,
    /// I3: a free variable of two sorts, or with the name of a bound one.
    TwoMeanings { name: String },
}

/// What is wrong with a text to add as a module.
#[derive(Drop)]
pub enum AdditionFault {
    /// The place and the kind of the token at which the text is no module.
    BadText { at: u64, kind: u64 },
    /// M1: an import that isn't found.
    UnknownImport { name: String },
    /// M6: an axiom, counted from 1, that doesn't fit the signature.
    BadAxiom { number: u64 },
    /// M7: a sentence, counted from 1, that no added module may have.
    BadSentence { number: u64 },
    /// M9: the book has no place for one more.
    FullBook,
}

/// Why a request that was read has no result.
#[derive(Drop)]
pub enum Failure {
    /// Code 4: no question of an implication.
    BadSides(SidesFault),
    /// Code 5: something wasn't decided.
    Undecided(Undecided),
    /// Code 8: no module that can be added.
    BadModule(AdditionFault),
    /// Code 9: the entry binds the name to another text; 0 is the definition.
    Duplicate { entry: u64, name: String },
}

/// The data of a fault of an implication's sides.
fn sides_value(alloc: Global, fault: &SidesFault) -> Result<Value, AllocError>
    ensures { IfOk result (λ v. view v ≡ sides_data (sides_view fault.now)) }
{
    match fault {
        SidesFault::NotInATerm { name } => named_value(alloc, "I1", name.as_str()),
        SidesFault::NotOneTerm => kind_value(alloc, "I2"),
        SidesFault::TwoMeanings { name } => named_value(alloc, "I3", name.as_str()),
    }
}

/// The name of a weight.
fn name_of(weight: Weight) -> &'static str
    ensures { result.now ≡ weight_name (weight_view weight) }
{
    match weight {
        Weight::Bits => "bits",
        Weight::Literals => "literals",
        Weight::Product => "product",
        Weight::Depth => "depth",
    }
}

/// The tree of a call whose value leaves signed 128 bits.
fn call_value(alloc: Global, first: &str, second: &str, symbol: &str) -> Result<Value, AllocError>
    ensures { IfOk result (λ v. view v ≡ limit_tree (wide_call first.now second.now symbol.now)) }
{
    json!(in alloc; {"first": first, "name": "number", "second": second, "symbol": symbol})
}

/// The tree of a weight and the number that it reached.
fn weight_value(alloc: Global, weight: Weight, number: u64) -> Result<Value, AllocError>
    ensures { IfOk result (λ v. view v ≡ limit_tree (weighed (weight_view weight) number)) }
{
    json!(in alloc; {"name": name_of(weight), "number": number})
}

/// The tree of a limit.
pub fn limit_value(alloc: Global, limit: &Limit) -> Result<Value, AllocError>
    ensures { IfOk result (λ v. view v ≡ limit_tree (limit_view limit.now)) }
{
    match limit {
        Limit::Weighed { weight, number } => weight_value(alloc, *weight, *number),
        Limit::Number {
            first,
            second,
            symbol,
        } => call_value(alloc, first.as_str(), second.as_str(), symbol.as_str()),
    }
}

/// The object with a limit, where there is one.
pub fn with_limit_at(
    alloc: Global,
    object: Object,
    limit: &Option<Limit>,
) -> Result<Object, AllocError>
    ensures { IfOk result (λ o. members_view o.entries ≡ with_limit (option_map limit_view limit.now) (members_view object.entries)) }
{
    match limit {
        Some(limit) => {
            let tree = limit_value(alloc, limit)?;
            with_member_at(alloc, object, "limit", tree)
        }
        None => Ok(object),
    }
}

/// The data of a predicate that wasn't decided; none where Kore JSON has no tag for a pattern in it.
fn predicate_value(
    alloc: Global,
    predicate: &Pattern,
    limit: &Option<Limit>,
) -> Result<Option<Value>, AllocError>
    ensures { IfOk result (λ o. option_map view o ≡ undecided_data (undecided_predicate (pattern_view predicate.now) (option_map limit_view limit.now))) }
{
    let object = with_limit_at(alloc, empty_object(alloc), limit)?;
    Ok(object_value(with_pattern_at(alloc, object, "unknown-predicate", predicate)?))
}

/// The data of a limit that was passed.
fn passed_value(alloc: Global, limit: &Limit) -> Result<Value, AllocError>
    ensures { IfOk result (λ v. view v ≡ object_of ((codes "limit", limit_tree (limit_view limit.now)) ∷ [])) }
{
    let tree = limit_value(alloc, limit)?;
    json!(in alloc; {"limit": tree})
}

/// The data of what wasn't decided.
fn undecided_value(alloc: Global, undecided: &Undecided) -> Result<Option<Value>, AllocError>
    ensures { IfOk result (λ o. option_map view o ≡ undecided_data (undecided_view undecided.now)) }
{
    match undecided {
        Undecided::Predicate { predicate, limit } => predicate_value(alloc, predicate, limit),
        Undecided::Limit { limit } => Ok(Some(passed_value(alloc, limit)?)),
    }
}

/// The data of a text that is no module.
fn text_value(alloc: Global, at: u64, kind: u64) -> Result<Value, AllocError>
    ensures { IfOk result (λ v. view v ≡ addition_data (bad_text at kind)) }
{
    json!(in alloc; {"at": at, "kind": "text", "number": kind})
}

/// The data of a module that can't be added.
fn addition_value(alloc: Global, fault: &AdditionFault) -> Result<Value, AllocError>
    ensures { IfOk result (λ v. view v ≡ addition_data (addition_view fault.now)) }
{
    match fault {
        AdditionFault::BadText { at, kind } => text_value(alloc, *at, *kind),
        AdditionFault::UnknownImport { name } => named_value(alloc, "M1", name.as_str()),
        AdditionFault::BadAxiom { number } => json!(in alloc; {"axiom": *number, "kind": "M6"}),
        AdditionFault::BadSentence { number } =>
            json!(in alloc; {"kind": "M7", "sentence": *number}),
        AdditionFault::FullBook => kind_value(alloc, "M9"),
    }
}

/// The data of a name that is bound to another text.
fn duplicate_value(alloc: Global, entry: u64, name: &str) -> Result<Value, AllocError>
    ensures { IfOk result (λ v. view v ≡ object_of ((codes "entry", number (unsigned entry)) ∷ (codes "name", string name.now) ∷ [])) }
{
    json!(in alloc; {"entry": entry, "name": name})
}

/// The data of a failure; none where Kore JSON has no tag for a pattern in it.
fn data_value(alloc: Global, failure: &Failure) -> Result<Option<Value>, AllocError>
    ensures { IfOk result (λ o. option_map view o ≡ failure_data (failure_view failure.now)) }
{
    match failure {
        Failure::BadSides(fault) => Ok(Some(sides_value(alloc, fault)?)),
        Failure::Undecided(undecided) => undecided_value(alloc, undecided),
        Failure::BadModule(fault) => Ok(Some(addition_value(alloc, fault)?)),
        Failure::Duplicate { entry, name } => Ok(Some(duplicate_value(
            alloc,
            *entry,
            name.as_str(),
        )?)),
    }
}

/// The code of a failure.
fn code_of(failure: &Failure) -> u64
    ensures { result ≡ failure_code (failure_view failure.now) }
{
    match failure {
        Failure::BadSides(_) => 4,
        Failure::Undecided(_) => 5,
        Failure::BadModule(_) => 8,
        Failure::Duplicate { entry: _, name: _ } => 9,
    }
}

/// The message of a failure.
fn message_of(failure: &Failure) -> &'static str
    ensures { result.now ≡ failure_message (failure_view failure.now) }
{
    match failure {
        Failure::BadSides(_) => "Implication check error",
        Failure::Undecided(_) => "Undecided",
        Failure::BadModule(_) => "Invalid module",
        Failure::Duplicate { entry: _, name: _ } => "Duplicate module",
    }
}

/// The tree of a failure's error, from its data.
fn error_value(alloc: Global, failure: &Failure, details: Value) -> Result<Value, AllocError>
    ensures { IfOk result (λ v. view v ≡ failure_error (failure_view failure.now) (view details)) }
{
    json!(in alloc; {"code": code_of(failure), "data": details, "message": message_of(failure)})
}

/// The tree of the reply with an error.
fn failed_value(alloc: Global, id: &Id, error: Value) -> Result<Value, AllocError>
    ensures { IfOk result (λ v. view v ≡ failed_reply (id_view id.now) (view error)) }
{
    let id_member = id_value(id)?;
    json!(in alloc; {"error": error, "id": id_member, "jsonrpc": "2.0"})
}

/// The bytes of the reply with an error.
fn error_line(alloc: Global, id: &Id, error: Value) -> Result<Vec<u8>, AllocError>
    ensures { IfOk result (λ b. has_float (view error) ≡ false → b.items ≡ reply_bytes (failed_reply (id_view id.now) (view error))) }
{
    let tree = failed_value(alloc, id, error)?;
    line_of(alloc, &tree)
}

/// The bytes of the reply with a failure, from its data.
fn detailed_line(
    alloc: Global,
    id: &Id,
    failure: &Failure,
    details: Value,
) -> Result<Vec<u8>, AllocError>
    ensures { let details' = view details in IfOk result (λ b. has_float details' ≡ false → b.items ≡ reply_bytes (failed_reply (id_view id.now) (failure_error (failure_view failure.now) details'))) }
{
    let error = error_value(alloc, failure, details)?;
    error_line(alloc, id, error)
}

/// The bytes of the reply to a request that has no result: code 4, 5, 8 or 9 with its data, in one line. None where Kore
/// JSON has no tag for a pattern in it.
/// Source: JSON-RPC 2.0 (error objects); the K Haskell backend's JSON-RPC documentation (error codes).
///
/// # Errors
/// Where memory runs out.
pub fn failure_text(
    alloc: Global,
    id: &Id,
    failure: &Failure,
) -> Result<Option<Vec<u8>>, AllocError>
    ensures { IfOk result (λ o. option_map (λ b. b.items) o ≡ option_map reply_bytes (failure_reply (id_view id.now) (failure_view failure.now))) }
{
    match data_value(alloc, failure)? {
        Some(details) => Ok(Some(detailed_line(alloc, id, failure, details)?)),
        None => Ok(None),
    }
}
