ghost use Rattle.std.specs.Prelude.{◌≡◌, IfOk, ◌∷◌, [], codes};
ghost use Rattle.serde_json.specs.Data.{number, string, unsigned};
ghost use Rattle.serde_json.specs.View.{view};
ghost use Rattle.kp_json.specs.Members.{object_of};
ghost use Rattle.kp_json.specs.View.{fault_view};
ghost use Rattle.kp_kore.specs.View.{sort_view};
ghost use Rattle.kp_signature.specs.Verify.{sort_differs, sort_text};
ghost use Rattle.kp_rpc.specs.Reply.{kind_only, kind_and_name, tree_fault_data, verify_fault_data, pattern_data, error_tree, error_reply, reply_bytes};
ghost use Rattle.kp_rpc.specs.View.{id_view, verify_error_view, pattern_fault_view, state_fault_view, IsTold, IsToldOfState};
ghost use Rattle.kp_signature.specs.declared.error.VerifyError.TheVariants as verify;

use crate::id::{Id, id_value};
use crate::reply::line_of;
use kp_json::JsonFault;
use kp_kore::Sort;
use kp_signature::{VerifyError, sort_text};
use serde_json::{Value, json};
use std::alloc::{AllocError, Global};

/// Why a pattern has no place in a request.
#[derive(Drop)]
pub enum PatternFault {
    /// V1 to V7: its first verify fault. Want of memory is no fault, and no reply tells it.
    Unverified(VerifyError),
    /// T1: a symbol whose meaning isn't known here.
    ForeignSymbol { name: String },
    /// T2: a pattern of a shape that isn't executed.
    OtherShape,
}

/// What is wrong with the state of a request, or with the module that it names.
#[derive(Drop)]
pub enum StateFault {
    /// Code 1: the tree spells no pattern.
    Json(JsonFault),
    /// Code 2: the pattern doesn't fit the signature.
    Verify(PatternFault),
    /// Code 3: no module has this name.
    NoModule { name: String },
}

/// The data of a fault that has a kind alone.
pub fn kind_value(alloc: Global, kind: &str) -> Result<Value, AllocError>
    ensures { IfOk result (λ v. view v ≡ kind_only kind.now) }
{
    json!(in alloc; {"kind": kind})
}

/// The data of a fault that has a kind and a name.
pub fn named_value(alloc: Global, kind: &str, name: &str) -> Result<Value, AllocError>
    ensures { IfOk result (λ v. view v ≡ kind_and_name kind.now name.now) }
{
    json!(in alloc; {"kind": kind, "name": name})
}

/// The data of a tree's fault.
fn json_value(alloc: Global, fault: &JsonFault) -> Result<Value, AllocError>
    ensures { IfOk result (λ v. view v ≡ tree_fault_data (fault_view fault.now)) }
{
    match fault {
        JsonFault::NoTag { name } => named_value(alloc, "J1", name.as_str()),
        JsonFault::Missing { name } => named_value(alloc, "J2", name.as_str()),
        JsonFault::OtherKind { name } => named_value(alloc, "J3", name.as_str()),
        JsonFault::OtherFormat { name } => named_value(alloc, "J4", name.as_str()),
        JsonFault::TooDeep => kind_value(alloc, "J5"),
    }
}

/// The data of a fault that names a sort.
fn named_sort(alloc: Global, kind: &str, sort: &Sort) -> Result<Value, AllocError>
    ensures { IfOk result (λ v. view v ≡ kind_and_name kind.now (sort_text (sort_view sort.now))) }
{
    let text = sort_text(alloc, sort)?;
    named_value(alloc, kind, text.as_str())
}

/// The data of a verify fault; none where memory ran out.
fn verify_value(alloc: Global, error: &VerifyError) -> Result<Value, AllocError>
    ensures data { IfOk result (λ v. view v ≡ pattern_data (verify_error_view error.now)) }
    ensures told { IfOk result (λ _. ¬ (error.now ≡ verify.Memory)) }
{
    match error {
        VerifyError::Memory => Err(AllocError),
        VerifyError::UnknownSort { sort } => named_sort(alloc, "V1", sort),
        VerifyError::UnknownSymbol { name } => named_value(alloc, "V2", name.as_str()),
        VerifyError::WrongNumber { name } => named_value(alloc, "V3", name.as_str()),
        VerifyError::SortDiffers { expected, found } => differing_sorts(alloc, expected, found),
        VerifyError::NumberTooWide { text } => named_value(alloc, "V5", text.as_str()),
        VerifyError::TermTooDeep => kind_value(alloc, "V6"),
        VerifyError::NoLiteral { text } => named_value(alloc, "V7", text.as_str()),
    }
}

/// The data of a pattern's fault.
fn pattern_value(alloc: Global, fault: &PatternFault) -> Result<Value, AllocError>
    ensures data { IfOk result (λ v. view v ≡ pattern_data (pattern_fault_view fault.now)) }
    ensures told { IfOk result (λ _. IsTold fault.now) }
{
    match fault {
        PatternFault::Unverified(error) => verify_value(alloc, error),
        PatternFault::ForeignSymbol { name } => named_value(alloc, "T1", name.as_str()),
        PatternFault::OtherShape => kind_value(alloc, "T2"),
    }
}

/// The data of two sorts that differ.
fn differing_sorts(alloc: Global, expected: &Sort, found: &Sort) -> Result<Value, AllocError>
    ensures { IfOk result (λ v. view v ≡ verify_fault_data (sort_differs (sort_view expected.now) (sort_view found.now))) }
{
    let wanted = sort_text(alloc, expected)?;
    let other = sort_text(alloc, found)?;
    differing_value(alloc, wanted.as_str(), other.as_str())
}

/// The data of two texts of sorts that differ.
fn differing_value(alloc: Global, expected: &str, found: &str) -> Result<Value, AllocError>
    ensures { IfOk result (λ v. view v ≡ object_of ((codes "expected", string expected.now)
        ∷ (codes "found", string found.now) ∷ (codes "kind", string (codes "V4")) ∷ [])) }
{
    json!(in alloc; {"expected": expected, "found": found, "kind": "V4"})
}

/// The tree of an error that has data.
fn detailed_value(
    alloc: Global,
    code: u64,
    message: &str,
    details: Value,
) -> Result<Value, AllocError>
    ensures { IfOk result (λ v. view v ≡ object_of ((codes "code", number (unsigned code))
        ∷ (codes "data", view details) ∷ (codes "message", string message.now) ∷ [])) }
{
    json!(in alloc; {"code": code, "data": details, "message": message})
}

/// The tree of the error that a fault is answered with.
fn fault_value(alloc: Global, fault: &StateFault) -> Result<Value, AllocError>
    ensures tree { IfOk result (λ v. view v ≡ error_tree (state_fault_view fault.now)) }
    ensures told { IfOk result (λ _. IsToldOfState fault.now) }
{
    match fault {
        StateFault::Json(fault) => {
            let details = json_value(alloc, fault)?;
            detailed_value(alloc, 1, "Could not parse pattern", details)
        }
        StateFault::Verify(fault) => {
            let details = pattern_value(alloc, fault)?;
            detailed_value(alloc, 2, "Could not verify pattern", details)
        }
        StateFault::NoModule { name } => {
            let details = json!(in alloc; {"name": name.as_str()})?;
            detailed_value(alloc, 3, "Could not find module", details)
        }
    }
}

/// The tree of the reply to a request whose state or module is at fault.
fn fault_reply(alloc: Global, id: &Id, fault: &StateFault) -> Result<Value, AllocError>
    ensures tree { IfOk result (λ v. view v ≡ error_reply (id_view id.now) (state_fault_view fault.now)) }
    ensures told { IfOk result (λ _. IsToldOfState fault.now) }
{
    let error = fault_value(alloc, fault)?;
    let id_member = id_value(id)?;
    json!(in alloc; {"error": error, "id": id_member, "jsonrpc": "2.0"})
}

/// The bytes of the reply to a request whose state, or the module that it names, is at fault: code 1, 2 or 3 with
/// the fault's data, in one line. Want of memory among the errors of `verify` is no fault, and isn't told.
pub fn fault_text(alloc: Global, id: &Id, fault: &StateFault) -> Result<Vec<u8>, AllocError>
    ensures reply { IfOk result (λ b. b.items ≡ reply_bytes (error_reply (id_view id.now) (state_fault_view fault.now))) }
    ensures told { IfOk result (λ _. IsToldOfState fault.now) }
{
    let tree = fault_reply(alloc, id, fault)?;
    line_of(alloc, &tree)
}
