// The line of a reply to simplify.
ghost use Rattle.std.specs.Prelude.{◌≡◌, false, None, IfOk};
ghost use Rattle.std.specs.Option.{IsSome};
ghost use Rattle.kp_clauses.specs.Faults.{state_fault};
ghost use Rattle.kp_heads.specs.Made.{IsHeadTableOf};
ghost use Rattle.kp_json.specs.Faults as faults;
ghost use Rattle.kp_kore.specs.Signature.{KoreSignature};
ghost use Rattle.kp_kore.specs.Syntax.{KorePattern, bottom};
ghost use Rattle.kp_kore.specs.View.{view, sort_view};
ghost use Rattle.kp_replies.specs.Failures.{undecided};
ghost use Rattle.kp_replies.specs.View.{failure_view};
ghost use Rattle.kp_requests.specs.View.{reading_view};
ghost use Rattle.kp_rpc.specs.View.{id_view};
ghost use Rattle.kp_kore.specs.Implied as theory;
ghost use Rattle.kp_methods.specs.Ends.{TellsFault};
ghost use Rattle.kp_signature.specs.Faults.{fault_view};
ghost use Rattle.kp_signature.specs.Verify.{VerifiesAs};
ghost use Rattle.kp_simplify.specs.Spelled.{parts_of_cause};
ghost use Rattle.kp_simplify.specs.Told.{IsFound, IsUnsimplified, LacksInjection, TellsNoInjection};
ghost use Rattle.kp_symbolic.specs.Endings.{answered, what_is_undecided};
ghost use Rattle.kp_symbolic.specs.Shown as shown;
ghost use Rattle.kp_symbolic.specs.Languages.{language_view};
ghost use Rattle.kp_methods.specs.Simplified.{IsFaultTold, IsReplyLine, IsRightAnswer, IsSimplifiedAs, IsUnderstoodAs, pattern_of};
ghost use Rattle.kp_methods.specs.Prepared.{IsPrepared, signature_in};

use crate::prepared::Prepared;
use crate::{PatternFailure, not_answered, verify_failure};
use kp_heads::HeadTable;
use kp_kore::{Pattern, Sort};
use kp_replies::{Failure as ReplyFailure, failure_text, simplified_text};
use kp_requests::Reading;
use kp_rpc::{Id, PatternFault, StateFault, fault_text};
use kp_signature::{VerifyError, verify};
use kp_simplify::{Simplified, SimplifyError, simplify};
use kp_symbolic::Language;
use std::alloc::{AllocError, Global};

/// The reply to a request of simplify over this signature.
/// Source: the K Haskell backend's JSON-RPC documentation (simplify).
///
/// # Errors
/// Where memory runs out.
pub fn simplified_line(
    alloc: Global,
    prepared: &Prepared,
    id: &Id,
    state: Reading,
) -> Result<Vec<u8>, AllocError>
    requires { IsPrepared prepared.now }
    ensures { IfOk result (λ line. IsReplyLine (IsSimplifiedAs (signature_in prepared.now) (id_view id.now) (reading_view state)) line.items) }
{
    match state {
        Reading::Pattern(pattern) => pattern_line(alloc, prepared, id, &pattern),
        Reading::Fault(fault) => fault_text(alloc, id, &StateFault::Json(fault)),
    }
}

/// The same of a pattern that was read.
fn pattern_line(
    alloc: Global,
    prepared: &Prepared,
    id: &Id,
    pattern: &Pattern,
) -> Result<Vec<u8>, AllocError>
    requires { IsPrepared prepared.now }
    ensures { IfOk result (λ line. IsReplyLine (IsSimplifiedAs (signature_in prepared.now) (id_view id.now) (faults.read (view pattern.now))) line.items) }
{
    match verify(alloc, &prepared.signature, pattern) {
        Ok(sort) => verified_line(alloc, prepared, id, pattern, &sort),
        Err(error) => unverified_line(alloc, id, error),
    }
}

/// Whether verify ran out of memory.
fn is_memory(error: &VerifyError) -> bool
    ensures { result ≡ false → IsSome (fault_view error.now) }
{
    match error {
        VerifyError::Memory => true,
        _ => false,
    }
}

/// The line that tells a verify fault.
///
/// # Errors
/// Where memory runs out, or ran out in verify.
pub fn unverified_line(alloc: Global, id: &Id, error: VerifyError) -> Result<Vec<u8>, AllocError>
    ensures { (g : KoreSignature) (p : KorePattern) → TellsFault g p error → IfOk result (λ line. IsReplyLine (IsFaultTold g (id_view id.now) p) line.items) }
{
    if is_memory(&error) {
        return Err(AllocError);
    }
    match verify_failure(error) {
        PatternFailure::Fault(fault) => fault_text(alloc, id, &fault),
        PatternFailure::Memory => Err(AllocError),
    }
}

/// The line that replies to a pattern that verifies.
fn verified_line(
    alloc: Global,
    prepared: &Prepared,
    id: &Id,
    pattern: &Pattern,
    sort: &Sort,
) -> Result<Vec<u8>, AllocError>
    requires { IsPrepared prepared.now }
    ensures { let g = signature_in prepared.now in let p = view pattern.now in VerifiesAs g p (sort_view sort.now) → IfOk result (λ line. IsReplyLine (IsUnderstoodAs g (id_view id.now) p) line.items) }
{
    let language = prepared.language()?;
    understood_line(alloc, &language, &prepared.heads, id, pattern, sort)
}

/// The same over the table of the signature's heads.
fn understood_line(
    alloc: Global,
    language: &Language,
    table: &HeadTable,
    id: &Id,
    pattern: &Pattern,
    sort: &Sort,
) -> Result<Vec<u8>, AllocError>
    requires { IsHeadTableOf (language_view language.now) table.now }
    ensures { let g = language_view language.now in let p = view pattern.now in VerifiesAs g p (sort_view sort.now) → IfOk result (λ line. IsReplyLine (IsUnderstoodAs g (id_view id.now) p) line.items) }
{
    let own = sort.copy(alloc)?;
    match simplify(alloc, language, table, pattern, own) {
        Ok(found) => found_line(alloc, id, sort, found),
        Err(error) => unsimplified_line(alloc, id, error),
    }
}

/// The line of what simplify found of a pattern of this sort.
fn found_line(alloc: Global, id: &Id, sort: &Sort, found: Simplified) -> Result<Vec<u8>, AllocError>
    ensures { (g : KoreSignature) (p : KorePattern) → let is_right = IsUnderstoodAs g (id_view id.now) p in VerifiesAs g p (sort_view sort.now) → state_fault g p ≡ None → IsFound g p found → IfOk result (λ line. IsReplyLine is_right line.items) }
{
    match found {
        Simplified::State { pattern } => state_line(alloc, id, &pattern),
        Simplified::Nothing => nothing_line(alloc, id, sort),
        Simplified::UndecidedStep { undecided } => {
            undecided_line(alloc, id, &ReplyFailure::Undecided(undecided))
        }
    }
}

/// `\bottom` of a sort.
fn bottom_at(sort: Sort) -> Pattern
    ensures { view result ≡ bottom (sort_view sort) }
{
    Pattern::Bottom { sort }
}

/// The line of a state that has no instance.
fn nothing_line(alloc: Global, id: &Id, sort: &Sort) -> Result<Vec<u8>, AllocError>
    ensures { (g : KoreSignature) (p : KorePattern) → let is_right = IsUnderstoodAs g (id_view id.now) p in IsRightAnswer g p (answered (theory.nothing (sort_view sort.now))) → IfOk result (λ line. IsReplyLine is_right line.items) }
{
    let sort = sort.copy(alloc)?;
    state_line(alloc, id, &bottom_at(sort))
}

/// The line of a result. No state that is read leads to a pattern for which Kore JSON has no tag; where one did, want of memory is told.
fn state_line(alloc: Global, id: &Id, state: &Pattern) -> Result<Vec<u8>, AllocError>
    ensures { (g : KoreSignature) (p : KorePattern) (r : theory.Simplified) → let is_right = IsUnderstoodAs g (id_view id.now) p in IsRightAnswer g p (answered r) → pattern_of r ≡ view state.now → IfOk result (λ line. IsReplyLine is_right line.items) }
{
    match simplified_text(alloc, id, state)? {
        Some(line) => Ok(line),
        None => Err(AllocError),
    }
}

/// The line of code 5. Where Kore JSON had no tag for a pattern in it, want of memory is told.
fn undecided_line(alloc: Global, id: &Id, cause: &ReplyFailure) -> Result<Vec<u8>, AllocError>
    ensures { (g : KoreSignature) (p : KorePattern) (u : shown.Undecided) → let is_right = IsUnderstoodAs g (id_view id.now) p in IsRightAnswer g p (what_is_undecided u) → failure_view cause.now ≡ undecided (parts_of_cause u) → IfOk result (λ line. IsReplyLine is_right line.items) }
{
    match failure_text(alloc, id, cause)? {
        Some(line) => Ok(line),
        None => Err(AllocError),
    }
}

/// The line that tells why a pattern isn't simplified.
fn unsimplified_line(alloc: Global, id: &Id, error: SimplifyError) -> Result<Vec<u8>, AllocError>
    ensures { (g : KoreSignature) (p : KorePattern) → let is_right = IsUnderstoodAs g (id_view id.now) p in IsUnsimplified g p error → (TellsNoInjection error → LacksInjection g p) → IfOk result (λ line. IsReplyLine is_right line.items) }
{
    match error {
        SimplifyError::Memory => Err(AllocError),
        SimplifyError::ForeignSymbol { name } => fault_text(
            alloc,
            id,
            &StateFault::Verify(PatternFault::ForeignSymbol { name }),
        ),
        SimplifyError::OtherShape => fault_text(alloc, id, &not_answered()),
        SimplifyError::NoInjection => fault_text(alloc, id, &not_answered()),
    }
}
