// Implies over the signature of one module.
ghost use Rattle.std.specs.Prelude.{◌≡◌, IfErr, IfOk, OnOk};
ghost use Rattle.kp_kore.specs.Signature.{KoreSignature};
ghost use Rattle.kp_kore.specs.Syntax.{KorePattern, bottom, top};
ghost use Rattle.kp_kore.specs.Implied as theory;
ghost use Rattle.kp_kore.specs.View.{sort_view, view};
ghost use Rattle.kp_json.specs.Faults.{Reading as Side};
ghost use Rattle.kp_json.specs.Faults as faults;
ghost use Rattle.kp_symbolic.specs.Endings.{answered, what_is_undecided};
ghost use Rattle.kp_symbolic.specs.Shown as shown;
ghost use Rattle.kp_results.specs.View.{implied_view, undecided_view};
ghost use Rattle.kp_replies.specs.View.{failure_view};
ghost use Rattle.kp_replies.specs.Failures.{bad_sides as bad_sides_of};
ghost use Rattle.kp_simplify.specs.Spelled.{parts_of_cause};
ghost use Rattle.kp_signature.specs.Verify.{VerifiesAs};
ghost use Rattle.kp_signature.specs.View.{signature_view};
ghost use Rattle.kp_rpc.specs.View.{id_view, pattern_fault_view};
ghost use Rattle.kp_requests.specs.View.{reading_view};
ghost use Rattle.kp_sides.specs.Sides.{AreComparable};
ghost use Rattle.kp_sides.specs.View.{side_fault_view, sides_fault_view};
ghost use Rattle.kp_implies.specs.Told.{IsUnanswered};
ghost use Rattle.kp_methods.specs.Ends.{TellsFault};
ghost use Rattle.kp_methods.specs.Prepared.{IsPrepared, signature_in};
ghost use Rattle.kp_methods.specs.Simplified.{IsReplyLine};
ghost use Rattle.kp_methods.specs.Implied.{AreFaultless, IsFaultlessSide, IsImpliedAs, told_fault};
ghost use Rattle.kp_methods.specs.ImpliedLines.{AreChecked, IsAnswerOf, IsBothFailure, IsFaultLine, IsSideFailure, IsSidesFailure, IsSidesLine, IsToldOf, IsTreeFailure, refusal_of};

use crate::prepared::Prepared;
use crate::sides::ImpliesFailure;
use crate::{PatternFailure, not_answered};
use kp_implies::{Implication, ImpliesError, implies};
use kp_kore::{Pattern, Sort};
use kp_replies::{Failure as ReplyFailure, SidesFault, failure_text, implied_text};
use kp_requests::Reading;
use kp_results::{Implied, Undecided};
use kp_rpc::{Id, PatternFault, StateFault, fault_text};
use kp_sides::{ComparisonFault, SideFault, body_of, names_of, side_fault, sides_fault};
use kp_signature::{Signature, VerifyError, verify};
use kp_unify::Setting;
use std::alloc::{AllocError, Global};

/// The reply to a request of implies over this signature.
/// Source: the K Haskell backend's JSON-RPC documentation (implies).
///
/// # Errors
/// Where memory runs out.
pub fn implied_line(
    alloc: Global,
    prepared: &Prepared,
    id: &Id,
    antecedent: Reading,
    consequent: Reading,
) -> Result<Vec<u8>, AllocError>
    requires { IsPrepared prepared.now }
    ensures { IfOk result (λ line. IsReplyLine (IsImpliedAs (signature_in prepared.now) (id_view id.now) (reading_view antecedent) (reading_view consequent)) line.items) }
{
    match implied(alloc, prepared, antecedent, consequent) {
        Ok(told) => told_line(alloc, id, told),
        Err(failure) => failure_line(alloc, id, failure),
    }
}

/// What is found of two sides, of which the antecedent has this sort.
#[derive(Drop)]
pub struct Told {
    pub sort: Sort,
    pub found: Implication,
}

/// Valid with `\top` of the sort and this substitution.
fn valid_at(sort: Sort, substitution: Pattern) -> Implied
    ensures { implied_view result ≡ theory.valid (top (sort_view sort)) (view substitution) }
{
    Implied::Valid {
        predicate: Pattern::Top { sort },
        substitution,
    }
}

/// Valid with `\bottom` of the sort.
fn vacuous_at(alloc: Global, sort: Sort) -> Result<Implied, AllocError>
    ensures { IfOk result (λ r. implied_view r ≡ theory.valid (bottom (sort_view sort)) (top (sort_view sort))) }
{
    let other = sort.copy(alloc)?;
    Ok(Implied::Valid {
        predicate: Pattern::Bottom { sort: other },
        substitution: Pattern::Top { sort },
    })
}

/// The line of a result. No implication that is valid has a pattern for which Kore JSON has no tag; where one had, want of memory
/// is told.
fn result_line(alloc: Global, id: &Id, implied: &Implied) -> Result<Vec<u8>, AllocError>
    ensures { (g : KoreSignature) (a c : Side KorePattern) → let is_right = IsImpliedAs g (id_view id.now) a c in IsAnswerOf g a c (answered (implied_view implied.now)) → IfOk result (λ line. IsReplyLine is_right line.items) }
{
    match implied_text(alloc, id, implied)? {
        Some(line) => Ok(line),
        None => Err(AllocError),
    }
}

/// The line of code 5. Where Kore JSON had no tag for a pattern in it, want of memory is told.
fn undecided_line(alloc: Global, id: &Id, cause: Undecided) -> Result<Vec<u8>, AllocError>
    ensures { (g : KoreSignature) (a c : Side KorePattern) (u : shown.Undecided) → let is_right = IsImpliedAs g (id_view id.now) a c in IsAnswerOf g a c (what_is_undecided u) → undecided_view cause ≡ parts_of_cause u → IfOk result (λ line. IsReplyLine is_right line.items) }
{
    let failure = ReplyFailure::Undecided(cause);
    match failure_text(alloc, id, &failure)? {
        Some(line) => Ok(line),
        None => Err(AllocError),
    }
}

/// The line where the antecedent has no instance.
fn vacuous_line(alloc: Global, id: &Id, sort: Sort) -> Result<Vec<u8>, AllocError>
    ensures { let s = sort_view sort in (g : KoreSignature) (a c : Side KorePattern) → let is_right = IsImpliedAs g (id_view id.now) a c in IsAnswerOf g a c (answered (theory.valid (bottom s) (top s))) → IfOk result (λ line. IsReplyLine is_right line.items) }
{
    let implied = vacuous_at(alloc, sort)?;
    result_line(alloc, id, &implied)
}

/// The line of what is found.
fn told_line(alloc: Global, id: &Id, told: Told) -> Result<Vec<u8>, AllocError>
    ensures { (g : KoreSignature) (a c : Side KorePattern) → let is_right = IsImpliedAs g (id_view id.now) a c in IsToldOf g a c told → IfOk result (λ line. IsReplyLine is_right line.items) }
{
    let Told { sort, found } = told;
    match found {
        Implication::NotValid => result_line(alloc, id, &Implied::NotValid),
        Implication::Valid { substitution } => {
            result_line(alloc, id, &valid_at(sort, Box::into_inner(substitution)))
        }
        Implication::Vacuous => vacuous_line(alloc, id, sort),
        Implication::Undecided { undecided } => undecided_line(alloc, id, undecided),
    }
}

/// The fault of both sides as a reply tells it.
fn bad_sides(fault: ComparisonFault) -> ReplyFailure
    ensures { failure_view result ≡ bad_sides_of (told_fault (sides_fault_view fault)) }
{
    match fault {
        ComparisonFault::Idle { name } => ReplyFailure::BadSides(SidesFault::NotInATerm { name }),
        ComparisonFault::OtherTerms => ReplyFailure::BadSides(SidesFault::NotOneTerm),
        ComparisonFault::UnclearName { name } => {
            ReplyFailure::BadSides(SidesFault::TwoMeanings { name })
        }
    }
}

/// The reply with a fault of both sides.
fn sides_line(alloc: Global, id: &Id, fault: ComparisonFault) -> Result<Vec<u8>, AllocError>
    ensures { IfOk result (λ line. IsSidesLine (id_view id.now) (sides_fault_view fault) line.items) }
{
    let failure = bad_sides(fault);
    match failure_text(alloc, id, &failure)? {
        Some(line) => Ok(line),
        None => unreachable!(),
    }
}

/// The reply with a failure.
fn failure_line(alloc: Global, id: &Id, failure: ImpliesFailure) -> Result<Vec<u8>, AllocError>
    ensures { IfOk result (λ line. IsFaultLine (id_view id.now) failure line.items) }
{
    match failure {
        ImpliesFailure::Side(PatternFailure::Fault(fault)) => fault_text(alloc, id, &fault),
        ImpliesFailure::Side(PatternFailure::Memory) => Err(AllocError),
        ImpliesFailure::Sides(fault) => sides_line(alloc, id, fault),
    }
}

/// What is found of two sides, or the first cause why nothing is.
fn implied(
    alloc: Global,
    prepared: &Prepared,
    antecedent: Reading,
    consequent: Reading,
) -> Result<Told, ImpliesFailure>
    requires { IsPrepared prepared.now }
    ensures found { IfOk result (IsToldOf (signature_in prepared.now) (reading_view antecedent) (reading_view consequent)) }
    ensures failed { IfErr result (IsSidesFailure (signature_in prepared.now) (reading_view antecedent) (reading_view consequent)) }
{
    let left = pattern_in(antecedent)?;
    let right = pattern_in(consequent)?;
    compared(alloc, prepared, &left, &right)
}

/// The same of two patterns.
fn compared(
    alloc: Global,
    prepared: &Prepared,
    left: &Pattern,
    right: &Pattern,
) -> Result<Told, ImpliesFailure>
    requires { IsPrepared prepared.now }
    ensures found { IfOk result (IsToldOf (signature_in prepared.now) (faults.read (view left.now)) (faults.read (view right.now))) }
    ensures failed { IfErr result (IsSidesFailure (signature_in prepared.now) (faults.read (view left.now)) (faults.read (view right.now))) }
{
    let sort = checked(alloc, &prepared.signature, left, right)?;
    told_of(alloc, prepared, left, right, sort)
}

/// The antecedent's sort, where nothing is wrong with either side or with both.
fn checked(
    alloc: Global,
    signature: &Signature,
    left: &Pattern,
    right: &Pattern,
) -> Result<Sort, ImpliesFailure>
    ensures found { IfOk result (λ s. AreChecked (signature_view signature.now) (view left.now) (view right.now) (sort_view s)) }
    ensures failed { IfErr result (IsSidesFailure (signature_view signature.now) (faults.read (view left.now)) (faults.read (view right.now))) }
{
    let sort = side_sort(alloc, signature, left, left)?;
    let _other = side_sort(alloc, signature, right, body_of(right))?;
    check_sides(alloc, signature, left, right)?;
    Ok(sort)
}

/// What is found of two patterns with which nothing is wrong, of which the antecedent has this sort.
fn told_of(
    alloc: Global,
    prepared: &Prepared,
    left: &Pattern,
    right: &Pattern,
    sort: Sort,
) -> Result<Told, ImpliesFailure>
    requires { IsPrepared prepared.now }
    ensures found { let g = signature_in prepared.now in let p = view left.now in let q = view right.now in AreChecked g p q (sort_view sort) → IfOk result (IsToldOf g (faults.read p) (faults.read q)) }
    ensures failed { let g = signature_in prepared.now in let p = view left.now in let q = view right.now in AreChecked g p q (sort_view sort) → IfErr result (IsSidesFailure g (faults.read p) (faults.read q)) }
{
    let own = sort.copy(alloc)?;
    let language = prepared.language()?;
    let met = names_of(alloc, left, right)?;
    let setting = Setting {
        language: &language,
        table: &prepared.heads,
        met: &met,
    };
    match implies(alloc, &setting, left, right, own) {
        Ok(found) => Ok(Told { sort, found }),
        Err(error) => Err(unanswered(error)),
    }
}

/// Why two sides that are comparable have no answer: T2, or want of memory.
fn unanswered(error: ImpliesError) -> ImpliesFailure
    ensures { (g : KoreSignature) (p q : KorePattern) → let is_told = IsSidesFailure g (faults.read p) (faults.read q) in AreFaultless g p q → AreComparable g p q → IsUnanswered g error → is_told result }
{
    match error {
        ImpliesError::Memory => ImpliesFailure::Side(PatternFailure::Memory),
        ImpliesError::NoInjection => ImpliesFailure::Side(PatternFailure::Fault(not_answered())),
    }
}

/// The pattern that was read, or its tree's first fault.
fn pattern_in(side: Reading) -> Result<Pattern, ImpliesFailure>
    ensures found { IfOk result (λ p. reading_view side ≡ faults.read (view p)) }
    ensures failed { IfErr result (IsTreeFailure (reading_view side)) }
{
    match side {
        Reading::Pattern(pattern) => Ok(pattern),
        Reading::Fault(fault) => Err(ImpliesFailure::Side(PatternFailure::Fault(StateFault::Json(
            fault,
        )))),
    }
}

/// T1 or T2.
fn refusal(fault: SideFault) -> PatternFault
    ensures { pattern_fault_view result ≡ refusal_of (side_fault_view fault) }
{
    match fault {
        SideFault::ForeignSymbol { name } => PatternFault::ForeignSymbol { name },
        SideFault::OtherShape => PatternFault::OtherShape,
    }
}

/// The sort of a verified side, of which `body` stands under its binders, where it has no fault; else T1 or T2.
fn faultless_sort(
    alloc: Global,
    signature: &Signature,
    body: &Pattern,
    sort: Sort,
) -> Result<Sort, ImpliesFailure>
    ensures found { let g = signature_view signature.now in (p : KorePattern) → VerifiesAs g p (sort_view sort) → IfOk result (λ s. IsFaultlessSide g p (view body.now) (sort_view s)) }
    ensures failed { let g = signature_view signature.now in (p : KorePattern) → VerifiesAs g p (sort_view sort) → IfErr result (IsSideFailure g p (view body.now)) }
{
    match side_fault(alloc, signature, body)? {
        Some(fault) => Err(ImpliesFailure::Side(PatternFailure::Fault(StateFault::Verify(refusal(
            fault,
        ))))),
        None => Ok(sort),
    }
}

/// V1 to V7, or want of memory.
fn unverified(error: VerifyError) -> ImpliesFailure
    ensures { (g : KoreSignature) (p body : KorePattern) → TellsFault g p error → IsSideFailure g p body result }
{
    match error {
        VerifyError::Memory => ImpliesFailure::Side(PatternFailure::Memory),
        error => ImpliesFailure::Side(PatternFailure::Fault(StateFault::Verify(
            PatternFault::Unverified(error),
        ))),
    }
}

/// The sort of a side, of which `body` stands under its binders, where it has no fault; else its first.
fn side_sort(
    alloc: Global,
    signature: &Signature,
    pattern: &Pattern,
    body: &Pattern,
) -> Result<Sort, ImpliesFailure>
    ensures found { IfOk result (λ s. IsFaultlessSide (signature_view signature.now) (view pattern.now) (view body.now) (sort_view s)) }
    ensures failed { IfErr result (IsSideFailure (signature_view signature.now) (view pattern.now) (view body.now)) }
{
    match verify(alloc, signature, pattern) {
        Ok(sort) => faultless_sort(alloc, signature, body, sort),
        Err(error) => Err(unverified(error)),
    }
}

/// Refused where two sides without a fault of their own have one together.
fn check_sides(
    alloc: Global,
    signature: &Signature,
    left: &Pattern,
    right: &Pattern,
) -> Result<(), ImpliesFailure>
    ensures clear { OnOk result (AreComparable (signature_view signature.now) (view left.now) (view right.now)) }
    ensures failed { IfErr result (IsBothFailure (signature_view signature.now) (view left.now) (view right.now)) }
{
    match sides_fault(alloc, signature, left, right)? {
        Some(fault) => Err(ImpliesFailure::Sides(fault)),
        None => Ok(()),
    }
}
