// The claims that prove goes by: between ground terms, no circularities, and without dependencies.
ghost use Rattle.std.specs.Prelude.{◌≡◌, ◌&&◌, List, IfOk, IfErr, OnOk, map};
ghost use Rattle.std.specs.List.{AllByRecursion, AllZip};
ghost use Rattle.kp_kore.specs.Parts.{free_variables};
ghost use Rattle.kp_kore.specs.Syntax.{KoreModule};
ghost use Rattle.kp_kore.specs.View.{view, sort_view, sorted_variable_view};
ghost use Rattle.kp_signature.specs.View.{signature_view};
ghost use Rattle.kp_claims.specs.Claims.{counted};
ghost use Rattle.kp_claims.specs.Faults.{TellsOf};
ghost use Rattle.kp_claims.specs.Files.{SpellsFile};
ghost use Rattle.kp_claims.specs.Sides.{sides_view};
ghost use Rattle.kp_claim_sentences.specs.Claims.{IsStatedBy};
ghost use Rattle.kp_claim_sentences.specs.Faults.{IsFaultlessFile};
ghost use Rattle.kp_claim_sentences.specs.Items.{item_view, items_view};
ghost use Rattle.kp_claim_files.specs.Read.{sides_at};
ghost use Rattle.kp_claim_files.specs.Ground.{has_none as none_test, is_ground as ground_test, is_alone as alone_test, IsWide, IsPlainClaim, IsErrorForProve, AreGroundSides, IsMeant, AreMeant, IsGroundAt, IsBeyondOne, IsBeyondAmong, AreBeyond, IsNumberFaultOf, error_of_state};

use crate::read::read_claims;
use kp_claim_sentences::FiledClaim;
use kp_claims::outline::ClaimOutline;
use kp_claims::{ClaimError, ClaimFault};
use kp_compile::{StateError, is_term, state_of};
use kp_kore::{Pattern, Sort, SortedVariable};
use kp_signature::Signature;
use std::alloc::{AllocError, Global};

/// The claims of a file over a signature, in order, where prove goes by each; else the file's fault, or C2.
pub fn read_plain_claims(
    alloc: Global,
    bytes: &[u8],
    signature: &Signature,
) -> Result<Vec<FiledClaim>, ClaimError>
    ensures read { let g = signature_view signature.now in IfOk result (λ items. (ms : List KoreModule) × SpellsFile bytes.now ms × IsFaultlessFile g (counted ms) × AllZip IsStatedBy (counted ms) (items_view items.items) × AllByRecursion (IsPlainClaim g) (items_view items.items)) }
    ensures fault { IfErr result (IsErrorForProve (signature_view signature.now) bytes.now) }
{
    let claims = read_claims(alloc, bytes, signature)?;
    check_plain(alloc, signature, &claims)?;
    Ok(claims)
}

/// C2 where prove doesn't go by one of the claims.
fn check_plain(
    alloc: Global,
    signature: &Signature,
    claims: &[FiledClaim],
) -> Result<(), ClaimError>
    ensures ok { OnOk result (AllByRecursion (IsPlainClaim (signature_view signature.now)) (items_view claims.now)) }
    ensures err { let g = signature_view signature.now in AllByRecursion (IsMeant g) (items_view claims.now) → IfErr result (TellsOf (IsBeyondAmong g (items_view claims.now))) }
{
    for claim in claims {
        check_claim(alloc, signature, claim)?;
    }
    Ok(())
}

/// C2 where prove doesn't go by the claim.
fn check_claim(alloc: Global, signature: &Signature, claim: &FiledClaim) -> Result<(), ClaimError>
    ensures ok { OnOk result (IsPlainClaim (signature_view signature.now) (item_view claim.now)) }
    ensures err { let g = signature_view signature.now in IsMeant g (item_view claim.now) → IfErr result (TellsOf (IsBeyondOne g (item_view claim.now))) }
{
    if !is_alone(claim) {
        return Err(ClaimError::Fault(ClaimFault::OtherShape));
    }
    check_sides(alloc, signature, outline_of(claim))
}

/// Whether it is no circularity and depends on no other.
fn is_alone(claim: &FiledClaim) -> bool
    ensures { result ≡ alone_test (item_view claim.now) }
{
    !claim.circular && claim.depends.is_empty()
}

/// Its sort and sides.
fn outline_of(claim: &FiledClaim) -> ClaimOutline<'_>
    ensures { sides_view result ≡ sides_at claim.now }
{
    ClaimOutline {
        sort: &claim.sort,
        left: &claim.claim.left,
        right: &claim.claim.right,
    }
}

/// C2 where a side isn't a ground term, or computes a number beyond 128 bits.
fn check_sides(
    alloc: Global,
    signature: &Signature,
    sides: ClaimOutline<'_>,
) -> Result<(), ClaimError>
    ensures ok { OnOk result (AreGroundSides (signature_view signature.now) (sides_view sides.entry)) }
    ensures err { let g = signature_view signature.now in AreMeant g (sides_view sides.entry) → IfErr result (TellsOf (AreBeyond g (sides_view sides.entry))) }
{
    if !are_ground(alloc, sides)? {
        return Err(ClaimError::Fault(ClaimFault::OtherShape));
    }
    check_number(alloc, signature, sides.left, sides.sort)?;
    check_number(alloc, signature, sides.right, sides.sort)
}

/// Whether both sides are ground terms.
fn are_ground(alloc: Global, sides: ClaimOutline<'_>) -> Result<bool, AllocError>
    ensures { let sides' = sides_view sides.entry in IfOk result (λ b. b ≡ (ground_test sides'.left && ground_test sides'.right)) }
{
    if !is_ground(alloc, sides.left)? {
        return Ok(false);
    }
    is_ground(alloc, sides.right)
}

/// C2 where a ground term of this sort, verified and without foreign symbols, computes a number beyond 128 bits.
fn check_number(
    alloc: Global,
    signature: &Signature,
    pattern: &Pattern,
    sort: &Sort,
) -> Result<(), ClaimError>
    ensures ok { OnOk result (¬ IsWide (signature_view signature.now) (view pattern.now)) }
    ensures err { let g = signature_view signature.now in IsGroundAt g (sort_view sort.now) (view pattern.now) → IfErr result (TellsOf (IsNumberFaultOf g (view pattern.now))) }
{
    match state_of(alloc, signature, pattern, sort.copy(alloc)?) {
        Ok(_) => Ok(()),
        Err(error) => Err(wide_side(error)),
    }
}

/// Want of memory, or C2.
fn wide_side(error: StateError) -> ClaimError
    ensures { result ≡ error_of_state error }
{
    match error {
        StateError::Memory => ClaimError::Memory,
        StateError::OtherShape | StateError::ForeignSymbol { .. } => {
            ClaimError::Fault(ClaimFault::OtherShape)
        }
    }
}

/// Whether it is one term without variables.
fn is_ground(alloc: Global, pattern: &Pattern) -> Result<bool, AllocError>
    ensures { IfOk result (λ b. b ≡ ground_test (view pattern.now)) }
{
    if !is_term(pattern) {
        return Ok(false);
    }
    is_closed(alloc, pattern)
}

/// Whether no variable is free in it.
fn is_closed(alloc: Global, pattern: &Pattern) -> Result<bool, AllocError>
    ensures { IfOk result (λ b. b ≡ none_test (free_variables (view pattern.now))) }
{
    let found = pattern.free_vars(alloc)?;
    Ok(are_none(found.as_slice()))
}

/// Whether there is no variable.
fn are_none(found: &[SortedVariable]) -> bool
    ensures { result ≡ none_test (map sorted_variable_view found.now) }
{
    match found {
        [] => true,
        [_, ..] => false,
    }
}
