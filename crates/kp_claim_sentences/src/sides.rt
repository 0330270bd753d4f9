// Whether the sides of a claim have a meaning over a signature, and names that no new variable may have.
ghost use Rattle.std.specs.Prelude.{◌≡◌, true, false, Some, None, IfOk, IfErr, OnOk};
ghost use Rattle.std.specs.List.{find};
ghost use Rattle.std.specs.Option.{option_map, is_some};
ghost use Rattle.kp_kore.specs.Parts.{variable_names};
ghost use Rattle.kp_kore.specs.View.{view};
ghost use Rattle.kp_kore.specs.Rules.{constrained_term};
ghost use Rattle.kp_signature.specs.Places.{the_top};
ghost use Rattle.kp_signature.specs.Verify.{first_fault};
ghost use Rattle.kp_signature.specs.View.{signature_view};
ghost use Rattle.kp_claims.specs.Faults.{fresh_name, other_side, bare_claim as stated_bare, TellsOf};
ghost use Rattle.kp_claims.specs.Sides.{sides_view};
ghost use Rattle.kp_claim_sentences.specs.Faults.{has_terms as terms_test, is_fresh_text, sides_fault};

use crate::fresh::first_fresh;
use kp_claims::outline::ClaimOutline;
use kp_claims::sides::{bare_claim, check_foreign, check_verified};
use kp_claims::{ClaimError, ClaimFault};
use kp_compile::subpatterns;
use kp_kore::Pattern;
use kp_rules::shape::{constrained_side, under_binders};
use kp_signature::Signature;
use std::alloc::{AllocError, Global};

/// C9 of the first verify fault of `\implies{S}(left, right)`, then of the first foreign symbol in it, then of a side that
/// isn't one term and predicates; then C3 of the first name that new variables may have.
pub fn check_sides(
    alloc: Global,
    signature: &Signature,
    sides: ClaimOutline<'_>,
) -> Result<(), ClaimError>
    ensures verified { OnOk result (first_fault (signature_view signature.now) the_top (stated_bare (sides_view sides.entry)) ≡ None) }
    ensures ok { OnOk result (sides_fault (signature_view signature.now) (Some (sides_view sides.entry)) ≡ None) }
    ensures err { IfErr result (TellsOf (λ f. sides_fault (signature_view signature.now) (Some (sides_view sides.entry)) ≡ Some f)) }
{
    let bare = bare_claim(alloc, sides)?;
    check_verified(alloc, signature, &bare)?;
    check_foreign(alloc, signature, &bare)?;
    check_terms(alloc, sides)?;
    check_names(alloc, &bare)
}

/// C9 where a side isn't one term and predicates.
fn check_terms(alloc: Global, sides: ClaimOutline<'_>) -> Result<(), ClaimError>
    ensures ok { OnOk result (terms_test (sides_view sides.entry) ≡ true) }
    ensures err { IfErr result (TellsOf (λ f. (terms_test (sides_view sides.entry) ≡ false) × (f ≡ other_side))) }
{
    if has_terms(alloc, sides)? {
        Ok(())
    } else {
        Err(ClaimError::Fault(ClaimFault::OtherSide))
    }
}

/// Whether each side is one term and predicates, the right one maybe under `\exists`.
fn has_terms(alloc: Global, sides: ClaimOutline<'_>) -> Result<bool, AllocError>
    ensures { IfOk result (λ b. b ≡ terms_test (sides_view sides.entry)) }
{
    if !has_term(alloc, sides.left)? {
        return Ok(false);
    }
    let bound = under_binders(alloc, sides.right)?;
    has_term(alloc, bound.pattern)
}

/// Whether it is one term and predicates.
fn has_term(alloc: Global, pattern: &Pattern) -> Result<bool, AllocError>
    ensures { IfOk result (λ b. b ≡ is_some (constrained_term (view pattern.now))) }
{
    let side = constrained_side(alloc, pattern)?;
    Ok(side.is_some())
}

/// C3 of the first name that new variables may have.
fn check_names(alloc: Global, pattern: &Pattern) -> Result<(), ClaimError>
    ensures ok { OnOk result (find is_fresh_text (variable_names (view pattern.now)) ≡ None) }
    ensures err { IfErr result (TellsOf (λ f. option_map fresh_name (find is_fresh_text (variable_names (view pattern.now))) ≡ Some f)) }
{
    let parts = subpatterns(alloc, pattern)?;
    match first_fresh(&parts) {
        Some(name) => Err(ClaimError::Fault(ClaimFault::FreshName(name.clone()?))),
        None => Ok(()),
    }
}
