// Whether the sides of a claim have a meaning over a signature.
ghost use Rattle.std.specs.Prelude.{◌≡◌, Some, None, IfOk, IfErr, OnOk};
ghost use Rattle.std.specs.Option.{option_map};
ghost use Rattle.kp_kore.specs.View.{view};
ghost use Rattle.kp_signature.specs.Places.{the_top};
ghost use Rattle.kp_signature.specs.Verify.{first_fault};
ghost use Rattle.kp_signature.specs.View.{signature_view};
ghost use Rattle.kp_compile.specs.Spelled.{first_foreign as first_foreign_in};
ghost use Rattle.kp_claims.specs.Faults.{unverified, foreign_symbol, bare_claim as stated_bare, TellsOf};
ghost use Rattle.kp_claims.specs.Sides.{sides_view, error_of_verify};

use crate::fault::{ClaimError, ClaimFault};
use crate::outline::ClaimOutline;
use kp_compile::first_foreign;
use kp_kore::Pattern;
use kp_signature::{Signature, VerifyError, verify};
use std::alloc::{AllocError, Global};

/// `\implies{S}(left, right)`.
pub fn bare_claim(alloc: Global, sides: ClaimOutline<'_>) -> Result<Pattern, AllocError>
    ensures { IfOk result (λ p. view p ≡ stated_bare (sides_view sides.entry)) }
{
    Ok(Pattern::Implies {
        sort: sides.sort.copy(alloc)?,
        left: Box::new(alloc, sides.left.copy(alloc)?)?,
        right: Box::new(alloc, sides.right.copy(alloc)?)?,
    })
}

/// C9 of the first verify fault.
pub fn check_verified(
    alloc: Global,
    signature: &Signature,
    pattern: &Pattern,
) -> Result<(), ClaimError>
    ensures ok { OnOk result (first_fault (signature_view signature.now) the_top (view pattern.now) ≡ None) }
    ensures err { IfErr result (TellsOf (λ f. option_map unverified (first_fault (signature_view signature.now) the_top (view pattern.now)) ≡ Some f)) }
{
    match verify(alloc, signature, pattern) {
        Ok(_) => Ok(()),
        Err(error) => Err(unverified_side(error)),
    }
}

/// Want of memory, or C9.
fn unverified_side(error: VerifyError) -> ClaimError
    ensures { result ≡ error_of_verify error }
{
    match error {
        VerifyError::Memory => ClaimError::Memory,
        fault => ClaimError::Fault(ClaimFault::Unverified(fault)),
    }
}

/// C9 of the first foreign symbol.
pub fn check_foreign(
    alloc: Global,
    signature: &Signature,
    pattern: &Pattern,
) -> Result<(), ClaimError>
    ensures ok { OnOk result (first_foreign_in (signature_view signature.now) (view pattern.now) ≡ None) }
    ensures err { IfErr result (TellsOf (λ f. option_map foreign_symbol (first_foreign_in (signature_view signature.now) (view pattern.now)) ≡ Some f)) }
{
    match first_foreign(alloc, signature, pattern)? {
        Some(name) => Err(ClaimError::Fault(ClaimFault::ForeignSymbol(name))),
        None => Ok(()),
    }
}
