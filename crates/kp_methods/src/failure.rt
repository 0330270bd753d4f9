ghost use Rattle.std.specs.Prelude.{◌≡◌};
ghost use Rattle.kp_kore.specs.Signature.{KoreSignature};
ghost use Rattle.kp_kore.specs.Syntax.{KorePattern};
ghost use Rattle.kp_methods.specs.Ends.{IsWrongPattern, TellsFault};
ghost use Rattle.kp_methods.specs.RightResults.{NoneLeftOut};
ghost use Rattle.kp_methods.specs.declared.failure.PatternFailure.TheVariants as failure;
ghost use Rattle.kp_signature.specs.declared.error.VerifyError.TheVariants as verify;

use kp_rpc::{PatternFault, StateFault};
use kp_signature::VerifyError;
use std::alloc::AllocError;

/// Why a pattern has no place in a request.
#[derive(Drop)]
pub enum PatternFailure {
    Memory,
    Fault(StateFault),
}

impl From<AllocError> for PatternFailure {
    ghost use Rattle.std.specs.Prelude.{◌≡◌};
    ghost use Rattle.kp_methods.specs.declared.failure.PatternFailure.TheVariants as failure;

    ghost from_gives = { λ _ e. e ≡ failure.Memory };

    fn from(_error: AllocError) -> Self {
        PatternFailure::Memory
    }
}

/// Why a pattern that doesn't verify has no place in a request.
pub fn verify_failure(error: VerifyError) -> PatternFailure
    ensures memory { result ≡ failure.Memory → error ≡ verify.Memory }
    ensures fault { (g : KoreSignature) (p : KorePattern) → TellsFault g p error → IsWrongPattern g NoneLeftOut p result }
{
    match error {
        VerifyError::Memory => PatternFailure::Memory,
        error => PatternFailure::Fault(StateFault::Verify(PatternFault::Unverified(error))),
    }
}
