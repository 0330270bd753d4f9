// The value of a ground configuration.
ghost use Rattle.std.specs.Prelude.{◌≡◌, true, false, [], IsTrue, IfOk, OnOk, IfErr};
ghost use Rattle.kp_kore.specs.Parts.{is_term as term_test, free_variables};
ghost use Rattle.kp_kore.specs.View.{view};
ghost use Rattle.kp_signature.specs.View.{signature_view};
ghost use Rattle.kp_kore.specs.Instance.{Valuation, instance};
ghost use Rattle.kp_kore.specs.Numbers.{computes_wide};
ghost use Rattle.kp_ground.specs.View.{value_view};
ghost use Rattle.kp_successors.specs.Errors.{IsUnvalued};

use crate::error::GroundError;
use kp_compile::{CompileError, compile_term, is_term, no_names};
use kp_ground::Value;
use kp_kore::Pattern;
use kp_signature::Signature;
use std::alloc::Global;

/// The value of a closed term; Number where a call in it leaves 128 bits.
pub fn value_of(
    alloc: Global,
    signature: &Signature,
    pattern: &Pattern,
) -> Result<Value, GroundError>
    ensures term { OnOk result (IsTrue (term_test (view pattern.now))) }
    ensures closed { OnOk result (free_variables (view pattern.now) ≡ []) }
    ensures meant { IfOk result (λ u. (v : Valuation) → instance (signature_view signature.now) v (view pattern.now) ≡ value_view u) }
    ensures narrow { OnOk result ((v : Valuation) → computes_wide (signature_view signature.now) v (view pattern.now) ≡ false) }
    ensures refused { IfErr result (IsUnvalued (signature_view signature.now) (view pattern.now)) }
{
    if !is_term(pattern) {
        return Err(GroundError::Unread);
    }
    if !pattern.free_vars(alloc)?.is_empty() {
        return Err(GroundError::Unread);
    }
    match compile_term(alloc, signature, &no_names(alloc), pattern) {
        Ok(term) => Ok(term.evaluate(alloc, &[])?),
        Err(CompileError::Memory) => Err(GroundError::Memory),
        Err(_) => Err(GroundError::Unread),
    }
}
