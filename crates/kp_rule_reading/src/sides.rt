// The sides of a rule that is read.
ghost use Rattle.std.specs.Prelude.{◌≡◌, IfOk, IfErr};
ghost use Rattle.kp_kore.specs.View.{view};
ghost use Rattle.kp_signature.specs.View.{signature_view};
ghost use Rattle.kp_compile.specs.Verified.{IsVerifiedLeftTerm};
ghost use Rattle.kp_compile.specs.declared.error.CompileError.TheVariants.{Memory};
ghost use Rattle.kp_rules.specs.Shapes.{rewrite_seen};
ghost use Rattle.kp_rule_reading.specs.LeftForms.{AreMadeSides};

use crate::choice::{copied_side, copies, new_beside};
use crate::left_side::left_side_of;
use kp_compile::CompileError;
use kp_kore::Pattern;
use kp_rules::ReadSides;
use kp_rules::shape::Shape;
use kp_signature::Signature;
use std::alloc::Global;

/// The sides of these parts.
pub fn sides_of(
    alloc: Global,
    signature: &Signature,
    shape: &Shape<'_>,
    right: &Pattern,
) -> Result<ReadSides, CompileError>
    ensures made { IfOk result (AreMadeSides (signature_view signature.now) (rewrite_seen (view right.now) shape.now)) }
    ensures refused { IfErr result (λ e. IsVerifiedLeftTerm (signature_view signature.now) (view shape.now.left.term.now) → e ≡ Memory) }
{
    let left = left_side_of(shape.left.term, alloc, signature)?;
    let condition = copies(alloc, &shape.left.predicates)?;
    let new_variables = new_beside(alloc, shape.left.term, right)?;
    let (right, ensured) = copied_side(alloc, shape.right.term, &shape.right.predicates)?;
    Ok(ReadSides {
        left,
        condition,
        right,
        ensured,
        new_variables,
    })
}
