// The depths of a value that is walked whole.
ghost use Rattle.std.specs.Prelude.{IfOk};
ghost use Rattle.kp_signature.specs.View.{signature_view};
ghost use Rattle.kp_ground.specs.View.{value_view};
ghost use Rattle.kp_run.specs.View.{AreDepthsOf, AreDepthsOfAll};

use crate::constructor_depths::built;
use crate::depths::Depths;
use kp_ground::Value;
use kp_signature::Signature;
use std::alloc::{AllocError, Global};

/// The depths of a value.
#[cycle(whole)]
pub fn depths_of(value: &Value, alloc: Global, signature: &Signature) -> Result<Depths, AllocError>
    ensures { IfOk result (AreDepthsOf (signature_view signature.now) (value_view value.now)) }
{
    match value {
        Value::Whole { .. } | Value::Truth { .. } | Value::Token { .. } => Ok(Depths::One),
        Value::Constructed {
            constructor,
            arguments,
        } => {
            let parts = all_depths_of(arguments, alloc, signature)?;
            built(alloc, signature, constructor, arguments, parts)
        }
    }
}

/// The same of each of these values.
#[cycle(whole)]
fn all_depths_of(
    values: &[Value],
    alloc: Global,
    signature: &Signature,
) -> Result<Vec<Depths>, AllocError>
    ensures { IfOk result (λ ds. AreDepthsOfAll (signature_view signature.now) values.now ds.items) }
{
    let mut parts = Vec::new(alloc);
    for value in values {
        parts.push(depths_of(value, alloc, signature)?)?;
    }
    Ok(parts)
}
