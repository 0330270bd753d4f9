ghost use Rattle.std.specs.Prelude.{◌≡◌, IfOk, IfErr, IsTrue, None, string_bytes};
ghost use Rattle.std.specs.Str.Parse.{signed_digits_value};
ghost use Rattle.kp_kore.specs.Syntax.{literal};
ghost use Rattle.kp_kore.specs.View.{sort_view};
ghost use Rattle.kp_kore.specs.Instance.{literal_value as value_written};
ghost use Rattle.kp_ground.specs.View.{value_view};
ghost use Rattle.kp_signature.specs.View.{signature_view};
ghost use Rattle.kp_signature.specs.Places.{Place};
ghost use Rattle.kp_kore.specs.Limits.{writes_number, fits_number};
ghost use Rattle.kp_signature.specs.Verify.{first_fault};
ghost use Rattle.kp_compile.specs.declared.error.CompileError.TheVariants.{Memory};

use crate::error::CompileError;
use kp_ground::Value;
use kp_kore::{Name, Sort};
use kp_signature::Signature;
use std::alloc::Global;

/// The number that a text writes.
fn whole_number(text: &str) -> Result<i128, CompileError>
    ensures written { IfOk result (λ n. n ≡ signed_digits_value 10 text.now) }
    ensures refused { IfErr result (λ e. IsTrue (writes_number text.now) → IsTrue (fits_number (signed_digits_value 10 text.now)) → e ≡ Memory) }
{
    match text.parse::<i128>() {
        Ok(number) => Ok(number),
        Err(_) => Err(CompileError::Shape),
    }
}

/// The value that a literal of a sort writes.
pub fn literal_value(
    alloc: Global,
    signature: &Signature,
    sort: &Sort,
    text: &Name,
) -> Result<Value, CompileError>
    ensures written { IfOk result (λ u. value_view u ≡ value_written (signature_view signature.now) (sort_view sort.now) (string_bytes text.now)) }
    ensures refused { let g = signature_view signature.now in IfErr result (λ e. (c : Place) → first_fault g c (literal (sort_view sort.now) (string_bytes text.now)) ≡ None → e ≡ Memory) }
{
    if signature.is_integer_sort(sort) {
        Ok(Value::Whole {
            number: whole_number(text)?,
        })
    } else if signature.is_boolean_sort(sort) {
        Ok(Value::Truth {
            holds: text.as_str() == "true",
        })
    } else {
        Ok(Value::Token {
            sort: sort.copy(alloc)?,
            text: text.clone()?,
        })
    }
}
