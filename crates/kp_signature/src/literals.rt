// The rules of a literal.
ghost use Rattle.std.specs.Prelude.{◌≡◌, IfErr, OnOk, Some, None, true, codes, string_bytes};
ghost use Rattle.std.specs.Option.{option_map};
ghost use Rattle.std.specs.Str.Parse.{signed_digits_value};
ghost use Rattle.kp_kore.specs.View.{sort_view};
ghost use Rattle.kp_kore.specs.Syntax.{literal};
ghost use Rattle.kp_signature.specs.Faults.{fault_view};
ghost use Rattle.kp_signature.specs.Nodes.{literal_node_fault};
ghost use Rattle.kp_kore.specs.Limits.{writes_number as numeral_test, fits_number};
ghost use Rattle.kp_signature.specs.Verify.{VerifyFault, is_literal_of as literal_test, literal_fault, width_fault};
ghost use Rattle.kp_signature.specs.View.{signature_view};

use crate::error::VerifyError;
use crate::nodes::check_known;
use crate::rules::{check_depth, check_sort, is_numeral};
use crate::signature::Signature;
use kp_kore::{Name, Sort};
use std::alloc::Global;
use std::num::ParseIntError;

/// The rules of a literal, in their order: V1, V4, V7, V5, V6.
pub fn check_literal(
    alloc: Global,
    signature: &Signature,
    wanted: Option<&Sort>,
    depth: usize,
    sort: &Sort,
    text: &Name,
) -> Result<(), VerifyError>
    ensures ok { let g = signature_view signature.now in let sort' = sort_view sort.now in OnOk result (literal_node_fault g (option_map (λ s. sort_view s.now) wanted.entry) depth sort' (string_bytes text.now) ≡ None) }
    ensures err { let g = signature_view signature.now in let sort' = sort_view sort.now in IfErr result (λ e. (f : VerifyFault) → fault_view e ≡ Some f → literal_node_fault g (option_map (λ s. sort_view s.now) wanted.entry) depth sort' (string_bytes text.now) ≡ Some f) }
{
    check_known(alloc, signature, sort)?;
    check_sort(alloc, wanted, sort)?;
    check_spelling(signature, sort, text)?;
    check_width(signature, sort, text)?;
    Ok(check_depth(depth)?)
}

/// Whether a literal is spelled as its sort asks.
fn check_spelling(signature: &Signature, sort: &Sort, text: &Name) -> Result<(), VerifyError>
    ensures ok { OnOk result (literal_fault (signature_view signature.now) (literal (sort_view sort.now) (string_bytes text.now)) ≡ None) }
    ensures err { let g = signature_view signature.now in let sort' = sort_view sort.now in IfErr result (λ e. (f : VerifyFault) → fault_view e ≡ Some f → literal_fault g (literal sort' (string_bytes text.now)) ≡ Some f) }
{
    if is_literal_of(signature, sort, text.as_str()) {
        return Ok(());
    }
    Err(VerifyError::NoLiteral {
        text: text.clone()?,
    })
}

/// Whether the text is a literal of the sort.
fn is_literal_of(signature: &Signature, sort: &Sort, text: &str) -> bool
    ensures { result ≡ literal_test (signature_view signature.now) (sort_view sort.now) text.now }
{
    if signature.is_integer_sort(sort) {
        is_numeral(text)
    } else if signature.is_boolean_sort(sort) {
        text == "true" || text == "false"
    } else {
        signature.is_token_sort(sort)
    }
}

/// Whether a numeral's number fits in 128 bits.
fn check_width(signature: &Signature, sort: &Sort, text: &Name) -> Result<(), VerifyError>
    ensures ok { let the_literal = literal (sort_view sort.now) (string_bytes text.now) in let g = signature_view signature.now in OnOk result (literal_fault g the_literal ≡ None → width_fault g the_literal ≡ None) }
    ensures err { let the_literal = literal (sort_view sort.now) (string_bytes text.now) in let g = signature_view signature.now in IfErr result (λ e. (f : VerifyFault) → literal_fault g the_literal ≡ None → fault_view e ≡ Some f → width_fault g the_literal ≡ Some f) }
{
    if !signature.is_integer_sort(sort) {
        return Ok(());
    }
    if fits(text.as_str()) {
        return Ok(());
    }
    Err(VerifyError::NumberTooWide {
        text: text.clone()?,
    })
}

/// Whether a numeral's number fits in 128 bits.
fn fits(text: &str) -> bool
    ensures { numeral_test text.now ≡ true → result ≡ fits_number (signed_digits_value 10 text.now) }
{
    let number: Result<i128, ParseIntError> = text.parse();
    number.is_ok()
}
