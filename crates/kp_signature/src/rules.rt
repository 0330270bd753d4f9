// The rules for one node, each by itself.
ghost use Rattle.std.specs.Prelude.{◌≡◌, OnOk, IfErr, Some, None, nat_lt};
ghost use Rattle.std.specs.Char.{digit_value};
ghost use Rattle.std.specs.List.{list_all};
ghost use Rattle.std.specs.Option.{option_map};
ghost use Rattle.std.specs.Str.Parse.{without_leading_sign};
ghost use Rattle.kp_kore.specs.View.{sort_view};
ghost use Rattle.kp_signature.specs.Faults.{fault_view};
ghost use Rattle.kp_kore.specs.Limits.{writes_number as numeral_test};
ghost use Rattle.kp_signature.specs.Verify.{VerifyFault, difference, depth_fault};

use crate::error::VerifyError;
use kp_kore::Sort;
use std::alloc::Global;

/// V4: the sort that is found is the one that is expected, where one is.
pub fn check_sort(alloc: Global, expected: Option<&Sort>, found: &Sort) -> Result<(), VerifyError>
    ensures ok { OnOk result (difference (option_map (λ s. sort_view s.now) expected.entry) (Some (sort_view found.now)) ≡ None) }
    ensures err { let found' = sort_view found.now in IfErr result (λ e. (f : VerifyFault) → fault_view e ≡ Some f → difference (option_map (λ s. sort_view s.now) expected.entry) (Some found') ≡ Some f) }
{
    match expected {
        Some(sort) => check_same(alloc, sort, found),
        None => Ok(()),
    }
}

/// The same of a sort that is expected.
pub fn check_same(alloc: Global, expected: &Sort, found: &Sort) -> Result<(), VerifyError>
    ensures ok { OnOk result (difference (Some (sort_view expected.now)) (Some (sort_view found.now)) ≡ None) }
    ensures err { IfErr result (λ e. (f : VerifyFault) → fault_view e ≡ Some f → difference (Some (sort_view expected.now)) (Some (sort_view found.now)) ≡ Some f) }
{
    if expected.equal(found) {
        return Ok(());
    }
    Err(VerifyError::SortDiffers {
        expected: expected.copy(alloc)?,
        found: found.copy(alloc)?,
    })
}

/// The most levels of a term.
pub const MOST_DEPTH: usize = 48;

/// V6.
pub fn check_depth(depth: usize) -> Result<(), VerifyError>
    ensures ok { OnOk result (depth_fault depth ≡ None) }
    ensures err { IfErr result (λ e. (f : VerifyFault) → fault_view e ≡ Some f → depth_fault depth ≡ Some f) }
{
    if depth <= MOST_DEPTH {
        Ok(())
    } else {
        Err(VerifyError::TermTooDeep)
    }
}

/// V7 for whole numbers: decimal digits after a sign or none.
pub fn is_numeral(text: &str) -> bool
    ensures { result ≡ numeral_test text.now }
{
    let digits = without_sign(text.as_bytes());
    0 < digits.len() && are_digits(digits)
}

/// Whether each byte is a digit.
fn are_digits(text: &[u8]) -> bool
    ensures { result ≡ list_all (λ c. nat_lt (digit_value c) 10) text.now }
{
    text.iter().all(|byte| char::from(*byte).is_digit(10))
}

/// The text behind its sign, if it has one.
fn without_sign(text: &[u8]) -> &[u8]
    ensures { result.now ≡ without_leading_sign text.now }
{
    if text.len() > 0 && (text[0] == b'-' || text[0] == b'+') {
        &text[1..]
    } else {
        text
    }
}
