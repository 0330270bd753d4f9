// The places of a left side at which a whole-number variable stands, or a number.
ghost use Rattle.std.specs.Prelude.{◌≡◌, IfOk, map, if◌then◌else◌};
ghost use Rattle.kp_kore.specs.Signature as head;
ghost use Rattle.kp_kore.specs.View.{sort_view};
ghost use Rattle.kp_signature.specs.View.{signature_view};
ghost use Rattle.kp_ground.specs.View.{value_view, values_of};
ghost use Rattle.kp_rules.specs.Skeletons.{skeleton_view, forms_of};
ghost use Rattle.kp_limits.specs.Compared as model;

use crate::sums::plus;
use kp_ground::Value;
use kp_kore::Sort;
use kp_literals::value_kinds::has_only_numbers;
use kp_rules::Skeleton;
use kp_signature::Signature;
use std::alloc::AllocError;

/// How many numbers stand in a value.
#[cycle(numbers)]
fn numbers_in(value: &Value) -> Result<usize, AllocError>
    ensures { IfOk result (λ n. n ≡ model.numbers_in (value_view value.now)) }
{
    match value {
        Value::Whole { .. } => Ok(1),
        Value::Truth { .. } | Value::Token { .. } => Ok(0),
        Value::Constructed { arguments, .. } => numbers_in_all(arguments),
    }
}

/// How many stand in these values.
#[cycle(numbers)]
fn numbers_in_all(values: &[Value]) -> Result<usize, AllocError>
    ensures { IfOk result (λ n. n ≡ model.all_numbers_in (values_of (map value_view values.now))) }
{
    let mut count: usize = 0;
    for value in values {
        count = plus(count, numbers_in(value)?)?;
    }
    Ok(count)
}

/// One for a variable of whole numbers.
fn places_at(signature: &Signature, sort: &Sort) -> usize
    ensures { result ≡ (if head.has_only_numbers (signature_view signature.now) (sort_view sort.now) then 1 else 0) }
{
    if has_only_numbers(signature, sort) {
        1
    } else {
        0
    }
}

/// The places of a left side at which a whole-number variable stands, or a number.
#[cycle(places)]
pub fn places_of(signature: &Signature, left: &Skeleton) -> Result<usize, AllocError>
    ensures { IfOk result (λ n. n ≡ model.numeric_places (signature_view signature.now) (skeleton_view left.now)) }
{
    match left {
        Skeleton::Anything | Skeleton::Nothing | Skeleton::Any { .. } => Ok(0),
        Skeleton::Variable { sort, .. } => Ok(places_at(signature, sort)),
        Skeleton::Fixed { value } => numbers_in(value),
        Skeleton::Built { arguments, .. } => places_of_all(signature, arguments),
    }
}

/// Those of these left sides.
#[cycle(places)]
fn places_of_all(signature: &Signature, lefts: &[Skeleton]) -> Result<usize, AllocError>
    ensures { let g = signature_view signature.now in IfOk result (λ n. n ≡ model.all_numeric_places g (forms_of (map skeleton_view lefts.now))) }
{
    let mut count: usize = 0;
    for left in lefts {
        count = plus(count, places_of(signature, left)?)?;
    }
    Ok(count)
}
