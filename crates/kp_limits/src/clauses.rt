// How many whole-number variables the clauses of a state compare.
ghost use Rattle.std.specs.Prelude.{◌≡◌, ◌+◌, ◌<◌, IfOk};
ghost use Rattle.kp_signature.specs.View.{signature_view};
ghost use Rattle.kp_symbolic.specs.View.{state_view};
ghost use Rattle.kp_limits.specs.Compared as model;

use crate::{WeightKind, weight_of};
use kp_literals::bounds::{all_bounds, largest_length};
use kp_literals::clauses::read_clauses;
use kp_signature::Signature;
use kp_symbolic::State;
use std::alloc::{AllocError, Global};

/// The numeric variables in a weight of bits, beside the digits of the largest constant, where the weight is told whole.
fn names_in(weight: u64, digits: u64) -> Result<usize, AllocError>
    ensures whole { IfOk result (λ n. weight < 18446744073709551615) }
    ensures sum { IfOk result (λ n. weight ≡ n + digits) }
{
    if weight == u64::MAX {
        return Err(AllocError);
    }
    match weight.checked_sub(digits) {
        Some(names) => Ok(names as usize),
        None => Err(AllocError),
    }
}

/// How many whole-number variables the clauses of a state compare.
pub fn compared(alloc: Global, signature: &Signature, state: &State) -> Result<usize, AllocError>
    ensures { IfOk result (λ n. n ≡ model.compared_count (signature_view signature.now) (state_view state.now)) }
{
    let clauses = read_clauses(alloc, signature, state)?;
    let bounds = all_bounds(alloc, &clauses)?;
    let weight = weight_of(alloc, WeightKind::Bits, &clauses)?;
    names_in(weight, largest_length(&bounds))
}
