// What is shown of a state that is left undecided.
ghost use Rattle.std.specs.Prelude.{◌≡◌, IfOk, Option, string_bytes};
ghost use Rattle.std.specs.Fmt.{signed_decimal};
ghost use Rattle.std.specs.Option.{option_map};
ghost use Rattle.kp_satisfiability.specs.Answers.{IsWeighedAs};
ghost use Rattle.kp_results.specs.View.{limit_view, undecided_view, weight_view};
ghost use Rattle.kp_symbolic.specs.Shown as shown;
ghost use Rattle.kp_symbolic.specs.Verdicts as model;
ghost use Rattle.kp_limits.specs.Told as weights;
ghost use Rattle.kp_limits.specs.Calls.{call_view};
ghost use Rattle.kp_simplify.specs.Spelled.{part_of_weight, parts_of_cause};
ghost use Rattle.kp_simplify.specs.Told.{parts_of_call, parts_of_weight};

use kp_limits::{Weighed, WideCall};
use kp_results::{Limit, Undecided, Weight};
use std::alloc::{AllocError, Global};

/// The number's decimal digits.
fn number_text(alloc: Global, number: i128) -> Result<String, AllocError>
    ensures { IfOk result (λ t. string_bytes t ≡ signed_decimal number) }
{
    number.to_string(alloc)
}

/// A call of numbers that leaves 128 bits.
pub fn wide_number(alloc: Global, call: WideCall<'_>) -> Result<Undecided, AllocError>
    ensures { IfOk result (λ u. undecided_view u ≡ parts_of_call (call_view call.entry)) }
{
    let WideCall {
        symbol,
        first,
        second,
    } = call;
    let first = number_text(alloc, first)?;
    let second = number_text(alloc, second)?;
    let symbol = String::from_str(alloc, symbol.as_str())?;
    Ok(Undecided::Limit {
        limit: Limit::Number {
            first,
            second,
            symbol,
        },
    })
}

/// A term that is too deep.
pub fn deep_term(number: u64) -> Undecided
    ensures { undecided_view result ≡ parts_of_cause (shown.deep number) }
{
    let weight = Weight::Depth;
    Undecided::Limit {
        limit: Limit::Weighed { weight, number },
    }
}

/// A weight as it is told.
fn weight_of(weight: kp_limits::WeightKind) -> Weight
    ensures { weight_view result ≡ part_of_weight (weights.weight_view weight) }
{
    match weight {
        kp_limits::WeightKind::Bits => Weight::Bits,
        kp_limits::WeightKind::Literals => Weight::Literals,
        kp_limits::WeightKind::Product => Weight::Product,
    }
}

/// The limit of a weight that is passed, if one is.
pub fn limit_of(over: Option<Weighed>) -> Option<Limit>
    ensures { (h : Option model.Weighed) → IsWeighedAs h over → option_map limit_view result ≡ option_map parts_of_weight h }
{
    match over {
        Some(Weighed { weight, number }) => Some(Limit::Weighed {
            weight: weight_of(weight),
            number,
        }),
        None => None,
    }
}
