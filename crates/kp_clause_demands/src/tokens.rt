// Of which sort the tokens of a side are.
ghost use Rattle.std.specs.Prelude.{◌≡◌, map, None};
ghost use Rattle.std.specs.Option.{option_map};
ghost use Rattle.kp_ground.specs.View.{value_view};
ghost use Rattle.kp_kore.specs.View.{sort_view};
ghost use Rattle.kp_signature.specs.View.{signature_view};
ghost use Rattle.kp_signature.specs.Pairs.{subsort_view};
ghost use Rattle.kp_literals.specs.Kinds.{lower_sorts};
ghost use Rattle.kp_clause_demands.specs.Kinds as spec;

use kp_ground::Value;
use kp_kore::Sort;
use kp_literals::TokenPart;
use kp_literals::value_kinds::{has_tokens_of, is_same};
use kp_signature::{Signature, Subsort};

/// The first of the sorts on the left of these pairs whose tokens are values of the sort.
fn lower_token_sort<'a>(
    signature: &Signature,
    pairs: &'a [Subsort],
    sort: &Sort,
) -> Option<&'a Sort>
    ensures { option_map (λ s. sort_view s.now) result ≡ spec.tokens_among (signature_view signature.now) (sort_view sort.now) (lower_sorts (map subsort_view pairs.now)) }
{
    for pair in pairs {
        if has_tokens_of(signature, &pair.lower, sort) {
            return Some(&pair.lower);
        }
    }
    None
}

/// The sort of the tokens that are values of a sort: its own, or else the first below it that has tokens.
fn token_sort<'a>(signature: &'a Signature, sort: &'a Sort) -> Option<&'a Sort>
    ensures { option_map (λ s. sort_view s.now) result ≡ spec.token_sort (signature_view signature.now) (sort_view sort.now) }
{
    if has_tokens_of(signature, sort, sort) {
        return Some(sort);
    }
    lower_token_sort(signature, signature.subsorts(), sort)
}

/// The sort of a token.
fn sort_of_token(value: &Value) -> Option<&Sort>
    ensures { option_map (λ s. sort_view s.now) result ≡ spec.sort_of_token (value_view value.now) }
{
    match value {
        Value::Token { sort, .. } => Some(sort),
        Value::Whole { .. } | Value::Truth { .. } | Value::Constructed { .. } => None,
    }
}

/// The sort of the tokens that a side may be.
fn part_sort<'a>(signature: &'a Signature, part: TokenPart<'a>) -> Option<&'a Sort>
    ensures { option_map (λ s. sort_view s.now) result ≡ spec.part_sort (signature_view signature.now) part.entry }
{
    match part {
        TokenPart::Unknown { variable } => token_sort(signature, &variable.sort),
        TokenPart::Known { value } => sort_of_token(value),
    }
}

/// Whether there are two sorts, and they are one.
fn is_same_sort(first: Option<&Sort>, second: Option<&Sort>) -> bool
    ensures { result ≡ spec.same_sort (option_map (λ s. sort_view s.now) first.entry) (option_map (λ s. sort_view s.now) second.entry) }
{
    match first {
        Some(first) => match second {
            Some(second) => is_same(first, second),
            None => false,
        },
        None => false,
    }
}

/// Whether both sides are tokens of one sort.
pub fn are_alike<'a>(signature: &'a Signature, first: TokenPart<'a>, second: TokenPart<'a>) -> bool
    ensures { result ≡ spec.are_alike (signature_view signature.now) first.entry second.entry }
{
    is_same_sort(part_sort(signature, first), part_sort(signature, second))
}
