// Sorts of values.
ghost use Rattle.std.specs.Prelude.{◌≡◌, ◌↔◌, IfOk, IsTrue, Option, string_bytes};
ghost use Rattle.std.specs.Option.{option_map};
ghost use Rattle.kp_kore.specs.Syntax.{KoreSort, sort_of, no_sorts};
ghost use Rattle.kp_kore.specs.Signature.{IsHeadOf, constructor_of, tokens, construction, meaning_of as meaning_named};
ghost use Rattle.kp_kore.specs.View.{sort_view};
ghost use Rattle.kp_signature.specs.View.{signature_view};
ghost use Rattle.kp_kore.specs.Value.{head_of};
ghost use Rattle.kp_ground.specs.View.{value_view};
ghost use Rattle.kp_rules.specs.OwnSorts.{IsBelowSome};

use kp_ground::Value;
use kp_kore::{Name, Sort};
use kp_signature::{Meaning, Signature, meaning_of};
use std::alloc::{AllocError, Global};

/// Whether the name is a constructor's.
fn is_construction(signature: &Signature, name: &str) -> bool
    ensures { IsTrue result ↔ (meaning_named (signature_view signature.now) name.now ≡ construction) }
{
    match meaning_of(signature, name) {
        Meaning::Constructor => true,
        Meaning::Injection | Meaning::Interpreted(_) | Meaning::Foreign => false,
    }
}

/// The sort of a name without arguments.
fn plain_sort(alloc: Global, name: &Name) -> Result<Sort, AllocError>
    ensures { IfOk result (λ s. sort_view s ≡ sort_of (string_bytes name.now) no_sorts) }
{
    Ok(Sort::App {
        name: name.clone()?,
        arguments: Vec::new(alloc),
    })
}

/// Whether the sort of this name, if there is one, is below the sort.
fn is_named_below(
    alloc: Global,
    signature: &Signature,
    name: Option<&Name>,
    sort: &Sort,
) -> Result<bool, AllocError>
    ensures { let g = signature_view signature.now in let sort' = sort_view sort.now in (o : Option KoreSort) → option_map (λ n. sort_of (string_bytes n.now) no_sorts) name.entry ≡ o → IfOk result (λ b. IsTrue b ↔ IsBelowSome g o sort') }
{
    match name {
        Some(name) => {
            let own = plain_sort(alloc, name)?;
            Ok(signature.subsort(&own, sort))
        }
        None => Ok(false),
    }
}

/// Whether the constructor's result is of the sort.
fn is_result_below(
    alloc: Global,
    signature: &Signature,
    constructor: &str,
    sort: &Sort,
) -> Result<bool, AllocError>
    ensures { IfOk result (λ b. IsTrue b ↔ IsHeadOf (signature_view signature.now) (sort_view sort.now) (constructor_of constructor.now)) }
{
    if !is_construction(signature, constructor) {
        return Ok(false);
    }
    match signature.symbol(constructor) {
        Some(symbol) => Ok(signature.subsort(&symbol.result_sort, sort)),
        None => Ok(false),
    }
}

/// Whether tokens of the one sort are of the other.
fn is_token_below(
    alloc: Global,
    signature: &Signature,
    own: &Sort,
    sort: &Sort,
) -> Result<bool, AllocError>
    ensures { IfOk result (λ b. IsTrue b ↔ IsHeadOf (signature_view signature.now) (sort_view sort.now) (tokens (sort_view own.now))) }
{
    if signature.is_token_sort(own) {
        Ok(signature.subsort(own, sort))
    } else {
        Ok(false)
    }
}

/// Whether the value's head is among the sort's heads: its own sort is the sort or below it.
pub fn has_sort(
    alloc: Global,
    signature: &Signature,
    value: &Value,
    sort: &Sort,
) -> Result<bool, AllocError>
    ensures { IfOk result (λ b. IsTrue b ↔ IsHeadOf (signature_view signature.now) (sort_view sort.now) (head_of (value_view value.now))) }
{
    match value {
        Value::Whole { .. } => Ok(is_named_below(
            alloc,
            signature,
            signature.integer_sort(),
            sort,
        )?),
        Value::Truth { .. } => Ok(is_named_below(
            alloc,
            signature,
            signature.boolean_sort(),
            sort,
        )?),
        Value::Token { sort: own, .. } => Ok(is_token_below(alloc, signature, own, sort)?),
        Value::Constructed { constructor, .. } => Ok(is_result_below(
            alloc,
            signature,
            constructor.as_str(),
            sort,
        )?),
    }
}
