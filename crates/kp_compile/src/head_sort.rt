// The sort of a value's head.
ghost use Rattle.std.specs.Prelude.{◌≡◌, IfOk, string_bytes};
ghost use Rattle.std.specs.Option.{option_map};
ghost use Rattle.kp_kore.specs.Syntax.{sort_of, no_sorts};
ghost use Rattle.kp_kore.specs.Signature.{symbol_declared};
ghost use Rattle.kp_kore.specs.View.{sort_view};
ghost use Rattle.kp_signature.specs.View.{signature_view};
ghost use Rattle.kp_ground.specs.View.{value_view};
ghost use Rattle.kp_compile.specs.Spelled.{own_sort as sort_of_head};

use kp_ground::Value;
use kp_kore::{Name, Sort};
use kp_signature::Signature;
use std::alloc::{AllocError, Global};

/// The sort of a value's head itself: that of whole numbers, of truth values, of the token, or the constructor's
/// result. None where the signature has none.
pub fn own_sort(
    alloc: Global,
    signature: &Signature,
    value: &Value,
) -> Result<Option<Sort>, AllocError>
    ensures { IfOk result (λ o. option_map sort_view o ≡ sort_of_head (signature_view signature.now) (value_view value.now)) }
{
    match value {
        Value::Whole { .. } => sort_named(alloc, signature.integer_sort()),
        Value::Truth { .. } => sort_named(alloc, signature.boolean_sort()),
        Value::Token { sort, .. } => Ok(Some(sort.copy(alloc)?)),
        Value::Constructed { constructor, .. } => result_of(alloc, signature, constructor.as_str()),
    }
}

/// The result sort of a constructor.
fn result_of(
    alloc: Global,
    signature: &Signature,
    constructor: &str,
) -> Result<Option<Sort>, AllocError>
    ensures { IfOk result (λ o. option_map sort_view o ≡ option_map (λ d. d.result) (symbol_declared (signature_view signature.now) constructor.now)) }
{
    match signature.symbol(constructor) {
        Some(symbol) => Ok(Some(symbol.result_sort.copy(alloc)?)),
        None => Ok(None),
    }
}

/// The sort of this name, if there is one.
fn sort_named(alloc: Global, name: Option<&Name>) -> Result<Option<Sort>, AllocError>
    ensures { IfOk result (λ o. option_map sort_view o ≡ option_map (λ n. sort_of (string_bytes n.now) no_sorts) name.entry) }
{
    match name {
        Some(name) => Ok(Some(plain_sort(alloc, name)?)),
        None => Ok(None),
    }
}

/// The sort of a name without arguments.
fn plain_sort(alloc: Global, name: &Name) -> Result<Sort, AllocError>
    ensures { IfOk result (λ s. sort_view s ≡ sort_of (string_bytes name.now) no_sorts) }
{
    Ok(Sort::App {
        name: name.clone()?,
        arguments: Vec::new(alloc),
    })
}
