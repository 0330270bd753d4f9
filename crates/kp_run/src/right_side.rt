// The depths of a right term's value.
ghost use Rattle.std.specs.Prelude.{◌≡◌, IfOk, List, map, true};
ghost use Rattle.std.specs.List.{list_all};
ghost use Rattle.kp_kore.specs.Syntax.{Text};
ghost use Rattle.kp_signature.specs.View.{signature_view};
ghost use Rattle.kp_kore.specs.Instance.{Valuation};
ghost use Rattle.kp_ground.specs.Slots.{stands_at, term_reads};
ghost use Rattle.kp_ground.specs.View.{value_view};
ghost use Rattle.kp_run.specs.View.{AreDepthsOf, AreDepthsOfAll, AreDepthsUnder, AreTermValues, IsTermValue};

use crate::constructor_depths::built;
use crate::depths::Depths;
use crate::value_depths::depths_of;
use kp_ground::{CompiledTerm, Value};
use kp_signature::Signature;
use std::alloc::{AllocError, Global};

/// The depths of a right term's value: those of what its variables are bound to are shared, and nothing of it is walked.
#[cycle(right)]
pub fn right_depths(
    term: &CompiledTerm,
    value: &Value,
    alloc: Global,
    signature: &Signature,
    bound: &[Depths],
) -> Result<Depths, AllocError>
    ensures { let g = signature_view signature.now in let value' = value_view value.now in IfOk result (λ d. (v : Valuation) (xs : List Text) → AreDepthsUnder g v xs bound.now → term_reads xs term.now ≡ true → IsTermValue v term.now value.now → AreDepthsOf g value' d) }
{
    match term {
        CompiledTerm::Variable { slot, .. } => depths_at(value, alloc, signature, *slot, bound),
        CompiledTerm::Built {
            arguments: terms,
            ..
        } => match value {
            Value::Constructed {
                constructor,
                arguments,
            } => {
                let parts = all_right_depths(terms, arguments, alloc, signature, bound)?;
                built(alloc, signature, constructor, arguments, parts)
            }
            _ => depths_of(value, alloc, signature),
        },
        CompiledTerm::Fixed { .. } | CompiledTerm::Call { .. } | CompiledTerm::Opposite { .. } => {
            depths_of(value, alloc, signature)
        }
    }
}

/// The same of the terms of a list, one by one.
#[cycle(right)]
fn all_right_depths(
    terms: &[CompiledTerm],
    values: &[Value],
    alloc: Global,
    signature: &Signature,
    bound: &[Depths],
) -> Result<Vec<Depths>, AllocError>
    ensures { let g = signature_view signature.now in IfOk result (λ ds. (v : Valuation) (xs : List Text) → AreDepthsUnder g v xs bound.now → list_all (term_reads xs) terms.now ≡ true → AreTermValues v terms.now values.now → AreDepthsOfAll g values.now ds.items) }
{
    let mut parts = Vec::new(alloc);
    for i in 0..terms.len().min(values.len()) {
        parts.push(right_depths(&terms[i], &values[i], alloc, signature, bound)?)?;
    }
    Ok(parts)
}

/// The depths of what the variable of a slot is bound to; those of the value where nothing is.
fn depths_at(
    value: &Value,
    alloc: Global,
    signature: &Signature,
    slot: usize,
    bound: &[Depths],
) -> Result<Depths, AllocError>
    ensures { let g = signature_view signature.now in let value' = value_view value.now in IfOk result (λ d. (v : Valuation) (xs : List Text) (x : Text) → AreDepthsUnder g v xs bound.now → stands_at xs x slot ≡ true → value' ≡ v x → AreDepthsOf g value' d) }
{
    if slot < bound.len() {
        return bound[slot].share();
    }
    depths_of(value, alloc, signature)
}
