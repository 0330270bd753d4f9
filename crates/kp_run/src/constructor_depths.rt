// The depths of a constructor, by those of its arguments.
ghost use Rattle.std.specs.Prelude.{◌≡◌, ◌↔◌, ◌≤◌, IfOk, IsTrue, map, suc};
ghost use Rattle.kp_kore.specs.Limits.{most_depth};
ghost use Rattle.kp_kore.specs.Parts.{term_depth, most_term_depth};
ghost use Rattle.kp_kore.specs.View.{sort_view, sorts_view};
ghost use Rattle.kp_signature.specs.View.{signature_view};
ghost use Rattle.kp_kore.specs.Value.{constructed};
ghost use Rattle.kp_ground.specs.View.{value_view, values_of};
ghost use Rattle.kp_compile.specs.Spelled.{spelling, spellings};
ghost use Rattle.kp_run.specs.Depths.{counted, node};
ghost use Rattle.kp_run.specs.View.{AreDepthsOf, AreDepthsOfAll, depths_view, trees_of};

use crate::depths::Depths;
use kp_compile::{is_home, places_of};
use kp_ground::Value;
use kp_kore::Sort;
use kp_signature::Signature;
use std::alloc::{AllocError, Global};
use std::sync::Arc;

/// One level more than a state may have: nothing is counted further.
const DEEP: usize = 49;

/// Whether a value is no deeper at a sort than a state may be.
pub fn is_shallow_at(value: &Value, depths: &Depths, signature: &Signature, sort: &Sort) -> bool
    ensures { let g = signature_view signature.now in let sort' = sort_view sort.now in let value' = value_view value.now in AreDepthsOf g value' depths.now → IsTrue result ↔ (term_depth (spelling g sort' value') ≤ most_depth) }
{
    levels_at(value, depths, signature, sort) < DEEP
}

/// The depths of a constructor with these arguments.
pub fn built(
    alloc: Global,
    signature: &Signature,
    constructor: &str,
    arguments: &[Value],
    parts: Vec<Depths>,
) -> Result<Depths, AllocError>
    ensures { let g = signature_view signature.now in let arguments' = values_of (map value_view arguments.now) in AreDepthsOfAll g arguments.now parts.items → IfOk result (AreDepthsOf g (constructed constructor.now arguments')) }
{
    let places = places_of(signature, constructor);
    let levels = one_more(most_levels(arguments, &parts, signature, places));
    with_levels(alloc, levels, parts)
}

/// The depths of so many levels over these parts.
fn with_levels(alloc: Global, levels: usize, parts: Vec<Depths>) -> Result<Depths, AllocError>
    ensures { IfOk result (λ d. depths_view d ≡ node levels (trees_of (map depths_view parts.items))) }
{
    Ok(Depths::Built {
        levels,
        parts: Arc::new(alloc, parts)?,
    })
}

/// The most levels that an argument of a constructor has, each at its declared sort.
fn most_levels(values: &[Value], parts: &[Depths], signature: &Signature, places: &[Sort]) -> usize
    ensures { let g = signature_view signature.now in let the_spellings = spellings g (sorts_view places.now) (values_of (map value_view values.now)) in AreDepthsOfAll g values.now parts.now → result ≡ counted (most_term_depth the_spellings) }
{
    let mut most: usize = 0;
    for i in 0..values.len().min(places.len()).min(parts.len()) {
        most = most.max(levels_at(&values[i], &parts[i], signature, &places[i]));
    }
    most
}

/// How many levels a value has at a sort: one more than by itself where `inj` stands around it.
fn levels_at(value: &Value, depths: &Depths, signature: &Signature, sort: &Sort) -> usize
    ensures { let g = signature_view signature.now in let sort' = sort_view sort.now in let value' = value_view value.now in AreDepthsOf g value' depths.now → result ≡ counted (term_depth (spelling g sort' value')) }
{
    if is_home(value, signature, sort) {
        return depths.levels();
    }
    one_more(depths.levels())
}

/// One level more.
fn one_more(levels: usize) -> usize
    ensures { result ≡ counted (suc levels) }
{
    if levels < DEEP { levels + 1 } else { DEEP }
}
