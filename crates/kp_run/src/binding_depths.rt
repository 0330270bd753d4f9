// The depths of what a left term's variables are bound to, found in those of the value that it matches.
ghost use Rattle.std.specs.Prelude.{◌≡◌, IfOk, List, [], true};
ghost use Rattle.kp_kore.specs.Signature.{KoreSignature};
ghost use Rattle.kp_kore.specs.Syntax.{Text};
ghost use Rattle.kp_kore.specs.Instance.{Valuation};
ghost use Rattle.kp_ground.specs.Slots.{is_numbered, left_places, left_variables, names_after, stands_at, with_name};
ghost use Rattle.kp_run.specs.View.{AreDepthsOf, AreDepthsOfLeft, AreDepthsUnder, AreDepthsOfLefts, places_of_lefts};

use crate::depths::Depths;
use kp_ground::CompiledLeft;
use std::alloc::{AllocError, Global};

/// The depths of what a match binds the left term's variables to, by slot, from those of the value that is matched.
pub fn bound_depths(
    alloc: Global,
    left: &CompiledLeft,
    depths: &Depths,
) -> Result<Vec<Depths>, AllocError>
    ensures { let names = left_variables left.now in IfOk result (λ bound. (g : KoreSignature) (v : Valuation) → is_numbered [] (left_places left.now) ≡ true → AreDepthsOfLeft g v left.now depths.now → AreDepthsUnder g v names bound.items) }
{
    bound_with(left, depths, Vec::new(alloc))
}

/// The same behind what is bound so far.
#[cycle(bound)]
fn bound_with(
    left: &CompiledLeft,
    depths: &Depths,
    bound: Vec<Depths>,
) -> Result<Vec<Depths>, AllocError>
    ensures { let places = left_places left.now in IfOk result (λ more. (g : KoreSignature) (v : Valuation) (xs : List Text) → AreDepthsUnder g v xs bound.items → is_numbered xs places ≡ true → AreDepthsOfLeft g v left.now depths.now → AreDepthsUnder g v (names_after xs places) more.items) }
{
    match left {
        CompiledLeft::Variable { slot, .. } => with_slot(*slot, depths, bound),
        CompiledLeft::Fixed { .. } => Ok(bound),
        CompiledLeft::Built { arguments, .. } => match depths {
            Depths::One => Ok(bound),
            Depths::Built { parts, .. } => bound_with_all(arguments, parts, bound),
        },
    }
}

/// The same of lists, one by one.
#[cycle(bound)]
fn bound_with_all(
    lefts: &[CompiledLeft],
    parts: &[Depths],
    mut bound: Vec<Depths>,
) -> Result<Vec<Depths>, AllocError>
    ensures { let places = places_of_lefts lefts.now in IfOk result (λ more. (g : KoreSignature) (v : Valuation) (xs : List Text) → AreDepthsUnder g v xs bound.items → is_numbered xs places ≡ true → AreDepthsOfLefts g v lefts.now parts.now → AreDepthsUnder g v (names_after xs places) more.items) }
{
    for i in 0..lefts.len().min(parts.len()) {
        bound = bound_with(&lefts[i], &parts[i], bound)?;
    }
    Ok(bound)
}

/// The depths of one variable more, where its slot is the next one: where it isn't, those of the slot are there.
fn with_slot(
    slot: usize,
    depths: &Depths,
    mut bound: Vec<Depths>,
) -> Result<Vec<Depths>, AllocError>
    ensures { IfOk result (λ more. (g : KoreSignature) (v : Valuation) (xs : List Text) (x : Text) → let names = with_name xs x in AreDepthsUnder g v xs bound.items → stands_at names x slot ≡ true → AreDepthsOf g (v x) depths.now → AreDepthsUnder g v names more.items) }
{
    if slot < bound.len() {
        return Ok(bound);
    }
    bound.push(depths.share()?)?;
    Ok(bound)
}
