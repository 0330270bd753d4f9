// Patterns in the order of their texts.
ghost use Rattle.std.specs.Prelude.{◌≡◌, ◌↔◌, ◌++◌, [], ◌∷◌, IfOk, IsTrue};
ghost use Rattle.std.specs.List.{Contains};
ghost use Rattle.std.specs.List.Sorted.{IsPermutation};
ghost use Rattle.kp_outward.specs.Order.{AreInOrder, IsOrderedOnce};
ghost use Rattle.kp_outward.specs.View.{patterns_in, spelled_view};

use crate::texts::Spelled;
use std::alloc::{AllocError, Global};

/// Puts the patterns in order.
pub fn put_in_order(spelled: &mut Vec<Spelled>)
    ensures same { IsPermutation spelled.old.items spelled.new.items }
    ensures in_order { AreInOrder (patterns_in spelled.new.items) }
{
    spelled.sort_unstable_by(|left, right| left.text.cmp(&right.text));
}

/// Whether both have one text.
fn have_same_text(one: &Spelled, other: &Spelled) -> bool
    ensures { IsTrue result ↔ (one.now.text.items ≡ other.now.text.items) }
{
    one.text == other.text
}

/// Whether both are the same pattern.
fn are_same(one: &Spelled, other: &Spelled) -> bool
    ensures { IsTrue result ↔ (spelled_view one.now ≡ spelled_view other.now) }
{
    one.pattern.equal(&other.pattern)
}

/// Whether a pattern is among others that stand before it in order.
fn is_kept(kept: &[Spelled], one: &Spelled) -> bool
    requires in_order { AreInOrder (patterns_in kept.now ++ spelled_view one.now ∷ []) }
    ensures { IsTrue result ↔ Contains (patterns_in kept.now) (spelled_view one.now) }
{
    let mut left = kept.len();
    while left > 0 {
        left -= 1;
        if !have_same_text(&kept[left], one) {
            return false;
        }
        if are_same(&kept[left], one) {
            return true;
        }
    }
    false
}

/// Of patterns in order each once.
pub fn each_once(alloc: Global, spelled: Vec<Spelled>) -> Result<Vec<Spelled>, AllocError>
    requires in_order { AreInOrder (patterns_in spelled.items) }
    ensures { IfOk result (λ kept. IsOrderedOnce (patterns_in spelled.items) (patterns_in kept.items)) }
{
    let mut kept = Vec::new(alloc);
    for one in spelled {
        if !is_kept(&kept, &one) {
            kept.push(one)?;
        }
    }
    Ok(kept)
}
