// Left terms that are a variable alone.
ghost use Rattle.std.specs.Prelude.{◌≡◌, ◌↔◌, ℕ, IfOk, IsTrue, MatchBool};
ghost use Rattle.kp_kore.specs.Foreign.{LoneVariableSplits};
ghost use Rattle.kp_kore.specs.View.{view, sort_view};
ghost use Rattle.kp_signature.specs.View.{signature_view};
ghost use Rattle.kp_rules.specs.Index.{IsIndexOf, AreOpposite};
ghost use Rattle.kp_rule_reading.specs.Lone.{SortSplits, NumberSplits, AreBelow, AreAbove};

use kp_kore::{Pattern, Sort};
use kp_rules::sort_index::SortIndex;
use kp_signature::Signature;
use kp_signature::edges::Numbers;
use std::alloc::{AllocError, Global};

/// Whether the left term isn't a variable alone, or is one of a sort that has a meet with each sort that shares heads
/// with it.
pub fn is_lone_split(
    alloc: Global,
    signature: &Signature,
    index: &SortIndex,
    left: &Pattern,
) -> Result<bool, AllocError>
    requires { IsIndexOf (signature_view signature.now) index.now }
    ensures { let g = signature_view signature.now in IfOk result (λ b. MatchBool b (LoneVariableSplits g (view left.now)) (¬ LoneVariableSplits g (view left.now))) }
{
    match left {
        Pattern::Variable { sort, .. } => sort_splits(alloc, signature, index, sort),
        _ => Ok(true),
    }
}

/// Whether each sort that has heads in common with this one has a sort below both with exactly these.
fn sort_splits(
    alloc: Global,
    signature: &Signature,
    index: &SortIndex,
    sort: &Sort,
) -> Result<bool, AllocError>
    requires { IsIndexOf (signature_view signature.now) index.now }
    ensures { let g = signature_view signature.now in IfOk result (λ b. MatchBool b (SortSplits g (sort_view sort.now)) (¬ SortSplits g (sort_view sort.now))) }
{
    let Some(number) = index.order.number_of(sort) else {
        return Ok(true);
    };
    if index.is_alone(number) {
        return Ok(true);
    }
    number_splits(alloc, index, number)
}

/// The same of a sort that has a number.
fn number_splits(alloc: Global, index: &SortIndex, number: usize) -> Result<bool, AllocError>
    requires { AreOpposite index.now }
    ensures { IfOk result (λ b. IsTrue b ↔ NumberSplits index.now number) }
{
    let below = index.down_from(alloc, number)?;
    let above = index.up_from(alloc, number)?;
    is_settled(alloc, index, &below, &above)
}

/// The same of a number with those below it and those above it.
fn is_settled(
    alloc: Global,
    index: &SortIndex,
    below: &Numbers,
    above: &Numbers,
) -> Result<bool, AllocError>
    requires { AreOpposite index.now }
    ensures { IfOk result (λ b. (t : ℕ) → AreBelow index.now t below.now.keys → AreAbove index.now t above.now.keys → IsTrue b ↔ NumberSplits index.now t) }
{
    let heads = index.with_heads(alloc, below.as_slice())?;
    let sharing = index.all_above(alloc, &heads)?;
    index.all_settled(alloc, sharing.as_slice(), &sharing, below, above, &heads)
}
