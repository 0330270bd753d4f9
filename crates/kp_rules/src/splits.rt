// Whether a variable under inj leaves its value's heads to sorts of their own.
ghost use Rattle.std.specs.Prelude.{◌≡◌, ◌↔◌, ◌⊎◌, ℕ, IfOk, OnOk, IsTrue, MatchBool};
ghost use Rattle.std.specs.List.{Contains};
ghost use Rattle.kp_kore.specs.View.{sort_view};
ghost use Rattle.kp_kore.specs.Signature.{KoreSignature};
ghost use Rattle.kp_signature.specs.Edges.{IsReachedFrom};
ghost use Rattle.kp_signature.specs.View.{signature_view};
ghost use Rattle.kp_kore.specs.Foreign.{SplitsByHeads};
ghost use Rattle.kp_rules.specs.Index.{IsIndexOf, IsAlone, AreOpposite, OwnsHeads, Under, Over, up, NumbersSplit, SetMeet, IsSettled, Covers, AreNotOver};

use crate::sort_index::SortIndex;
use indexmap::IndexSet;
use kp_kore::Sort;
use kp_signature::Signature;
use kp_signature::edges::{Numbers, add_all, add_if, all_reached, has, reached_from};
use std::alloc::{AllocError, Global};

impl<'a> SortIndex<'a> {
    /// Whether `X:T` under `inj{T,U}` splits by heads: each sort below U that has heads in common with T has a sort
    /// below both with exactly these.
    pub fn splits(
        &self,
        alloc: Global,
        signature: &Signature,
        lower: &Sort,
        upper: &Sort,
    ) -> Result<bool, AllocError>
        requires { IsIndexOf (signature_view signature.now) self.now }
        ensures { let g = signature_view signature.now in let lower' = sort_view lower.now in IfOk result (λ b. MatchBool b (SplitsByHeads g lower' (sort_view upper.now)) (¬ SplitsByHeads g lower' (sort_view upper.now))) }
    {
        let Some(lower) = self.order.number_of(lower) else {
            return Ok(true);
        };
        let Some(upper) = self.order.number_of(upper) else {
            return Ok(true);
        };
        if self.is_alone(lower) {
            return Ok(true);
        }
        self.numbers_split(alloc, lower, upper)
    }

    /// Whether the number is marked as alone.
    pub fn is_alone(&self, number: usize) -> bool
        ensures { (g : KoreSignature) → IsIndexOf g self.now → IsTrue result → IsAlone self.now.order.now.graph number }
    {
        if number < self.alone.len() {
            return self.alone[number];
        }
        false
    }

    /// The same of sorts that have numbers.
    fn numbers_split(&self, alloc: Global, lower: usize, upper: usize) -> Result<bool, AllocError>
        requires { AreOpposite self.now }
        ensures { IfOk result (λ b. IsTrue b ↔ NumbersSplit self.now lower upper) }
    {
        let below = self.down_from(alloc, lower)?;
        let above = self.up_from(alloc, lower)?;
        let under = self.down_from(alloc, upper)?;
        let heads = self.with_heads(alloc, below.as_slice())?;
        let sharing = self.all_above(alloc, &heads)?;
        self.all_settled(alloc, sharing.as_slice(), &under, &below, &above, &heads)
    }

    /// The sort and all sorts below it.
    pub fn down_from(&self, alloc: Global, number: usize) -> Result<Numbers, AllocError>
        ensures { IfOk result (λ found. (j : ℕ) → Contains found.keys j ↔ Under self.now number j) }
    {
        reached_from(alloc, &self.order.graph.below, number)
    }

    /// The sort and all sorts above it.
    pub fn up_from(&self, alloc: Global, number: usize) -> Result<Numbers, AllocError>
        ensures { IfOk result (λ found. (j : ℕ) → Contains found.keys j ↔ Over self.now number j) }
    {
        reached_from(alloc, &self.order.graph.above, number)
    }

    /// The sorts and all sorts above them.
    pub fn all_above(&self, alloc: Global, numbers: &Numbers) -> Result<Numbers, AllocError>
        ensures { IfOk result (λ found. (j : ℕ) → Contains found.keys j ↔ IsReachedFrom (up self.now) numbers.now.keys j) }
    {
        all_reached(alloc, &self.order.graph.above, numbers)
    }

    /// Those that are the own sort of some head.
    pub fn with_heads(&self, alloc: Global, numbers: &[usize]) -> Result<Numbers, AllocError>
        ensures { IfOk result (λ found. (j : ℕ) → Contains found.keys j ↔ (Contains numbers.now j × OwnsHeads self.now j)) }
    {
        let mut found = IndexSet::new(alloc);
        for number in numbers {
            add_if(&mut found, *number, self.owns_heads(*number))?;
        }
        Ok(found)
    }

    /// Whether the sort of this number has heads of its own.
    fn owns_heads(&self, number: usize) -> bool
        ensures { IsTrue result ↔ OwnsHeads self.now number }
    {
        if number < self.heads.len() {
            return self.heads[number];
        }
        false
    }

    /// Whether each of these sorts is settled.
    pub fn all_settled(
        &self,
        alloc: Global,
        numbers: &[usize],
        under: &Numbers,
        below: &Numbers,
        above: &Numbers,
        heads: &Numbers,
    ) -> Result<bool, AllocError>
        ensures { IfOk result (λ b. IsTrue b ↔ ((i : ℕ) → Contains numbers.now i → IsSettled self.now i under.now.keys below.now.keys above.now.keys heads.now.keys)) }
    {
        for number in numbers {
            if !self.is_settled(alloc, *number, under, below, above, heads)? {
                return Ok(false);
            }
        }
        Ok(true)
    }

    /// Whether the number isn't under the upper sort, or shares heads in one sort: of two sorts of which one is below
    /// the other, that one has exactly the common heads.
    fn is_settled(
        &self,
        alloc: Global,
        number: usize,
        under: &Numbers,
        below: &Numbers,
        above: &Numbers,
        heads: &Numbers,
    ) -> Result<bool, AllocError>
        ensures { IfOk result (λ b. IsTrue b ↔ IsSettled self.now number under.now.keys below.now.keys above.now.keys heads.now.keys) }
    {
        if !has(under, number) {
            return Ok(true);
        }
        if has(below, number) {
            return Ok(true);
        }
        if has(above, number) {
            return Ok(true);
        }
        self.has_meet(alloc, number, below, heads)
    }

    /// Whether some sort below both has all heads that are in both.
    fn has_meet(
        &self,
        alloc: Global,
        number: usize,
        below: &Numbers,
        heads: &Numbers,
    ) -> Result<bool, AllocError>
        ensures { IfOk result (λ b. IsTrue b ↔ SetMeet self.now number below.now.keys heads.now.keys) }
    {
        let down = self.down_from(alloc, number)?;
        let common = common(alloc, heads.as_slice(), &down)?;
        self.any_covers(alloc, down.as_slice(), below, common.as_slice())
    }

    /// Whether one of the numbers is among these, and all those others are below it.
    fn any_covers(
        &self,
        alloc: Global,
        numbers: &[usize],
        among: &Numbers,
        others: &[usize],
    ) -> Result<bool, AllocError>
        ensures { IfOk result (λ b. IsTrue b ↔ ((c : ℕ) × Contains numbers.now c × Covers self.now c among.now.keys others.now)) }
    {
        let mut failed = IndexSet::new(alloc);
        for number in numbers {
            if self.covers(alloc, *number, among, others, &mut failed)? {
                return Ok(true);
            }
        }
        Ok(false)
    }

    /// Whether a number is among these, and all those others are below it. Where they aren't, none below it has them
    /// all below it either.
    fn covers(
        &self,
        alloc: Global,
        number: usize,
        among: &Numbers,
        others: &[usize],
        failed: &mut Numbers,
    ) -> Result<bool, AllocError>
        requires { AreNotOver self.now others.now failed.old.keys }
        ensures tells { IfOk result (λ b. IsTrue b ↔ Covers self.now number among.now.keys others.now) }
        ensures kept { OnOk result (AreNotOver self.now others.now failed.new.keys) }
    {
        if !has(among, number) {
            return Ok(false);
        }
        if has(failed, number) {
            return Ok(false);
        }
        let below = self.down_from(alloc, number)?;
        if has_all(&below, others) {
            return Ok(true);
        }
        add_all(failed, below.as_slice())?;
        Ok(false)
    }
}

/// Whether all of the numbers are there.
fn has_all(found: &Numbers, numbers: &[usize]) -> bool
    ensures { IsTrue result ↔ ((j : ℕ) → Contains numbers.now j → Contains found.now.keys j) }
{
    for number in numbers {
        if !has(found, *number) {
            return false;
        }
    }
    true
}

/// The numbers that are in both.
fn common(alloc: Global, numbers: &[usize], others: &Numbers) -> Result<Numbers, AllocError>
    ensures { IfOk result (λ found. (j : ℕ) → Contains found.keys j ↔ (Contains numbers.now j × Contains others.now.keys j)) }
{
    let mut found = IndexSet::new(alloc);
    for number in numbers {
        add_if(&mut found, *number, has(others, *number))?;
    }
    Ok(found)
}
