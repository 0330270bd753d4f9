ghost use Rattle.std.specs.Prelude.{◌≡◌, ℕ, ◌+◌, ◌<◌, ◌≤◌, min, List, [], ◌∷◌, ◌++◌, map, length, IfOk, string_bytes};
ghost use Rattle.kp_kore.specs.Syntax.{Text, KoreSorts, KorePattern};
ghost use Rattle.kp_kore.specs.Parts.{nesting};
ghost use Rattle.kp_kore.specs.Folds.{applied_to_two, left_nested, right_nested};
ghost use Rattle.kp_kore.specs.View.{view, sorts_view, patterns_view};
ghost use Rattle.kp_text.specs.Grammar.{next_in_fold, fold_meaning};
ghost use Rattle.kp_text.specs.Heads.{depth_after, IsDeep, IsAlike};

use crate::keyword::FoldSide;
use crate::level::Level;
use kp_kore::sort::Name;
use kp_kore::{Pattern, Sort};
use std::alloc::{AllocError, Global};

/// How much deeper than the fold a member after so many others stands, at least.
fn depth_after(side: FoldSide, others: usize) -> usize
    requires { others < 1000 }
    ensures same { result ≡ depth_after side others }
    ensures bound { result ≤ others + 1 }
{
    match side {
        FoldSide::Left => 1,
        FoldSide::Right => others + 1,
    }
}

/// Where a member of a fold stands that comes after the first and some others, which nest so deep as meant.
pub fn next_in_fold(level: Level, side: FoldSide, others: usize, deep: usize) -> Level
    requires written { level.written ≤ 256 }
    requires meant { level.meant ≤ 256 }
    requires others { others < deep }
    requires deep { deep ≤ 1000 }
    ensures alike { (f : Text) (ss : KoreSorts) (p : KorePattern) (ps : List KorePattern) → let member_level = next_in_fold side f ss level p ps in length ps ≡ others → IsDeep side p ps deep → IsAlike result member_level }
    ensures written { result.written ≤ result.reached }
    ensures meant { result.meant ≤ result.reached }
    ensures deep { deep ≤ result.reached }
{
    Level {
        written: level.written + 2,
        meant: level.meant + depth_after(side, others),
        reached: (level.written + 2).max(level.meant + deep),
    }
}

/// How deep a fold nests with one more member.
pub fn deeper(side: FoldSide, others: usize, deep: usize, member: usize) -> usize
    requires others { others < deep }
    requires deep { deep ≤ 256 }
    requires some { 1 ≤ member }
    requires member { member ≤ 257 }
    ensures same { (p q : KorePattern) (ps : List KorePattern) → length ps ≡ others → member ≡ min (nesting q) 257 → IsDeep side p ps deep → IsDeep side p (ps ++ q ∷ []) result }
    ensures more { others + 1 < result }
    ensures bound { result ≤ 1000 }
{
    match side {
        FoldSide::Left => deep.max(member) + 1,
        FoldSide::Right => deep.max(others + 1 + member),
    }
}

/// An application of two.
fn applied(
    alloc: Global,
    symbol: &Name,
    sorts: &[Sort],
    left: Pattern,
    right: Pattern,
) -> Result<Pattern, AllocError>
    ensures { IfOk result (λ p. view p ≡ applied_to_two (string_bytes symbol.now) (sorts_view sorts.now) (view left) (view right)) }
{
    let mut arguments = Vec::new(alloc);
    arguments.push(left)?;
    arguments.push(right)?;
    Ok(Pattern::Application {
        symbol: symbol.clone()?,
        sorts: Sort::copy_all(alloc, sorts)?,
        arguments,
    })
}

/// An application of a first member and others, from the left.
#[tactic(auto, using(crate::proofs::Nests::left_goes_on))]
fn fold_left(
    alloc: Global,
    symbol: &Name,
    sorts: &[Sort],
    first: Pattern,
    others: Vec<Pattern>,
) -> Result<Pattern, AllocError>
    ensures { IfOk result (λ p. view p ≡ left_nested (string_bytes symbol.now) (sorts_view sorts.now) (view first) (patterns_view others.items)) }
{
    let mut folded = first;
    for other in others {
        folded = applied(alloc, symbol, sorts, folded, other)?;
    }
    Ok(folded)
}

/// An application of a first member and others, from the right.
#[tactic(auto, using(crate::proofs::Nests::right_begins, crate::proofs::Nests::right_goes_on))]
fn fold_right(
    alloc: Global,
    symbol: &Name,
    sorts: &[Sort],
    first: Pattern,
    others: Vec<Pattern>,
) -> Result<Pattern, AllocError>
    ensures { IfOk result (λ p. view p ≡ right_nested (string_bytes symbol.now) (sorts_view sorts.now) (view first) (patterns_view others.items)) }
{
    let mut others = others;
    let Some(last) = others.pop() else {
        return Ok(first);
    };
    let mut folded = last;
    while let Some(other) = others.pop() {
        folded = applied(alloc, symbol, sorts, other, folded)?;
    }
    applied(alloc, symbol, sorts, first, folded)
}

/// What a fold means.
pub fn folded(
    alloc: Global,
    side: FoldSide,
    symbol: &Name,
    sorts: &[Sort],
    first: Pattern,
    others: Vec<Pattern>,
) -> Result<Pattern, AllocError>
    ensures { IfOk result (λ p. view p ≡ fold_meaning side (string_bytes symbol.now) (sorts_view sorts.now) (view first) (map view others.items)) }
{
    match side {
        FoldSide::Left => fold_left(alloc, symbol, sorts, first, others),
        FoldSide::Right => fold_right(alloc, symbol, sorts, first, others),
    }
}
