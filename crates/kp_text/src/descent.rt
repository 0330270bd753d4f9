ghost use Rattle.std.specs.Prelude.{◌≡◌, ℕ, ◌+◌, ◌<◌, ◌≤◌, List, [], ◌∷◌, map, length, IfOk, IfErr, string_bytes};
ghost use Rattle.kp_kore.specs.Syntax.{Text, KoreSorts, KorePattern};
ghost use Rattle.kp_kore.specs.View.{view, sort_view, sorts_view};
ghost use Rattle.kp_text.specs.Grammar.{next_in_fold, fold_meaning};
ghost use Rattle.kp_text.specs.Next.{Place, a_pattern, patterns, more_folded};
ghost use Rattle.kp_text.specs.Reads.{run_text, failed, Finds, Stops, IsBehind, IsNotBefore};
ghost use Rattle.kp_text.specs.Heads.{head_place, closed_place, some_patterns, one_place, two_place, many_place, fold_place, variadic_fold_place, IsDeep};

use crate::expected::{Separator, mark, mark_ahead, next_separator};
use crate::fault::TextFailure;
use crate::folds::{deeper, folded, next_in_fold};
use crate::forms::variadic;
use crate::heads::{OfMany, OfOne, OfTwo, PatternStart, pattern_head};
use crate::keyword::{FoldSide, Variadic};
use crate::level::Level;
use crate::nesting::nesting;
use crate::patterns::begin;
use crate::tail::Tail;
use kp_kore::sort::Name;
use kp_kore::{Pattern, Sort};
use std::alloc::Global;

/// A pattern at a level, and what comes behind it.
#[cycle(pattern)]
pub fn a_pattern<'a>(
    alloc: Global,
    level: Level,
    text: &'a str,
    tail: Tail,
) -> Result<(Pattern, &'a str), TextFailure>
    requires written { level.written ≤ level.reached }
    requires meant { level.meant ≤ level.reached }
    ensures found { IfOk result (λ x. Finds tail text.now (a_pattern level) (view x.0) x.1.now) }
    ensures fault { IfErr result (Stops tail text.now (a_pattern level)) }
    ensures shallow { IfOk result (λ x. level.reached ≤ 256) }
    ensures behind { IfOk result (λ x. IsBehind x.1.now text.now) }
{
    let (beginning, rest) = begin(alloc, level, text, tail)?;
    let (head, rest) = pattern_head(alloc, level, beginning, rest, tail)?;
    with_patterns(alloc, level, head, rest, tail)
}

/// A pattern whose head was read.
#[cycle(pattern)]
fn with_patterns<'a>(
    alloc: Global,
    level: Level,
    head: PatternStart,
    text: &'a str,
    tail: Tail,
) -> Result<(Pattern, &'a str), TextFailure>
    requires written { level.written ≤ 256 }
    requires meant { level.meant ≤ 256 }
    ensures found { IfOk result (λ x. Finds tail text.now (head_place level head) (view x.0) x.1.now) }
    ensures fault { IfErr result (Stops tail text.now (head_place level head)) }
    ensures behind { IfOk result (λ x. IsNotBefore x.1.now text.now) }
{
    match head {
        PatternStart::Whole(pattern) => Ok((pattern, text)),
        PatternStart::One(form) => with_one(alloc, level, form, text, tail),
        PatternStart::Two(form) => with_two(alloc, level, form, text, tail),
        PatternStart::Many(form) => with_many(alloc, level, form, text, tail),
        PatternStart::Fold {
            side,
            symbol,
            sorts,
        } => with_members(alloc, level, side, symbol, sorts, text, tail),
        PatternStart::VariadicFold { variadic, sort } => {
            with_variadic(alloc, level, variadic, sort, text, tail)
        }
    }
}

/// A pattern and the mark behind it, and what comes behind that.
#[cycle(pattern)]
fn closed_pattern<'a>(
    alloc: Global,
    level: Level,
    close: char,
    text: &'a str,
    tail: Tail,
) -> Result<(Box<Pattern>, &'a str), TextFailure>
    requires written { level.written ≤ level.reached }
    requires meant { level.meant ≤ level.reached }
    ensures found { IfOk result (λ x. Finds tail text.now (closed_place level close) (view x.0.value) x.1.now) }
    ensures fault { IfErr result (Stops tail text.now (closed_place level close)) }
    ensures behind { IfOk result (λ x. IsBehind x.1.now text.now) }
{
    let (pattern, rest) = a_pattern(alloc, level, text, tail)?;
    let rest = mark(alloc, close, rest, tail)?;
    Ok((Box::new(alloc, pattern)?, rest))
}

/// `p)` in a form.
#[cycle(pattern)]
fn with_one<'a>(
    alloc: Global,
    level: Level,
    form: OfOne,
    text: &'a str,
    tail: Tail,
) -> Result<(Pattern, &'a str), TextFailure>
    requires written { level.written ≤ 256 }
    requires meant { level.meant ≤ 256 }
    ensures found { IfOk result (λ x. Finds tail text.now (one_place level form) (view x.0) x.1.now) }
    ensures fault { IfErr result (Stops tail text.now (one_place level form)) }
    ensures behind { IfOk result (λ x. IsNotBefore x.1.now text.now) }
{
    let (pattern, rest) = closed_pattern(alloc, level.below(), ')', text, tail)?;
    Ok((form.with(pattern), rest))
}

/// `p,q)` in a form.
#[cycle(pattern)]
fn with_two<'a>(
    alloc: Global,
    level: Level,
    form: OfTwo,
    text: &'a str,
    tail: Tail,
) -> Result<(Pattern, &'a str), TextFailure>
    requires written { level.written ≤ 256 }
    requires meant { level.meant ≤ 256 }
    ensures found { IfOk result (λ x. Finds tail text.now (two_place level form) (view x.0) x.1.now) }
    ensures fault { IfErr result (Stops tail text.now (two_place level form)) }
    ensures behind { IfOk result (λ x. IsNotBefore x.1.now text.now) }
{
    let (left, rest) = closed_pattern(alloc, level.below(), ',', text, tail)?;
    let (right, rest) = closed_pattern(alloc, level.below(), ')', rest, tail)?;
    Ok((form.with(left, right), rest))
}

/// Patterns and `)` in a form.
#[cycle(pattern)]
fn with_many<'a>(
    alloc: Global,
    level: Level,
    form: OfMany,
    text: &'a str,
    tail: Tail,
) -> Result<(Pattern, &'a str), TextFailure>
    requires written { level.written ≤ 256 }
    requires meant { level.meant ≤ 256 }
    ensures found { IfOk result (λ x. Finds tail text.now (many_place level form) (view x.0) x.1.now) }
    ensures fault { IfErr result (Stops tail text.now (many_place level form)) }
    ensures behind { IfOk result (λ x. IsNotBefore x.1.now text.now) }
{
    let (members, rest) = patterns(alloc, level.below(), ')', text, tail)?;
    Ok((form.with(members), rest))
}

/// Patterns and `))` in a fold of `\and` or `\or`.
#[cycle(pattern)]
fn with_variadic<'a>(
    alloc: Global,
    level: Level,
    form: Variadic,
    sort: Sort,
    text: &'a str,
    tail: Tail,
) -> Result<(Pattern, &'a str), TextFailure>
    requires written { level.written ≤ 256 }
    requires meant { level.meant ≤ 256 }
    ensures found { IfOk result (λ x. Finds tail text.now (variadic_fold_place level form (sort_view sort)) (view x.0) x.1.now) }
    ensures fault { IfErr result (Stops tail text.now (variadic_fold_place level form (sort_view sort))) }
    ensures behind { IfOk result (λ x. IsNotBefore x.1.now text.now) }
{
    let (members, rest) = patterns(alloc, level.in_fold().below(), ')', text, tail)?;
    let rest = mark(alloc, ')', rest, tail)?;
    Ok((variadic(form, sort, members), rest))
}

/// Patterns with commas between them, and what comes behind the mark that closes them.
#[cycle(pattern)]
#[tactic(auto, using(crate::proofs::InPatterns::patterns_are_none, crate::proofs::InPatterns::patterns_begin))]
pub fn patterns<'a>(
    alloc: Global,
    level: Level,
    close: char,
    text: &'a str,
    tail: Tail,
) -> Result<(Vec<Pattern>, &'a str), TextFailure>
    requires written { level.written ≤ level.reached }
    requires meant { level.meant ≤ level.reached }
    ensures found { IfOk result (λ x. Finds tail text.now (patterns level close) (map view x.0.items) x.1.now) }
    ensures fault { IfErr result (Stops tail text.now (patterns level close)) }
    ensures behind { IfOk result (λ x. IsBehind x.1.now text.now) }
{
    match mark_ahead(alloc, close, text, tail)? {
        Some(rest) => Ok((Vec::new(alloc), rest)),
        None => some_patterns(alloc, level, close, text, tail),
    }
}

/// Patterns with commas between them, one at least, and what comes behind the mark that closes them.
#[cycle(pattern)]
#[tactic(auto, using(crate::proofs::InPatterns::patterns_close, crate::proofs::InPatterns::patterns_go_on, crate::proofs::InPatterns::patterns_separated))]
fn some_patterns<'a>(
    alloc: Global,
    level: Level,
    close: char,
    text: &'a str,
    tail: Tail,
) -> Result<(Vec<Pattern>, &'a str), TextFailure>
    requires written { level.written ≤ level.reached }
    requires meant { level.meant ≤ level.reached }
    ensures found { IfOk result (λ x. Finds tail text.now (some_patterns level close) (map view x.0.items) x.1.now) }
    ensures fault { IfErr result (Stops tail text.now (some_patterns level close)) }
    ensures behind { IfOk result (λ x. IsBehind x.1.now text.now) }
{
    let mut patterns = Vec::new(alloc);
    let mut rest = text;
    loop {
        let (pattern, after) = a_pattern(alloc, level, rest, tail)?;
        patterns.push(pattern)?;
        match next_separator(alloc, close, after, tail)? {
            Separator::Close(behind) => return Ok((patterns, behind)),
            Separator::Comma(behind) => rest = behind,
        }
    }
}

/// The members of an application in a fold, and the mark that closes the fold.
#[cycle(pattern)]
fn with_members<'a>(
    alloc: Global,
    level: Level,
    side: FoldSide,
    symbol: Name,
    sorts: Vec<Sort>,
    text: &'a str,
    tail: Tail,
) -> Result<(Pattern, &'a str), TextFailure>
    requires written { level.written ≤ 256 }
    requires meant { level.meant ≤ 256 }
    ensures found { IfOk result (λ x. Finds tail text.now (fold_place level side (string_bytes symbol) (sorts_view sorts.items)) (view x.0) x.1.now) }
    ensures fault { IfErr result (Stops tail text.now (fold_place level side (string_bytes symbol) (sorts_view sorts.items))) }
    ensures behind { IfOk result (λ x. IsNotBefore x.1.now text.now) }
{
    let (first, rest) = a_pattern(alloc, level.first_in_fold(), text, tail)?;
    let (others, rest) = more_folded(alloc, level, side, &first, rest, tail)?;
    let rest = mark(alloc, ')', rest, tail)?;
    Ok((folded(alloc, side, &symbol, &sorts, first, others)?, rest))
}

/// The members of an application in a fold after the first.
#[cycle(pattern)]
#[tactic(auto, using(crate::proofs::InPatterns::fold_closes, crate::proofs::InPatterns::fold_goes_on, crate::proofs::InPatterns::fold_separated, crate::proofs::Depths::deep_first))]
fn more_folded<'a>(
    alloc: Global,
    level: Level,
    side: FoldSide,
    first: &Pattern,
    text: &'a str,
    tail: Tail,
) -> Result<(Vec<Pattern>, &'a str), TextFailure>
    requires written { level.written ≤ 256 }
    requires meant { level.meant ≤ 256 }
    ensures found { let first' = view first.now in IfOk result (λ x. (f : Text) (ss : KoreSorts) (k : KorePattern → Place) → run_text tail x.1.now (k (fold_meaning side f ss first' (map view x.0.items))) ≡ run_text tail text.now (more_folded side f ss level first' [] k)) }
    ensures fault { IfErr result (λ e. (f : Text) (ss : KoreSorts) → Stops tail text.now (more_folded side f ss level (view first.now) []) e) }
    ensures behind { IfOk result (λ x. IsBehind x.1.now text.now) }
{
    let mut others = Vec::new(alloc);
    let mut deep = nesting(first);
    let mut rest = text;
    loop {
        match next_separator(alloc, ')', rest, tail)? {
            Separator::Close(behind) => return Ok((others, behind)),
            Separator::Comma(behind) => {
                let (member, after) = a_member(
                    alloc,
                    level,
                    side,
                    others.len(),
                    deep,
                    behind,
                    tail,
                )?;
                deep = deeper(side, others.len(), deep, nesting(&member));
                others.push(member)?;
                rest = after;
            }
        }
    }
}

/// A member of a fold after the first and some others, which nest so deep.
#[cycle(pattern)]
#[tactic(auto, using(crate::proofs::Alike::alike))]
fn a_member<'a>(
    alloc: Global,
    level: Level,
    side: FoldSide,
    others: usize,
    deep: usize,
    text: &'a str,
    tail: Tail,
) -> Result<(Pattern, &'a str), TextFailure>
    requires written { level.written ≤ 256 }
    requires meant { level.meant ≤ 256 }
    requires others { others < deep }
    requires deep { deep ≤ 1000 }
    ensures found { IfOk result (λ x. (f : Text) (ss : KoreSorts) (p : KorePattern) (ps : List KorePattern) → let member_level = next_in_fold side f ss level p ps in length ps ≡ others → IsDeep side p ps deep → Finds tail text.now (a_pattern member_level) (view x.0) x.1.now) }
    ensures fault { IfErr result (λ e. (f : Text) (ss : KoreSorts) (p : KorePattern) (ps : List KorePattern) → let member_level = next_in_fold side f ss level p ps in length ps ≡ others → IsDeep side p ps deep → Stops tail text.now (a_pattern member_level) e) }
    ensures shallow { IfOk result (λ x. deep ≤ 256) }
    ensures behind { IfOk result (λ x. IsBehind x.1.now text.now) }
{
    let inner = next_in_fold(level, side, others, deep);
    a_pattern(alloc, inner, text, tail)
}
