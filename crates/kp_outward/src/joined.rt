// Patterns joined by `\or` and `\and`.
ghost use Rattle.std.specs.Prelude.{◌≡◌, ◌++◌, IfOk, OnOk, map};
ghost use Rattle.std.specs.Option.{option_map};
ghost use Rattle.kp_kore.specs.Syntax.{bottom, disjunction};
ghost use Rattle.kp_kore.specs.View.{view, sort_view, patterns_of};
ghost use Rattle.kp_outward.specs.Joined.{beside_term, joined_all};
ghost use Rattle.kp_outward.specs.View.{patterns_in, spelled_view};

use crate::texts::Spelled;
use kp_kore::{Pattern, Sort};
use kp_pattern_substitution::build::{conjunction_of, disjunction_of};
use std::alloc::{AllocError, Global};

/// `\bottom`.
pub fn bottom_out(alloc: Global, sort: &Sort) -> Result<Box<Pattern>, AllocError>
    ensures { IfOk result (λ p. view p.value ≡ bottom (sort_view sort.now)) }
{
    let pattern = Pattern::Bottom {
        sort: sort.copy(alloc)?,
    };
    Ok(Box::new(alloc, pattern)?)
}

/// Adds the patterns without their texts.
fn add_patterns(found: &mut Vec<Pattern>, spelled: Vec<Spelled>) -> Result<(), AllocError>
    ensures { OnOk result (map view found.new.items ≡ map view found.old.items ++ patterns_in spelled.items) }
{
    for one in spelled {
        let Spelled { pattern, .. } = one;
        found.push(Box::into_inner(pattern))?;
    }
    Ok(())
}

/// The `\or` of these patterns.
pub fn either_out(
    alloc: Global,
    sort: &Sort,
    spelled: Vec<Spelled>,
) -> Result<Box<Pattern>, AllocError>
    ensures { IfOk result (λ p. view p.value ≡ disjunction (sort_view sort.now) (patterns_of (patterns_in spelled.items))) }
{
    let mut patterns = Vec::new(alloc);
    add_patterns(&mut patterns, spelled)?;
    Ok(Box::new(alloc, disjunction_of(alloc, sort, patterns)?)?)
}

/// The `\and` of several patterns, one alone, and none of none.
pub fn all_out(
    alloc: Global,
    sort: &Sort,
    mut spelled: Vec<Spelled>,
) -> Result<Option<Box<Pattern>>, AllocError>
    ensures { IfOk result (λ o. option_map (λ p. view p.value) o ≡ joined_all (sort_view sort.now) (patterns_in spelled.items)) }
{
    if spelled.len() < 2 {
        return Ok(last_of(spelled.pop()));
    }
    let mut patterns = Vec::new(alloc);
    add_patterns(&mut patterns, spelled)?;
    Ok(Some(Box::new(alloc, conjunction_of(alloc, sort, patterns)?)?))
}

/// The pattern, if there is one.
fn last_of(spelled: Option<Spelled>) -> Option<Box<Pattern>>
    ensures { option_map (λ p. view p.value) result ≡ option_map spelled_view spelled }
{
    match spelled {
        Some(Spelled { pattern, .. }) => Some(pattern),
        None => None,
    }
}

/// A term alone, or the `\and` of the term and these patterns.
pub fn beside_out(
    alloc: Global,
    sort: &Sort,
    term: Box<Pattern>,
    spelled: Vec<Spelled>,
) -> Result<Box<Pattern>, AllocError>
    ensures { IfOk result (λ p. view p.value ≡ beside_term (sort_view sort.now) (view term.value) (patterns_in spelled.items)) }
{
    if spelled.is_empty() {
        return Ok(term);
    }
    let mut patterns = Vec::new(alloc);
    patterns.push(Box::into_inner(term))?;
    add_patterns(&mut patterns, spelled)?;
    Ok(Box::new(alloc, conjunction_of(alloc, sort, patterns)?)?)
}
