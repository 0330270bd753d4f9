// The pattern that follows a rule with new variables or an ensured condition.
ghost use Rattle.std.specs.Prelude.{◌≡◌, ◌++◌, not, IfOk, OnOk, map, string_bytes};
ghost use Rattle.kp_kore.specs.Syntax.{variable as variable_at, equals, conjunction};
ghost use Rattle.std.specs.List.{filter};
ghost use Rattle.kp_kore.specs.View.{view, sort_view, patterns_view, sorted_variable_view};
ghost use Rattle.kp_pattern_substitution.specs.Seen.{replacements_view};
ghost use Rattle.kp_rules.specs.Known.{is_among as member_of};
ghost use Rattle.kp_successors.specs.Choices.{is_top as top_test, equal_to_itself as equality_of, constrained_by, ensured_with, unused, chosen_pattern};
ghost use Rattle.kp_successors.specs.Nexts.{new_of, ensured_of};

use crate::member::{free_beside, is_among};
use kp_kore::{Pattern, Sort, SortedVariable};
use kp_pattern_substitution::{Replacement, substitute};
use kp_rules::RightSide;
use std::alloc::{AllocError, Global};

/// The right side with these terms put in: the term beside the ensured condition, and beside the equalities of the new
/// variables that stand in neither.
pub fn chosen(
    alloc: Global,
    sort: &Sort,
    side: &RightSide,
    replacements: &[Replacement],
) -> Result<Pattern, AllocError>
    ensures { let sort' = sort_view sort.now in let replacements' = replacements_view replacements.now in IfOk result (λ p. view p ≡ chosen_pattern sort' replacements' (view side.now.term) (ensured_of side.now) (new_of side.now)) }
{
    let mut predicates = ensured(alloc, &side.ensured, replacements)?;
    let free = free_beside(alloc, side)?;
    add_unused(alloc, sort, &side.new_variables, &free, &mut predicates)?;
    let term = substitute(alloc, &side.term, replacements)?;
    constrained(alloc, sort, term, predicates)
}

/// The ensured condition but for each `\top`, with the terms put in.
fn ensured(
    alloc: Global,
    predicates: &[Pattern],
    replacements: &[Replacement],
) -> Result<Vec<Pattern>, AllocError>
    ensures { IfOk result (λ ps. map view ps.items ≡ ensured_with (replacements_view replacements.now) (map view predicates.now)) }
{
    let mut found = Vec::new(alloc);
    for predicate in predicates {
        if !is_top(predicate) {
            found.push(substitute(alloc, predicate, replacements)?)?;
        }
    }
    Ok(found)
}

/// Whether it is `\top`.
fn is_top(pattern: &Pattern) -> bool
    ensures { result ≡ top_test (view pattern.now) }
{
    match pattern {
        Pattern::Top { .. } => true,
        _ => false,
    }
}

/// For each of the variables that isn't among the others, that it is equal to itself.
fn add_unused(
    alloc: Global,
    sort: &Sort,
    variables: &[SortedVariable],
    others: &[SortedVariable],
    patterns: &mut Vec<Pattern>,
) -> Result<(), AllocError>
    ensures { let others' = map sorted_variable_view others.now in
        OnOk result (map view patterns.new.items ≡ map view patterns.old.items
        ++ map (equality_of (sort_view sort.now)) (filter (λ x. not (member_of x others')) (map sorted_variable_view variables.now))) }
{
    for variable in variables {
        if !is_among(variable, others) {
            patterns.push(equal_to_itself(alloc, sort, variable)?)?;
        }
    }
    Ok(())
}

/// `\equals{T,S}(x:T, x:T)`.
fn equal_to_itself(
    alloc: Global,
    sort: &Sort,
    variable: &SortedVariable,
) -> Result<Pattern, AllocError>
    ensures { IfOk result (λ p. view p ≡ equality_of (sort_view sort.now) (sorted_variable_view variable.now)) }
{
    let left = variable_of(alloc, variable)?;
    let right = variable_of(alloc, variable)?;
    equality(alloc, variable.sort.copy(alloc)?, sort, left, right)
}

/// The `\equals` of two patterns.
fn equality(
    alloc: Global,
    argument_sort: Sort,
    sort: &Sort,
    left: Pattern,
    right: Pattern,
) -> Result<Pattern, AllocError>
    ensures { IfOk result (λ p. view p ≡ equals (sort_view argument_sort) (sort_view sort.now) (view left) (view right)) }
{
    Ok(Pattern::Equals {
        argument_sort,
        sort: sort.copy(alloc)?,
        left: Box::new(alloc, left)?,
        right: Box::new(alloc, right)?,
    })
}

/// The variable as a pattern.
fn variable_of(alloc: Global, variable: &SortedVariable) -> Result<Pattern, AllocError>
    ensures { IfOk result (λ p. view p ≡ variable_at (string_bytes variable.now.name) (sort_view variable.now.sort)) }
{
    Ok(Pattern::Variable {
        name: variable.name.clone()?,
        sort: variable.sort.copy(alloc)?,
    })
}

/// The term alone, or beside predicates.
fn constrained(
    alloc: Global,
    sort: &Sort,
    term: Pattern,
    predicates: Vec<Pattern>,
) -> Result<Pattern, AllocError>
    ensures { IfOk result (λ p. view p ≡ constrained_by (sort_view sort.now) (view term) (map view predicates.items)) }
{
    if predicates.is_empty() {
        return Ok(term);
    }
    let mut patterns = predicates;
    patterns.insert(0, term)?;
    conjoined(alloc, sort, patterns)
}

/// The `\and` of these patterns.
fn conjoined(alloc: Global, sort: &Sort, patterns: Vec<Pattern>) -> Result<Pattern, AllocError>
    ensures { IfOk result (λ p. view p ≡ conjunction (sort_view sort.now) (patterns_view patterns.items)) }
{
    Ok(Pattern::And {
        sort: sort.copy(alloc)?,
        patterns,
    })
}
