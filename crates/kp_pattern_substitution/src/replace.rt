// Substitution on all forms of patterns.
ghost use Rattle.std.specs.Prelude.{◌≡◌, IfOk, string_bytes};
ghost use Rattle.kp_kore.specs.View.{view, sort_view, patterns_view};
ghost use Rattle.kp_pattern_substitution.specs.Substitution.{substituted, all_substituted, put_for, hiding};
ghost use Rattle.kp_pattern_substitution.specs.Seen.{replacements_view, lent_view};

use crate::build;
use kp_kore::{Name, Pattern, Sort};
use std::alloc::{AllocError, Global};

/// What stands for the variables of a name.
#[derive(Drop)]
pub struct Replacement {
    pub name: Name,
    pub term: Pattern,
}

/// The pattern with these terms in the places of its free variables; of two for one name the first.
pub fn substitute(
    alloc: Global,
    pattern: &Pattern,
    replacements: &[Replacement],
) -> Result<Pattern, AllocError>
    ensures { IfOk result (λ p. view p ≡ substituted (replacements_view replacements.now) (view pattern.now)) }
{
    let lent = lend(alloc, replacements)?;
    put(pattern, alloc, &lent)
}

/// The replacements, lent one by one.
fn lend<'a>(
    alloc: Global,
    replacements: &'a [Replacement],
) -> Result<Vec<&'a Replacement>, AllocError>
    ensures { IfOk result (λ rs. lent_view rs.items ≡ replacements_view replacements.now) }
{
    let mut lent = Vec::new(alloc);
    for replacement in replacements {
        lent.push(replacement)?;
    }
    Ok(lent)
}

/// The pattern with the replacements put in.
#[cycle(put)]
fn put(
    pattern: &Pattern,
    alloc: Global,
    replacements: &[&Replacement],
) -> Result<Pattern, AllocError>
    ensures { IfOk result (λ p. view p ≡ substituted (lent_view replacements.now) (view pattern.now)) }
{
    match pattern {
        Pattern::Variable { name, sort } => put_variable(alloc, name, sort, replacements),
        Pattern::SetVariable { .. }
        | Pattern::StringLiteral { .. }
        | Pattern::Literal { .. }
        | Pattern::Top { .. }
        | Pattern::Bottom { .. } => pattern.copy(alloc),
        Pattern::Application {
            symbol,
            sorts,
            arguments,
        } => {
            let arguments = put_all(arguments, alloc, replacements)?;
            build::application_of(alloc, symbol, sorts, arguments)
        }
        Pattern::Not { sort, pattern } => {
            let pattern = put_box(pattern, alloc, replacements)?;
            build::negation_of(alloc, sort, pattern)
        }
        Pattern::Next { sort, pattern } => {
            let pattern = put_box(pattern, alloc, replacements)?;
            build::next_of(alloc, sort, pattern)
        }
        Pattern::And { sort, patterns } => {
            let patterns = put_all(patterns, alloc, replacements)?;
            build::conjunction_of(alloc, sort, patterns)
        }
        Pattern::Or { sort, patterns } => {
            let patterns = put_all(patterns, alloc, replacements)?;
            build::disjunction_of(alloc, sort, patterns)
        }
        Pattern::Implies { sort, left, right } => {
            let left = put_box(left, alloc, replacements)?;
            let right = put_box(right, alloc, replacements)?;
            build::implication_of(alloc, sort, left, right)
        }
        Pattern::Iff { sort, left, right } => {
            let left = put_box(left, alloc, replacements)?;
            let right = put_box(right, alloc, replacements)?;
            build::equivalence_of(alloc, sort, left, right)
        }
        Pattern::Rewrites { sort, left, right } => {
            let left = put_box(left, alloc, replacements)?;
            let right = put_box(right, alloc, replacements)?;
            build::rewriting_of(alloc, sort, left, right)
        }
        Pattern::Exists {
            sort,
            name,
            name_sort,
            pattern,
        } => {
            let others = hide(alloc, name, replacements)?;
            let pattern = put_box(pattern, alloc, &others)?;
            build::exists_of(alloc, sort, name, name_sort, pattern)
        }
        Pattern::Forall {
            sort,
            name,
            name_sort,
            pattern,
        } => {
            let others = hide(alloc, name, replacements)?;
            let pattern = put_box(pattern, alloc, &others)?;
            build::forall_of(alloc, sort, name, name_sort, pattern)
        }
        Pattern::Ceil {
            argument_sort,
            sort,
            pattern,
        } => {
            let pattern = put_box(pattern, alloc, replacements)?;
            build::ceil_of(alloc, argument_sort, sort, pattern)
        }
        Pattern::Floor {
            argument_sort,
            sort,
            pattern,
        } => {
            let pattern = put_box(pattern, alloc, replacements)?;
            build::floor_of(alloc, argument_sort, sort, pattern)
        }
        Pattern::Equals {
            argument_sort,
            sort,
            left,
            right,
        } => {
            let left = put_box(left, alloc, replacements)?;
            let right = put_box(right, alloc, replacements)?;
            build::equals_of(alloc, argument_sort, sort, left, right)
        }
        Pattern::In {
            argument_sort,
            sort,
            left,
            right,
        } => {
            let left = put_box(left, alloc, replacements)?;
            let right = put_box(right, alloc, replacements)?;
            build::membership_of(alloc, argument_sort, sort, left, right)
        }
        Pattern::Mu {
            name,
            sort,
            pattern,
        } => {
            let pattern = put_box(pattern, alloc, replacements)?;
            build::mu_of(alloc, name, sort, pattern)
        }
        Pattern::Nu {
            name,
            sort,
            pattern,
        } => {
            let pattern = put_box(pattern, alloc, replacements)?;
            build::nu_of(alloc, name, sort, pattern)
        }
    }
}

/// The pattern with the replacements put in, boxed.
#[cycle(put)]
fn put_box(
    pattern: &Pattern,
    alloc: Global,
    replacements: &[&Replacement],
) -> Result<Box<Pattern>, AllocError>
    ensures { IfOk result (λ p. view p.value ≡ substituted (lent_view replacements.now) (view pattern.now)) }
{
    Ok(Box::new(alloc, put(pattern, alloc, replacements)?)?)
}

/// The patterns with the replacements put in.
#[cycle(put)]
fn put_all(
    patterns: &[Pattern],
    alloc: Global,
    replacements: &[&Replacement],
) -> Result<Vec<Pattern>, AllocError>
    ensures { IfOk result (λ ps. patterns_view ps.items ≡ all_substituted (lent_view replacements.now) (patterns_view patterns.now)) }
{
    let mut found = Vec::new(alloc);
    for pattern in patterns {
        found.push(put(pattern, alloc, replacements)?)?;
    }
    Ok(found)
}

/// The first term for the variable's name, or the variable.
fn put_variable(
    alloc: Global,
    name: &Name,
    sort: &Sort,
    replacements: &[&Replacement],
) -> Result<Pattern, AllocError>
    ensures { IfOk result (λ p. view p ≡ put_for (lent_view replacements.now) (string_bytes name.now) (sort_view sort.now)) }
{
    for replacement in replacements {
        if replacement.name.as_str() == name.as_str() {
            return replacement.term.copy(alloc);
        }
    }
    Ok(Pattern::Variable {
        name: name.clone()?,
        sort: sort.copy(alloc)?,
    })
}

/// The replacements of other names.
fn hide<'a>(
    alloc: Global,
    name: &str,
    replacements: &[&'a Replacement],
) -> Result<Vec<&'a Replacement>, AllocError>
    ensures { IfOk result (λ rs. lent_view rs.items ≡ hiding name.now (lent_view replacements.now)) }
{
    let mut others = Vec::new(alloc);
    for replacement in replacements {
        if replacement.name.as_str() != name {
            others.push(*replacement)?;
        }
    }
    Ok(others)
}
