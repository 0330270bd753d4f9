// Forms of patterns from parts that are made already.
ghost use Rattle.std.specs.Prelude.{◌≡◌, IfOk, string_bytes};
ghost use Rattle.kp_kore.specs.Syntax.{application, negation, next, conjunction, disjunction, implication, equivalence, rewriting, exists, forall, ceil, floor, equals, membership, mu, nu};
ghost use Rattle.kp_kore.specs.View.{view, sort_view, sorts_view, patterns_view};

use kp_kore::{Name, Pattern, Sort};
use std::alloc::{AllocError, Global};

/// A symbol applied to these patterns.
pub fn application_of(
    alloc: Global,
    symbol: &Name,
    sorts: &[Sort],
    arguments: Vec<Pattern>,
) -> Result<Pattern, AllocError>
    ensures { IfOk result (λ p. view p ≡ application (string_bytes symbol.now) (sorts_view sorts.now) (patterns_view arguments.items)) }
{
    Ok(Pattern::Application {
        symbol: symbol.clone()?,
        sorts: Sort::copy_all(alloc, sorts)?,
        arguments,
    })
}

/// The `\and` of these patterns.
pub fn conjunction_of(
    alloc: Global,
    sort: &Sort,
    patterns: Vec<Pattern>,
) -> Result<Pattern, AllocError>
    ensures { IfOk result (λ p. view p ≡ conjunction (sort_view sort.now) (patterns_view patterns.items)) }
{
    Ok(Pattern::And {
        sort: sort.copy(alloc)?,
        patterns,
    })
}

/// The `\or` of these patterns.
pub fn disjunction_of(
    alloc: Global,
    sort: &Sort,
    patterns: Vec<Pattern>,
) -> Result<Pattern, AllocError>
    ensures { IfOk result (λ p. view p ≡ disjunction (sort_view sort.now) (patterns_view patterns.items)) }
{
    Ok(Pattern::Or {
        sort: sort.copy(alloc)?,
        patterns,
    })
}

/// The `\not` of a pattern.
pub fn negation_of(alloc: Global, sort: &Sort, pattern: Box<Pattern>) -> Result<Pattern, AllocError>
    ensures { IfOk result (λ p. view p ≡ negation (sort_view sort.now) (view pattern.value)) }
{
    Ok(Pattern::Not {
        sort: sort.copy(alloc)?,
        pattern,
    })
}

/// The `\next` of a pattern.
pub fn next_of(alloc: Global, sort: &Sort, pattern: Box<Pattern>) -> Result<Pattern, AllocError>
    ensures { IfOk result (λ p. view p ≡ next (sort_view sort.now) (view pattern.value)) }
{
    Ok(Pattern::Next {
        sort: sort.copy(alloc)?,
        pattern,
    })
}

/// The `\implies` of two patterns.
pub fn implication_of(
    alloc: Global,
    sort: &Sort,
    left: Box<Pattern>,
    right: Box<Pattern>,
) -> Result<Pattern, AllocError>
    ensures { IfOk result (λ p. view p ≡ implication (sort_view sort.now) (view left.value) (view right.value)) }
{
    Ok(Pattern::Implies {
        sort: sort.copy(alloc)?,
        left,
        right,
    })
}

/// The `\iff` of two patterns.
pub fn equivalence_of(
    alloc: Global,
    sort: &Sort,
    left: Box<Pattern>,
    right: Box<Pattern>,
) -> Result<Pattern, AllocError>
    ensures { IfOk result (λ p. view p ≡ equivalence (sort_view sort.now) (view left.value) (view right.value)) }
{
    Ok(Pattern::Iff {
        sort: sort.copy(alloc)?,
        left,
        right,
    })
}

/// The `\rewrites` of two patterns.
pub fn rewriting_of(
    alloc: Global,
    sort: &Sort,
    left: Box<Pattern>,
    right: Box<Pattern>,
) -> Result<Pattern, AllocError>
    ensures { IfOk result (λ p. view p ≡ rewriting (sort_view sort.now) (view left.value) (view right.value)) }
{
    Ok(Pattern::Rewrites {
        sort: sort.copy(alloc)?,
        left,
        right,
    })
}

/// The `\exists` of a variable over a pattern.
pub fn exists_of(
    alloc: Global,
    sort: &Sort,
    name: &Name,
    name_sort: &Sort,
    pattern: Box<Pattern>,
) -> Result<Pattern, AllocError>
    ensures { IfOk result (λ p. view p ≡ exists (sort_view sort.now) (string_bytes name.now) (sort_view name_sort.now) (view pattern.value)) }
{
    Ok(Pattern::Exists {
        sort: sort.copy(alloc)?,
        name: name.clone()?,
        name_sort: name_sort.copy(alloc)?,
        pattern,
    })
}

/// The `\forall` of a variable over a pattern.
pub fn forall_of(
    alloc: Global,
    sort: &Sort,
    name: &Name,
    name_sort: &Sort,
    pattern: Box<Pattern>,
) -> Result<Pattern, AllocError>
    ensures { IfOk result (λ p. view p ≡ forall (sort_view sort.now) (string_bytes name.now) (sort_view name_sort.now) (view pattern.value)) }
{
    Ok(Pattern::Forall {
        sort: sort.copy(alloc)?,
        name: name.clone()?,
        name_sort: name_sort.copy(alloc)?,
        pattern,
    })
}

/// The `\ceil` of a pattern.
pub fn ceil_of(
    alloc: Global,
    argument_sort: &Sort,
    sort: &Sort,
    pattern: Box<Pattern>,
) -> Result<Pattern, AllocError>
    ensures { IfOk result (λ p. view p ≡ ceil (sort_view argument_sort.now) (sort_view sort.now) (view pattern.value)) }
{
    Ok(Pattern::Ceil {
        argument_sort: argument_sort.copy(alloc)?,
        sort: sort.copy(alloc)?,
        pattern,
    })
}

/// The `\floor` of a pattern.
pub fn floor_of(
    alloc: Global,
    argument_sort: &Sort,
    sort: &Sort,
    pattern: Box<Pattern>,
) -> Result<Pattern, AllocError>
    ensures { IfOk result (λ p. view p ≡ floor (sort_view argument_sort.now) (sort_view sort.now) (view pattern.value)) }
{
    Ok(Pattern::Floor {
        argument_sort: argument_sort.copy(alloc)?,
        sort: sort.copy(alloc)?,
        pattern,
    })
}

/// The `\equals` of two patterns.
pub fn equals_of(
    alloc: Global,
    argument_sort: &Sort,
    sort: &Sort,
    left: Box<Pattern>,
    right: Box<Pattern>,
) -> Result<Pattern, AllocError>
    ensures { IfOk result (λ p. view p ≡ equals (sort_view argument_sort.now) (sort_view sort.now) (view left.value) (view right.value)) }
{
    Ok(Pattern::Equals {
        argument_sort: argument_sort.copy(alloc)?,
        sort: sort.copy(alloc)?,
        left,
        right,
    })
}

/// The `\in` of two patterns.
pub fn membership_of(
    alloc: Global,
    argument_sort: &Sort,
    sort: &Sort,
    left: Box<Pattern>,
    right: Box<Pattern>,
) -> Result<Pattern, AllocError>
    ensures { IfOk result (λ p. view p ≡ membership (sort_view argument_sort.now) (sort_view sort.now) (view left.value) (view right.value)) }
{
    Ok(Pattern::In {
        argument_sort: argument_sort.copy(alloc)?,
        sort: sort.copy(alloc)?,
        left,
        right,
    })
}

/// The `\mu` of a set variable over a pattern.
pub fn mu_of(
    alloc: Global,
    name: &Name,
    sort: &Sort,
    pattern: Box<Pattern>,
) -> Result<Pattern, AllocError>
    ensures { IfOk result (λ p. view p ≡ mu (string_bytes name.now) (sort_view sort.now) (view pattern.value)) }
{
    Ok(Pattern::Mu {
        name: name.clone()?,
        sort: sort.copy(alloc)?,
        pattern,
    })
}

/// The `\nu` of a set variable over a pattern.
pub fn nu_of(
    alloc: Global,
    name: &Name,
    sort: &Sort,
    pattern: Box<Pattern>,
) -> Result<Pattern, AllocError>
    ensures { IfOk result (λ p. view p ≡ nu (string_bytes name.now) (sort_view sort.now) (view pattern.value)) }
{
    Ok(Pattern::Nu {
        name: name.clone()?,
        sort: sort.copy(alloc)?,
        pattern,
    })
}
