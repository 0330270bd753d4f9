ghost use Rattle.std.specs.Prelude.{◌≡◌, [], ◌∷◌, IfOk};
ghost use Rattle.kp_kore.specs.View.{view, sort_view, patterns_view};
ghost use Rattle.kp_kore.specs.Folds.{conjunction_of, disjunction_of};

use kp_kore::{Pattern, Sort};
use std::alloc::{AllocError, Global};

/// A list of two.
pub fn two(alloc: Global, first: Pattern, second: Pattern) -> Result<Vec<Pattern>, AllocError>
    ensures { IfOk result (λ ps. ps.items ≡ first ∷ second ∷ []) }
{
    let mut patterns = Vec::new(alloc);
    patterns.push(first)?;
    patterns.push(second)?;
    Ok(patterns)
}

/// And of any number of members.
pub fn conjunction(sort: Sort, mut patterns: Vec<Pattern>) -> Pattern
    ensures { view result ≡ conjunction_of (sort_view sort) (patterns_view patterns.items) }
{
    if patterns.len() > 1 {
        return Pattern::And { sort, patterns };
    }
    match patterns.pop() {
        None => Pattern::Top { sort },
        Some(pattern) => pattern,
    }
}

/// Or of any number of members.
pub fn disjunction(sort: Sort, mut patterns: Vec<Pattern>) -> Pattern
    ensures { view result ≡ disjunction_of (sort_view sort) (patterns_view patterns.items) }
{
    if patterns.len() > 1 {
        return Pattern::Or { sort, patterns };
    }
    match patterns.pop() {
        None => Pattern::Bottom { sort },
        Some(pattern) => pattern,
    }
}
