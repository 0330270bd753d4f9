// The members of a conjunction, in any nesting.
ghost use Rattle.std.specs.Prelude.{◌≡◌, ◌++◌, IfOk, OnOk};
ghost use Rattle.kp_kore.specs.View.{view, patterns_view};
ghost use Rattle.kp_kore.specs.Instance.{conjuncts as conjuncts_of, all_conjuncts};
ghost use Rattle.kp_compile.specs.Parts.{seen};

use kp_kore::Pattern;
use std::alloc::{AllocError, Global};

/// Adds what a pattern is the conjunction of.
#[cycle(conjuncts)]
fn add_conjuncts<'a>(pattern: &'a Pattern, found: &mut Vec<&'a Pattern>) -> Result<(), AllocError>
    ensures { OnOk result (seen found.new.items ≡ seen found.old.items ++ conjuncts_of (view pattern.now)) }
{
    match pattern {
        Pattern::And { patterns, .. } => add_all_conjuncts(patterns, found),
        _ => Ok(found.push(pattern)?),
    }
}

/// Adds what each pattern is the conjunction of.
#[cycle(conjuncts)]
fn add_all_conjuncts<'a>(
    patterns: &'a [Pattern],
    found: &mut Vec<&'a Pattern>,
) -> Result<(), AllocError>
    ensures { OnOk result (seen found.new.items ≡ seen found.old.items ++ all_conjuncts (patterns_view patterns.now)) }
{
    for pattern in patterns {
        add_conjuncts(pattern, found)?;
    }
    Ok(())
}

/// The members of a conjunction, in any nesting; a pattern that is none is its only member.
pub fn conjuncts<'a>(alloc: Global, pattern: &'a Pattern) -> Result<Vec<&'a Pattern>, AllocError>
    ensures { IfOk result (λ ps. seen ps.items ≡ conjuncts_of (view pattern.now)) }
{
    let mut found = Vec::new(alloc);
    add_conjuncts(pattern, &mut found)?;
    Ok(found)
}
