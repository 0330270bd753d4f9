// The patterns that stand in a pattern.
ghost use Rattle.std.specs.Prelude.{◌≡◌, ◌++◌, IfOk, OnOk};
ghost use Rattle.kp_kore.specs.Parts.{subpatterns as parts_of, all_subpatterns};
ghost use Rattle.kp_kore.specs.View.{view, patterns_view};
ghost use Rattle.kp_compile.specs.Parts.{seen};

use kp_kore::Pattern;
use std::alloc::{AllocError, Global};

/// The pattern and all patterns that stand in it, from the left.
pub fn subpatterns<'a>(alloc: Global, pattern: &'a Pattern) -> Result<Vec<&'a Pattern>, AllocError>
    ensures { IfOk result (λ ps. seen ps.items ≡ parts_of (view pattern.now)) }
{
    let mut found = Vec::new(alloc);
    add_subpatterns(pattern, &mut found)?;
    Ok(found)
}

/// Adds the pattern and all patterns that stand in it, from the left.
#[cycle(parts)]
pub fn add_subpatterns<'a>(
    pattern: &'a Pattern,
    found: &mut Vec<&'a Pattern>,
) -> Result<(), AllocError>
    ensures { OnOk result (seen found.new.items ≡ seen found.old.items ++ parts_of (view pattern.now)) }
{
    found.push(pattern)?;
    match pattern {
        Pattern::Variable { .. }
        | Pattern::SetVariable { .. }
        | Pattern::StringLiteral { .. }
        | Pattern::Literal { .. }
        | Pattern::Top { .. }
        | Pattern::Bottom { .. } => Ok(()),
        Pattern::Application {
            arguments: patterns,
            ..
        }
        | Pattern::And { patterns, .. }
        | Pattern::Or { patterns, .. } => add_all_subpatterns(patterns, found),
        Pattern::Not { pattern, .. }
        | Pattern::Next { pattern, .. }
        | Pattern::Exists { pattern, .. }
        | Pattern::Forall { pattern, .. }
        | Pattern::Ceil { pattern, .. }
        | Pattern::Floor { pattern, .. }
        | Pattern::Mu { pattern, .. }
        | Pattern::Nu { pattern, .. } => add_subpatterns(pattern, found),
        Pattern::Implies { left, right, .. }
        | Pattern::Iff { left, right, .. }
        | Pattern::Rewrites { left, right, .. }
        | Pattern::Equals { left, right, .. }
        | Pattern::In { left, right, .. } => {
            add_subpatterns(left, found)?;
            add_subpatterns(right, found)
        }
    }
}

/// Adds the parts of each pattern, itself first.
#[cycle(parts)]
fn add_all_subpatterns<'a>(
    patterns: &'a [Pattern],
    found: &mut Vec<&'a Pattern>,
) -> Result<(), AllocError>
    ensures { OnOk result (seen found.new.items ≡ seen found.old.items ++ all_subpatterns (patterns_view patterns.now)) }
{
    for pattern in patterns {
        add_subpatterns(pattern, found)?;
    }
    Ok(())
}
