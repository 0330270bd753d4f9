ghost use Rattle.std.specs.Prelude.{◌≡◌, ◌≤◌, ◌+◌, min};
ghost use Rattle.kp_kore.specs.Parts.{nesting, most_nesting};
ghost use Rattle.kp_kore.specs.View.{view, patterns_view};

use kp_kore::Pattern;

/// How deep patterns nest in a pattern, and 257 where they nest deeper.
#[cycle(nesting)]
pub fn nesting(pattern: &Pattern) -> usize
    ensures same { result ≡ min (nesting (view pattern.now)) 257 }
    ensures some { 1 ≤ result }
    ensures bound { result ≤ 257 }
{
    match pattern {
        Pattern::Variable { .. }
        | Pattern::SetVariable { .. }
        | Pattern::StringLiteral { .. }
        | Pattern::Literal { .. }
        | Pattern::Top { .. }
        | Pattern::Bottom { .. } => 1,
        Pattern::Application {
            arguments: patterns,
            ..
        }
        | Pattern::And { patterns, .. }
        | Pattern::Or { patterns, .. } => one_more(most_nesting(patterns)),
        Pattern::Not { pattern, .. }
        | Pattern::Next { pattern, .. }
        | Pattern::Ceil { pattern, .. }
        | Pattern::Floor { pattern, .. }
        | Pattern::Exists { pattern, .. }
        | Pattern::Forall { pattern, .. }
        | Pattern::Mu { pattern, .. }
        | Pattern::Nu { pattern, .. } => one_more(nesting(pattern)),
        Pattern::Implies { left, right, .. }
        | Pattern::Iff { left, right, .. }
        | Pattern::Rewrites { left, right, .. }
        | Pattern::Equals { left, right, .. }
        | Pattern::In { left, right, .. } => one_more(nesting(left).max(nesting(right))),
    }
}

/// The greatest nesting of some patterns.
#[cycle(nesting)]
fn most_nesting(patterns: &[Pattern]) -> usize
    ensures same { result ≡ min (most_nesting (patterns_view patterns.now)) 257 }
    ensures bound { result ≤ 257 }
{
    let mut most = 0;
    for pattern in patterns {
        most = nesting(pattern).max(most);
    }
    most
}

/// One level more, up to 257.
fn one_more(levels: usize) -> usize
    ensures same { result ≡ min (levels + 1) 257 }
    ensures some { 1 ≤ result }
{
    if levels < 257 { levels + 1 } else { 257 }
}
