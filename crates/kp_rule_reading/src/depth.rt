// How deep terms are.
ghost use Rattle.std.specs.Prelude.{◌↔◌, ◌≤◌, IsTrue};
ghost use Rattle.kp_kore.specs.Parts.{term_depth, most_term_depth};
ghost use Rattle.kp_kore.specs.View.{view, patterns_view};

use kp_kore::Pattern;

/// Whether the term's depth is at most this: each application and the leaf count.
#[cycle(depth)]
pub fn is_within(pattern: &Pattern, levels: usize) -> bool
    ensures { IsTrue result ↔ (term_depth (view pattern.now) ≤ levels) }
{
    match pattern {
        Pattern::Application { arguments, .. } => {
            0 < levels && all_are_within(arguments, levels - 1)
        }
        _ => 0 < levels,
    }
}

/// Whether none of the terms nests deeper than so many levels.
#[cycle(depth)]
fn all_are_within(patterns: &[Pattern], levels: usize) -> bool
    ensures { IsTrue result ↔ (most_term_depth (patterns_view patterns.now) ≤ levels) }
{
    for pattern in patterns {
        if !is_within(pattern, levels) {
            return false;
        }
    }
    true
}
