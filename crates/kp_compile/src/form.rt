// Predicates among patterns.
ghost use Rattle.std.specs.Prelude.{◌≡◌};
ghost use Rattle.kp_kore.specs.Syntax.{KoreSort, conjunction};
ghost use Rattle.kp_kore.specs.View.{view, patterns_view};
ghost use Rattle.kp_kore.specs.Instance.{is_predicate as predicate_test, are_predicates as predicates_test, is_conjoined_pair as pair_test};

use crate::is_term;
use kp_kore::Pattern;

/// A predicate: `\equals` and `\in` of terms, `\ceil` and `\floor`, and what is made of predicates.
#[cycle(predicate)]
pub fn is_predicate(pattern: &Pattern) -> bool
    ensures { result ≡ predicate_test (view pattern.now) }
{
    match pattern {
        Pattern::Top { .. } | Pattern::Bottom { .. } => true,
        Pattern::Not { pattern, .. }
        | Pattern::Exists { pattern, .. }
        | Pattern::Forall { pattern, .. } => is_predicate(pattern),
        Pattern::And { patterns, .. } | Pattern::Or { patterns, .. } => are_predicates(patterns),
        Pattern::Implies { left, right, .. } | Pattern::Iff { left, right, .. } => {
            is_predicate(left) && is_predicate(right)
        }
        Pattern::Ceil { pattern, .. } => {
            is_term(pattern) || is_predicate(pattern) || is_conjoined_pair(pattern)
        }
        Pattern::Floor { pattern, .. } => is_term(pattern) || is_predicate(pattern),
        Pattern::Equals { left, right, .. } | Pattern::In { left, right, .. } => {
            is_term(left) && is_term(right)
        }
        Pattern::Variable { .. }
        | Pattern::SetVariable { .. }
        | Pattern::Application { .. }
        | Pattern::StringLiteral { .. }
        | Pattern::Literal { .. }
        | Pattern::Next { .. }
        | Pattern::Rewrites { .. }
        | Pattern::Mu { .. }
        | Pattern::Nu { .. } => false,
    }
}

/// Whether each of them is a predicate.
#[cycle(predicate)]
fn are_predicates(patterns: &[Pattern]) -> bool
    ensures { result ≡ predicates_test (patterns_view patterns.now) }
{
    for pattern in patterns {
        if !is_predicate(pattern) {
            return false;
        }
    }
    true
}

/// A conjunction of two terms, as `\ceil` may have.
pub fn is_conjoined_pair(pattern: &Pattern) -> bool
    ensures { result ≡ pair_test (view pattern.now) }
{
    match pattern {
        Pattern::And { patterns, .. } => are_two_terms(patterns),
        _ => false,
    }
}

/// Whether these are two, and both are terms.
fn are_two_terms(patterns: &[Pattern]) -> bool
    ensures { (s : KoreSort) → result ≡ pair_test (conjunction s (patterns_view patterns.now)) }
{
    if patterns.len() != 2 {
        return false;
    }
    is_term(&patterns[0]) && is_term(&patterns[1])
}
