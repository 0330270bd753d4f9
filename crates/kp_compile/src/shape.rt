// Forms of patterns.
ghost use Rattle.std.specs.Prelude.{◌≡◌};
ghost use Rattle.kp_kore.specs.Parts.{is_term as term_test, are_terms as terms_test};
ghost use Rattle.kp_kore.specs.View.{view, patterns_view};

use kp_kore::Pattern;

/// Whether it is a term: variables, literals and applications of terms.
#[cycle(term)]
pub fn is_term(pattern: &Pattern) -> bool
    ensures { result ≡ term_test (view pattern.now) }
{
    match pattern {
        Pattern::Variable { .. } | Pattern::Literal { .. } => true,
        Pattern::Application { arguments, .. } => are_terms(arguments),
        _ => false,
    }
}

/// Whether all are terms.
#[cycle(term)]
fn are_terms(patterns: &[Pattern]) -> bool
    ensures { result ≡ terms_test (patterns_view patterns.now) }
{
    for pattern in patterns {
        if !is_term(pattern) {
            return false;
        }
    }
    true
}
