// The sentences of a claims file that are claims or have no place in it.
ghost use Rattle.std.specs.Prelude.{◌≡◌, ◌++◌, IfOk, OnOk, map};
ghost use Rattle.std.specs.List.{filter};
ghost use Rattle.kp_kore.specs.View.{view, sentence_view, module_view};
ghost use Rattle.kp_kore.specs.Rules.{is_rewriting as rewriting_test};
ghost use Rattle.kp_claims.specs.Claims.{counted, counts as counts_test};
ghost use Rattle.kp_claims.specs.Sentences.{seen};

use kp_kore::{Module, Pattern, Sentence};
use std::alloc::{AllocError, Global};

/// Those sentences, module by module.
pub fn counted_sentences<'a>(
    alloc: Global,
    modules: &'a [Module],
) -> Result<Vec<&'a Sentence>, AllocError>
    ensures { IfOk result (λ found. seen found.items ≡ counted (map module_view modules.now)) }
{
    let mut found = Vec::new(alloc);
    for module in modules {
        add_counted(&mut found, &module.sentences)?;
    }
    Ok(found)
}

/// Adds the sentences that are axioms or claims.
fn add_counted<'a>(
    found: &mut Vec<&'a Sentence>,
    sentences: &'a [Sentence],
) -> Result<(), AllocError>
    ensures { OnOk result (seen found.new.items ≡ seen found.old.items ++ filter counts_test (map sentence_view sentences.now)) }
{
    for sentence in sentences {
        if counts(sentence) {
            found.push(sentence)?;
        }
    }
    Ok(())
}

/// Whether a sentence says something in a claims file.
fn counts(sentence: &Sentence) -> bool
    ensures { result ≡ counts_test (sentence_view sentence.now) }
{
    match sentence {
        Sentence::Import { .. } | Sentence::Alias(_) => false,
        Sentence::Sort(_) | Sentence::Symbol(_) | Sentence::Claim(_) => true,
        Sentence::Axiom(statement) => is_rewriting(&statement.pattern),
    }
}

/// Whether it is `\rewrites`.
fn is_rewriting(pattern: &Pattern) -> bool
    ensures { result ≡ rewriting_test (view pattern.now) }
{
    match pattern {
        Pattern::Rewrites { .. } => true,
        _ => false,
    }
}
