// The rewrite axioms of modules, in order.
ghost use Rattle.std.specs.Prelude.{◌≡◌, ◌++◌, IfOk, OnOk, map, string_bytes};
ghost use Rattle.kp_kore.specs.View.{view, sentence_view, axiom_sentence_view, module_view};
ghost use Rattle.kp_kore.specs.Rules.{is_rewriting as rewriting_test};
ghost use Rattle.kp_kore.specs.Theory.{rewrite_axioms as axioms_among, rewrite_axioms_from};
ghost use Rattle.kp_modules.specs.Axioms.{axiom_at, axioms_view, if_rewriting};

use kp_kore::{AxiomSentence, Module, Name, Pattern, Sentence};
use std::alloc::{AllocError, Global};

/// A rewrite axiom with its module's name and its number among the module's axioms, from 1.
#[derive(Clone, Copy)]
pub struct RewriteAxiom<'a> {
    pub module: &'a Name,
    pub number: usize,
    pub axiom: &'a AxiomSentence,
}

/// The rewrite axioms of these modules.
pub fn rewrite_axioms<'a>(
    alloc: Global,
    modules: &[&'a Module],
) -> Result<Vec<RewriteAxiom<'a>>, AllocError>
    ensures { IfOk result (λ found. axioms_view found.items ≡ axioms_among (map (λ m. module_view m.now) modules.now)) }
{
    let mut found = Vec::new(alloc);
    for module in modules {
        add_axioms(&mut found, &module.name, &module.sentences)?;
    }
    Ok(found)
}

/// The rewrite axioms among these sentences, with this name for their module's.
pub fn axioms_in<'a>(
    alloc: Global,
    key: &'a Name,
    sentences: &'a [Sentence],
) -> Result<Vec<RewriteAxiom<'a>>, AllocError>
    ensures { IfOk result (λ found. axioms_view found.items ≡ rewrite_axioms_from (string_bytes key.now) 1 (map sentence_view sentences.now)) }
{
    let mut found = Vec::new(alloc);
    add_axioms(&mut found, key, sentences)?;
    Ok(found)
}

/// Adds the rewrite axioms of a module, counted from 1.
pub fn add_axioms<'a>(
    found: &mut Vec<RewriteAxiom<'a>>,
    key: &'a Name,
    sentences: &'a [Sentence],
) -> Result<(), AllocError>
    ensures { OnOk result (axioms_view found.new.items ≡ axioms_view found.old.items ++ rewrite_axioms_from (string_bytes key.now) 1 (map sentence_view sentences.now)) }
{
    let mut number = 0;
    for sentence in sentences {
        if let Sentence::Axiom(statement) = sentence {
            number += 1;
            add_axiom(found, key, number, statement)?;
        }
    }
    Ok(())
}

/// Adds an axiom, where it is `\rewrites`.
fn add_axiom<'a>(
    found: &mut Vec<RewriteAxiom<'a>>,
    key: &'a Name,
    number: usize,
    statement: &'a AxiomSentence,
) -> Result<(), AllocError>
    ensures { let axiom' = axiom_at (string_bytes key.now) number (axiom_sentence_view statement.now) in OnOk result (axioms_view found.new.items ≡ axioms_view found.old.items ++ if_rewriting axiom') }
{
    if is_rewriting(&statement.pattern) {
        found.push(RewriteAxiom {
            module: key,
            number,
            axiom: statement,
        })?;
    }
    Ok(())
}

/// Whether it is `\rewrites`.
fn is_rewriting(pattern: &Pattern) -> bool
    ensures { result ≡ rewriting_test (view pattern.now) }
{
    match pattern {
        Pattern::Rewrites { .. } => true,
        _ => false,
    }
}
