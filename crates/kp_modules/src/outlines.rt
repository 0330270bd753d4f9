// What is kept of modules: their names and imports, and where their rules stand.
ghost use Rattle.std.specs.Prelude.{◌≡◌, ◌++◌, ◌+◌, ◌∷◌, [], IfOk, OnOk, length, map, string_bytes};
ghost use Rattle.kp_kore.specs.View.{module_view, sentence_view};
ghost use Rattle.kp_kore.specs.Theory.{imports_in};
ghost use Rattle.kp_modules.specs.Keeping.{outline, own_axioms, span_view, spans_from};

use crate::axioms::{RewriteAxiom, add_axioms};
use kp_imports::imports::import_of;
use kp_kore::{Module, Name, Sentence};
use std::alloc::{AllocError, Global};

/// Where the rules of one module stand among those of all: from the first number on, up to the second.
#[derive(Clone, Copy)]
pub struct RuleSpan {
    pub from: usize,
    pub to: usize,
}

/// The modules with their imports alone.
pub fn outlines(alloc: Global, modules: &[&Module]) -> Result<Vec<Module>, AllocError>
    ensures { IfOk result (λ found. map (λ m. outline (module_view m)) found.items ≡ map (λ m. outline (module_view m.now)) modules.now) }
{
    let mut found = Vec::new(alloc);
    for module in modules {
        found.push(outline_of(alloc, module)?)?;
    }
    Ok(found)
}

/// The module with its imports alone.
fn outline_of(alloc: Global, whole: &Module) -> Result<Module, AllocError>
    ensures { IfOk result (λ found. outline (module_view found) ≡ outline (module_view whole.now)) }
{
    let sentences = imports_alone(alloc, &whole.sentences)?;
    Ok(Module {
        name: whole.name.clone()?,
        sentences,
        attributes: Vec::new(alloc),
    })
}

/// The imports among these sentences.
fn imports_alone(alloc: Global, sentences: &[Sentence]) -> Result<Vec<Sentence>, AllocError>
    ensures { IfOk result (λ found. imports_in (map sentence_view found.items) ≡ imports_in (map sentence_view sentences.now)) }
{
    let mut found = Vec::new(alloc);
    for i in 0..sentences.len() {
        add_import(alloc, &mut found, &sentences[i])?;
    }
    Ok(found)
}

/// Adds the sentence, where it is an import.
fn add_import(
    alloc: Global,
    found: &mut Vec<Sentence>,
    sentence: &Sentence,
) -> Result<(), AllocError>
    ensures { let the_sentence = sentence_view sentence.now ∷ [] in OnOk result (imports_in (map sentence_view found.new.items) ≡ imports_in (map sentence_view found.old.items) ++ imports_in the_sentence) }
{
    match import_of(sentence) {
        Some(name) => {
            found.push(import_sentence(alloc, name)?)?;
            Ok(())
        }
        None => Ok(()),
    }
}

/// An import of this name, without attributes.
fn import_sentence(alloc: Global, name: &Name) -> Result<Sentence, AllocError>
    ensures { IfOk result (λ sentence. imports_in (sentence_view sentence ∷ []) ≡ string_bytes name.now ∷ []) }
{
    let name = name.clone()?;
    Ok(Sentence::Import {
        name,
        attributes: Vec::new(alloc),
    })
}

/// Where the rewrite axioms of each module stand among those of all of them.
pub fn rule_spans(alloc: Global, modules: &[&Module]) -> Result<Vec<RuleSpan>, AllocError>
    ensures { IfOk result (λ spans. map span_view spans.items ≡ spans_from 0 (map (λ m. module_view m.now) modules.now)) }
{
    let mut found = Vec::new(alloc);
    let mut spans = Vec::new(alloc);
    for module in modules {
        let span = rule_span(&mut found, module)?;
        spans.push(span)?;
    }
    Ok(spans)
}

/// Adds the module's rewrite axioms; where they stand.
fn rule_span<'a>(
    found: &mut Vec<RewriteAxiom<'a>>,
    whole: &'a Module,
) -> Result<RuleSpan, AllocError>
    ensures { let whole' = module_view whole.now in IfOk result (λ span. (span.from ≡ length found.old.items) × (span.to ≡ length found.new.items) × (length found.new.items ≡ length found.old.items + length (own_axioms whole'))) }
{
    let from = found.len();
    add_axioms(found, &whole.name, &whole.sentences)?;
    Ok(RuleSpan {
        from,
        to: found.len(),
    })
}
