// The module that holds claims as rules.
ghost use Rattle.std.specs.Prelude.{◌≡◌, ◌<◌, ◌++◌, ◌∷◌, [], Some, IfOk, OnOk, map, length, slice_get, string_bytes};
ghost use Rattle.std.specs.List.{AllByRecursion};
ghost use Rattle.kp_kore.specs.Syntax.{application, import_sentence, axiom_sentence, string_literal, no_patterns, next_pattern};
ghost use Rattle.kp_kore.specs.View.{view, sorts_view, patterns_view, axiom_sentence_view, sentence_view, module_view};
ghost use Rattle.kp_kore.specs.ClaimModules.{claim_axiom as stated_axiom, claims_module as stated_module};
ghost use Rattle.kp_kore.specs.Forms.{marked_by};
ghost use Rattle.kp_print.specs.Printed.{module_text as printed_text};
ghost use Rattle.kp_claim_sentences.specs.Items.{sorted_view};
ghost use Rattle.kp_claim_files.specs.Modules.{claims_at};

use kp_claim_sentences::FiledClaim;
use kp_kore::{AxiomSentence, Module, Name, Pattern, Sentence, Sort};
use kp_print::print_module;
use std::alloc::{AllocError, Global};

/// The text of the module that imports main and holds the claims at these places as rules, in this order.
pub fn module_text(
    alloc: Global,
    main: &str,
    claims: &[FiledClaim],
    places: &[usize],
) -> Result<Vec<u8>, AllocError>
    requires { AllByRecursion (λ k. k < length claims.now) places.now }
    ensures { IfOk result (λ text. text.items ≡ printed_text (stated_module main.now (claims_at claims.now places.now))) }
{
    let module = claims_module(alloc, main, claims, places)?;
    print_module(alloc, &module)
}

/// The module itself.
fn claims_module(
    alloc: Global,
    main: &str,
    claims: &[FiledClaim],
    places: &[usize],
) -> Result<Module, AllocError>
    requires { AllByRecursion (λ k. k < length claims.now) places.now }
    ensures { IfOk result (λ m. module_view m ≡ stated_module main.now (claims_at claims.now places.now)) }
{
    let mut sentences = Vec::new(alloc);
    sentences.push(import_of(alloc, main)?)?;
    add_axioms(alloc, &mut sentences, claims, places)?;
    Ok(Module {
        name: String::from_str(alloc, "CLAIMS")?,
        sentences,
        attributes: Vec::new(alloc),
    })
}

/// `import NAME []`.
fn import_of(alloc: Global, name: &str) -> Result<Sentence, AllocError>
    ensures { IfOk result (λ s. sentence_view s ≡ import_sentence name.now no_patterns) }
{
    Ok(Sentence::Import {
        name: String::from_str(alloc, name)?,
        attributes: Vec::new(alloc),
    })
}

/// Adds the axioms of the claims at these places.
fn add_axioms(
    alloc: Global,
    sentences: &mut Vec<Sentence>,
    claims: &[FiledClaim],
    places: &[usize],
) -> Result<(), AllocError>
    requires { AllByRecursion (λ k. k < length claims.now) places.now }
    ensures { let axioms = map (λ c. axiom_sentence (stated_axiom c)) (claims_at claims.now places.now) in OnOk result (map sentence_view sentences.new.items ≡ map sentence_view sentences.old.items ++ axioms) }
{
    for i in 0..places.len() {
        add_axiom(alloc, sentences, claim_at(claims, places[i]))?;
    }
    Ok(())
}

/// The claim at a place, of claims that have one there.
fn claim_at(claims: &[FiledClaim], place: usize) -> &FiledClaim
    requires { place < length claims.now }
    ensures { slice_get claims.now place ≡ Some result.now }
{
    &claims[place]
}

/// Adds a claim's axiom.
fn add_axiom(
    alloc: Global,
    sentences: &mut Vec<Sentence>,
    item: &FiledClaim,
) -> Result<(), AllocError>
    ensures { let item' = sorted_view item.now in OnOk result (map sentence_view sentences.new.items ≡ map sentence_view sentences.old.items ++ axiom_sentence (stated_axiom item') ∷ []) }
{
    let axiom = claim_axiom(alloc, item)?;
    sentences.push(Sentence::Axiom(axiom))?;
    Ok(())
}

/// `axiom{} \rewrites{S}(left, right) [priority{}("20")]`.
pub fn claim_axiom(alloc: Global, item: &FiledClaim) -> Result<AxiomSentence, AllocError>
    ensures { IfOk result (λ a. axiom_sentence_view a ≡ stated_axiom (sorted_view item.now)) }
{
    let mut attributes = Vec::new(alloc);
    attributes.push(mark_of(alloc, "priority", "20")?)?;
    Ok(AxiomSentence {
        parameters: Vec::new(alloc),
        pattern: rewriting(alloc, item)?,
        attributes,
    })
}

/// `\rewrites{S}(left, right)`.
fn rewriting(alloc: Global, item: &FiledClaim) -> Result<Pattern, AllocError>
    ensures { IfOk result (λ p. view p ≡ (stated_axiom (sorted_view item.now)).pattern) }
{
    Ok(Pattern::Rewrites {
        sort: item.sort.copy(alloc)?,
        left: Box::new(alloc, item.claim.left.copy(alloc)?)?,
        right: Box::new(alloc, item.claim.right.copy(alloc)?)?,
    })
}

/// The attribute `name{}("text")`.
fn mark_of(alloc: Global, name: &str, text: &str) -> Result<Pattern, AllocError>
    ensures { IfOk result (λ p. view p ≡ marked_by name.now text.now) }
{
    let symbol = String::from_str(alloc, name)?;
    let arguments = one_text(alloc, text)?;
    Ok(applied(symbol, Vec::new(alloc), arguments))
}

/// An application.
fn applied(symbol: Name, sorts: Vec<Sort>, arguments: Vec<Pattern>) -> Pattern
    ensures { view result ≡ application (string_bytes symbol) (sorts_view sorts.items) (patterns_view arguments.items) }
{
    Pattern::Application {
        symbol,
        sorts,
        arguments,
    }
}

/// A text as the one argument.
fn one_text(alloc: Global, text: &str) -> Result<Vec<Pattern>, AllocError>
    ensures { IfOk result (λ ps. patterns_view ps.items ≡ next_pattern (string_literal text.now) no_patterns) }
{
    let text = String::from_str(alloc, text)?;
    let mut arguments = Vec::new(alloc);
    arguments.push(Pattern::StringLiteral { text })?;
    Ok(arguments)
}
