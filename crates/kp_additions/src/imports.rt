// What the imports of a module mean at a point of the book.
ghost use Rattle.std.specs.Prelude.{◌≡◌, IfOk, IfErr, Some, map, string_bytes};
ghost use Rattle.kp_kore.specs.View.{sentence_view};
ghost use Rattle.kp_kore.specs.Theory.{imports_in};
ghost use Rattle.kp_registry.specs.Passes.{MeansAt};
ghost use Rattle.kp_registry.specs.Registries.{IsPassOf};
ghost use Rattle.kp_additions.specs.Served.{AtEachBookSeen, HasLooked};
ghost use Rattle.kp_additions.specs.Told.{AreMeant, TellsNoMeaning, TellsUnbound};

use crate::error::AdditionError;
use kp_imports::imports::import_of;
use kp_kore::{Name, Sentence};
use kp_registry::{Pass, Registry};
use kp_replies::AdditionFault;
use kp_rule_sets::RuleSet;
use std::alloc::Global;
use std::sync::{Arc, Wait};

/// The rule sets that the imports mean, in order; M1 of the first that means nothing.
pub fn imports_of<R: Wait>(
    rt: &R,
    alloc: Global,
    registry: &Registry,
    pass: &mut Pass,
    sentences: &[Sentence],
) -> Result<Vec<Arc<RuleSet>>, AdditionError>
    requires pass { IsPassOf registry.now pass.old }
    ensures pass { IsPassOf registry.now pass.new }
    ensures looked { HasLooked pass.old pass.new }
    ensures meant { IfOk result (λ sets. AtEachBookSeen registry.now pass.new (λ o book. AreMeant o book (imports_in (map sentence_view sentences.now)) sets.items)) }
    ensures err { IfErr result (λ e. AtEachBookSeen registry.now pass.new (λ o book. TellsUnbound o book (imports_in (map sentence_view sentences.now)) e)) }
{
    let mut sets = Vec::new(alloc);
    for i in 0..sentences.len() {
        if let Some(name) = import_of(&sentences[i]) {
            sets.push(import_meant(rt, alloc, registry, pass, name)?)?;
        }
    }
    Ok(sets)
}

/// The rule set that an import means, or M1.
fn import_meant<R: Wait>(
    rt: &R,
    alloc: Global,
    registry: &Registry,
    pass: &mut Pass,
    name: &Name,
) -> Result<Arc<RuleSet>, AdditionError>
    requires pass { IsPassOf registry.now pass.old }
    ensures pass { IsPassOf registry.now pass.new }
    ensures looked { HasLooked pass.old pass.new }
    ensures meant { IfOk result (λ rules. AtEachBookSeen registry.now pass.new (λ o book. MeansAt o book (string_bytes name.now) (Some rules.value))) }
    ensures err { IfErr result (λ e. AtEachBookSeen registry.now pass.new (λ o book. TellsNoMeaning o book (string_bytes name.now) e)) }
{
    match registry.look(rt, alloc, pass, name.as_str())? {
        Some(rules) => Ok(rules),
        None => Err(AdditionError::Bad(AdditionFault::UnknownImport {
            name: name.clone()?,
        })),
    }
}
