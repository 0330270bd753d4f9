// The rules that rewrite axioms make.
ghost use Rattle.std.specs.Prelude.{◌≡◌, IfOk, IfErr, OnOk, List, map, true};
ghost use Rattle.kp_kore.specs.Syntax.{Text};
ghost use Rattle.kp_kore.specs.View.{module_view, view};
ghost use Rattle.kp_signature.specs.View.{signature_view};
ghost use Rattle.kp_kore.specs.Rules.{is_rewriting};
ghost use Rattle.kp_kore.specs.Theory.{rewrite_axioms as axioms_among, labels_of as labels_among};
ghost use Rattle.kp_kore.specs.Signature.{KoreSignature};
ghost use Rattle.kp_rules.specs.Bodies.{IsFaulty, IsReadAs};
ghost use Rattle.kp_imports.specs.declared.fault.LoadError.TheVariants.{Memory};
ghost use Rattle.kp_rules.specs.Index.{IsIndexOf};
ghost use Rattle.kp_modules.specs.Axioms.{axiom_view, axioms_view};
ghost use Rattle.kp_imports.specs.Faults.{AreSound, TellsAxiom, TellsFaulty};
ghost use Rattle.kp_modules.specs.Labels.{Counts};
ghost use Rattle.kp_modules.specs.Made.{IsMadeOf, AreMadeOf, AreRewriting};

use crate::axioms::{RewriteAxiom, rewrite_axioms};
use crate::labels::{Labels, labels_of, rule_id, source_of};
use kp_imports::fault::{LoadError, ModuleFault};
use kp_kore::Module;
use kp_rule_reading::{RuleError, read_rule};
use kp_rules::{Rule, RuleBody, SortIndex};
use kp_signature::Signature;
use std::alloc::Global;
use std::sync::Arc;

/// The rules of these modules in order, or M6 of the first axiom that has it.
pub fn rules_of(
    alloc: Global,
    signature: &Signature,
    modules: &[&Module],
) -> Result<Vec<Rule>, LoadError>
    ensures err { IfErr result (TellsFaulty (signature_view signature.now) (axioms_among (map (λ m. module_view m.now) modules.now))) }
    ensures sound { OnOk result (AreSound (signature_view signature.now) (axioms_among (map (λ m. module_view m.now) modules.now))) }
    ensures ok { let g = signature_view signature.now in IfOk result (λ rules. AreMadeOf g (labels_among (axioms_among (map (λ m. module_view m.now) modules.now))) (axioms_among (map (λ m. module_view m.now) modules.now)) rules.items) }
{
    let axioms = rewrite_axioms(alloc, modules)?;
    let labels = labels_of(alloc, &axioms)?;
    let index = SortIndex::new(alloc, signature)?;
    rules_among(alloc, signature, &index, &labels, &axioms)
}

/// The rules that the axioms make.
fn rules_among(
    alloc: Global,
    signature: &Signature,
    index: &SortIndex,
    labels: &Labels,
    axioms: &[RewriteAxiom<'_>],
) -> Result<Vec<Rule>, LoadError>
    requires index { IsIndexOf (signature_view signature.now) index.now }
    ensures err { AreRewriting (axioms_view axioms.now) → IfErr result (TellsFaulty (signature_view signature.now) (axioms_view axioms.now)) }
    ensures sound { AreRewriting (axioms_view axioms.now) → OnOk result (AreSound (signature_view signature.now) (axioms_view axioms.now)) }
    ensures ok { (names : List Text) → let axioms' = axioms_view axioms.now in Counts names labels.now → AreRewriting axioms' → IfOk result (λ rules. AreMadeOf (signature_view signature.now) names axioms' rules.items) }
{
    let mut rules = Vec::new(alloc);
    for i in 0..axioms.len() {
        rules.push(rule_of(alloc, signature, index, labels, &axioms[i])?)?;
    }
    Ok(rules)
}

/// The rule that an axiom makes.
fn rule_of(
    alloc: Global,
    signature: &Signature,
    index: &SortIndex,
    labels: &Labels,
    rewriting: &RewriteAxiom<'_>,
) -> Result<Rule, LoadError>
    requires index { IsIndexOf (signature_view signature.now) index.now }
    ensures err { let rewriting' = axiom_view rewriting.now in is_rewriting rewriting'.axiom_of.pattern ≡ true → IfErr result (TellsAxiom (signature_view signature.now) rewriting') }
    ensures sound { let rewriting' = axiom_view rewriting.now in is_rewriting rewriting'.axiom_of.pattern ≡ true → OnOk result (¬ IsFaulty (signature_view signature.now) rewriting'.axiom_of) }
    ensures ok { (names : List Text) → let rewriting' = axiom_view rewriting.now in let g = signature_view signature.now in Counts names labels.now → is_rewriting rewriting'.axiom_of.pattern ≡ true → IfOk result (λ r. IsMadeOf g names rewriting' r) }
{
    match read_rule(alloc, signature, index, rewriting.axiom) {
        Ok((priority, body)) => rule_from(alloc, labels, rewriting, priority, body),
        Err(RuleError::Memory) => Err(LoadError::Memory),
        Err(RuleError::Fault) => Err(LoadError::Fault(ModuleFault::RuleFault {
            axiom: rewriting.number,
        })),
    }
}

/// The rule of an axiom that is read as this body.
fn rule_from(
    alloc: Global,
    labels: &Labels,
    rewriting: &RewriteAxiom<'_>,
    priority: u32,
    body: RuleBody,
) -> Result<Rule, LoadError>
    ensures fault { IfErr result (λ e. e ≡ Memory) }
    ensures made { (g : KoreSignature) (names : List Text) → let rewriting' = axiom_view rewriting.now in Counts names labels.now → IsReadAs g rewriting'.axiom_of priority body → IfOk result (IsMadeOf g names rewriting') }
{
    let body = Arc::new(alloc, body)?;
    let source = source_of(alloc, rewriting)?;
    Ok(Rule {
        id: rule_id(labels, &source)?,
        priority,
        body,
        source: Arc::new(alloc, source)?,
    })
}
