// The rules of several rule sets together, each once, called anew.
ghost use Rattle.std.specs.Prelude.{◌≡◌, ◌++◌, ◌∷◌, [], List, ◌<◌, ◌^◌, IfOk, OnOk};
ghost use Rattle.std.specs.List.{AllZip};
ghost use Rattle.kp_kore.specs.Syntax.{Text};
ghost use Rattle.kp_kore.specs.Signature.{KoreSignature};
ghost use Rattle.kp_signature.specs.View.{signature_view};
ghost use Rattle.kp_kore.specs.Theory.{NumberedAxiom, labels_of as labels_among};
ghost use Rattle.kp_modules.specs.Extending.{IsTakenFrom, AreTakenFrom, AreSetsOf, AreGathered, all_axioms_once};
ghost use Rattle.kp_modules.specs.Labels.{Counts};
ghost use Rattle.kp_modules.specs.Made.{IsMadeOf, AreMadeOf, IsSetOf};

use crate::labels::{Labels, add_label, rule_id};
use indexmap::IndexMap;
use kp_imports::repeated::{Met, meet};
use kp_rule_sets::RuleSet;
use kp_rules::Rule;
use kp_signature::Signature;
use std::alloc::{AllocError, Global};
use std::sync::Arc;

/// The rule set over this signature of the rules of these rule sets, in order and each once, and then of these.
pub fn joined(
    alloc: Global,
    signature: &Arc<Signature>,
    sets: &[Arc<RuleSet>],
    own: &[Rule],
) -> Result<RuleSet, AllocError>
    ensures { let g = signature_view signature.now.value in
        (lists : List (List NumberedAxiom)) (axioms : List NumberedAxiom) → AreSetsOf g lists sets.now → AllZip (IsTakenFrom g) axioms own.now →
        IfOk result (IsSetOf g (all_axioms_once lists ++ axioms)) }
{
    let mut found = rules_once(alloc, sets)?;
    add_own(&mut found, own)?;
    called(alloc, signature, &found)
}

/// The rule set over this signature of these rules, each called by the labels of all of them.
pub fn called(
    alloc: Global,
    signature: &Arc<Signature>,
    rules: &[&Rule],
) -> Result<RuleSet, AllocError>
    ensures { let g = signature_view signature.now.value in (axioms : List NumberedAxiom) → AreTakenFrom g axioms rules.now → IfOk result (IsSetOf g axioms) }
{
    let labels = labels_in(alloc, rules)?;
    let named = all_named(alloc, &labels, rules)?;
    RuleSet::new(alloc, signature.clone()?, named)
}

/// The rules of these rule sets, in order and each once.
fn rules_once<'a>(alloc: Global, sets: &'a [Arc<RuleSet>]) -> Result<Vec<&'a Rule>, AllocError>
    ensures { (g : KoreSignature) (lists : List (List NumberedAxiom)) → let axioms = all_axioms_once lists in AreSetsOf g lists sets.now → IfOk result (λ found. AreTakenFrom g axioms found.items) }
{
    let mut met = IndexMap::new(alloc);
    let mut found = Vec::new(alloc);
    for i in 0..sets.len() {
        gather(&mut met, &mut found, &sets[i].rules)?;
    }
    Ok(found)
}

/// Adds those of these rules that weren't met yet.
fn gather<'a>(met: &mut Met, found: &mut Vec<&'a Rule>, rules: &'a [Rule]) -> Result<(), AllocError>
    ensures { (g : KoreSignature) (passed axioms : List NumberedAxiom) → let together = passed ++ axioms in AllZip (IsTakenFrom g) axioms rules.now → AreGathered g passed met.old found.old.items → OnOk result (AreGathered g together met.new found.new.items) }
{
    for i in 0..rules.len() {
        gather_one(met, found, &rules[i])?;
    }
    Ok(())
}

/// Adds a rule where it wasn't met yet.
fn gather_one<'a>(
    met: &mut Met,
    found: &mut Vec<&'a Rule>,
    rule: &'a Rule,
) -> Result<(), AllocError>
    ensures { (g : KoreSignature) (passed : List NumberedAxiom) (a : NumberedAxiom) → let further = passed ++ a ∷ [] in IsTakenFrom g a rule.now → AreGathered g passed met.old found.old.items → OnOk result (AreGathered g further met.new found.new.items) }
{
    let source = &rule.source;
    let _number = counted(source.number);
    if meet(met, &source.numbered)? {
        found.push(rule)?;
    }
    Ok(())
}

/// The number, which is one of 64 bits.
fn counted(number: usize) -> usize
    ensures same { result ≡ number }
    ensures small { number < 2 ^ 64 }
{
    number
}

/// Adds these rules.
pub fn add_own<'a>(found: &mut Vec<&'a Rule>, own: &'a [Rule]) -> Result<(), AllocError>
    ensures { (g : KoreSignature) (before axioms : List NumberedAxiom) → let together = before ++ axioms in AreTakenFrom g before found.old.items → AllZip (IsTakenFrom g) axioms own.now → OnOk result (AreTakenFrom g together found.new.items) }
{
    for i in 0..own.len() {
        found.push(&own[i])?;
    }
    Ok(())
}

/// The labels of these rules.
fn labels_in(alloc: Global, rules: &[&Rule]) -> Result<Labels, AllocError>
    ensures { (g : KoreSignature) (axioms : List NumberedAxiom) → AreTakenFrom g axioms rules.now → IfOk result (Counts (labels_among axioms)) }
{
    let mut labels = IndexMap::new(alloc);
    for i in 0..rules.len() {
        note_label(alloc, &mut labels, rules[i])?;
    }
    Ok(labels)
}

/// Notes the rule's label, where it has one.
fn note_label(alloc: Global, labels: &mut Labels, rule: &Rule) -> Result<(), AllocError>
    ensures { (g : KoreSignature) (names : List Text) (a : NumberedAxiom) → let noted = names ++ labels_among (a ∷ []) in IsTakenFrom g a rule.now → Counts names labels.old → OnOk result (Counts noted labels.new) }
{
    match &rule.source.label {
        Some(label) => add_label(alloc, labels, label),
        None => Ok(()),
    }
}

/// The rules, each called by these labels.
fn all_named(alloc: Global, labels: &Labels, rules: &[&Rule]) -> Result<Vec<Rule>, AllocError>
    ensures { (g : KoreSignature) (names : List Text) (axioms : List NumberedAxiom) → let AreNamed = AreMadeOf g names axioms in Counts names labels.now → AreTakenFrom g axioms rules.now → IfOk result (λ found. AreNamed found.items) }
{
    let mut found = Vec::new(alloc);
    for i in 0..rules.len() {
        found.push(named(labels, rules[i])?)?;
    }
    Ok(found)
}

/// The rule, called by these labels.
fn named(labels: &Labels, rule: &Rule) -> Result<Rule, AllocError>
    ensures { (g : KoreSignature) (names : List Text) (a : NumberedAxiom) → Counts names labels.now → IsTakenFrom g a rule.now → IfOk result (IsMadeOf g names a) }
{
    Ok(Rule {
        id: rule_id(labels, &rule.source)?,
        priority: rule.priority,
        body: rule.body.clone()?,
        source: rule.source.clone()?,
    })
}
