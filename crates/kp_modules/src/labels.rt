// The identifiers of rules.
ghost use Rattle.std.specs.Prelude.{◌≡◌, ◌++◌, ◌∷◌, [], List, IfOk, OnOk, map, string_bytes, codes};
ghost use Rattle.std.specs.Fmt.{decimal};
ghost use Rattle.std.specs.Option.{option_map};
ghost use Rattle.kp_kore.specs.Syntax.{Text};
ghost use Rattle.kp_kore.specs.Theory.{NumberedAxiom, labels_of as labels_among, label_of as label_among, rule_id as stated_id};
ghost use Rattle.kp_modules.specs.Axioms.{axiom_view, axioms_view};
ghost use Rattle.kp_modules.specs.Labels.{Counts, stands_once};
ghost use Rattle.kp_modules.specs.Sources.{IsSourceOf};

use crate::axioms::RewriteAxiom;
use indexmap::IndexMap;
use kp_kore::Name;
use kp_rule_reading::label_of;
use kp_rules::RuleSource;
use std::alloc::{AllocError, Global};
use std::sync::Arc;

/// For each label whether one rule alone has it.
pub type Labels = IndexMap<Name, bool>;

/// The labels of these axioms.
pub fn labels_of(alloc: Global, axioms: &[RewriteAxiom<'_>]) -> Result<Labels, AllocError>
    ensures { IfOk result (λ labels. Counts (labels_among (axioms_view axioms.now)) labels) }
{
    let mut labels = IndexMap::new(alloc);
    for i in 0..axioms.len() {
        note_label(alloc, &mut labels, &axioms[i])?;
    }
    Ok(labels)
}

/// Notes the axiom's label, where it has one.
fn note_label(
    alloc: Global,
    labels: &mut Labels,
    rewriting: &RewriteAxiom<'_>,
) -> Result<(), AllocError>
    ensures { (names : List Text) → Counts names labels.old → OnOk result (Counts (names ++ labels_among (axiom_view rewriting.now ∷ [])) labels.new) }
{
    match label_of(rewriting.axiom) {
        Some(label) => add_label(alloc, labels, label),
        None => Ok(()),
    }
}

/// Counts a label once more.
pub fn add_label(alloc: Global, labels: &mut Labels, label: &str) -> Result<(), AllocError>
    ensures { (names : List Text) → Counts names labels.old → OnOk result (Counts (names ++ label.now ∷ []) labels.new) }
{
    let is_new = !labels.contains_key(label);
    labels.insert(String::from_str(alloc, label)?, is_new)?;
    Ok(())
}

/// Where an axiom's rule stands, and what it may be called.
pub fn source_of(alloc: Global, rewriting: &RewriteAxiom<'_>) -> Result<RuleSource, AllocError>
    ensures { IfOk result (IsSourceOf (axiom_view rewriting.now)) }
{
    let label = shared_label(alloc, rewriting)?;
    let numbered = Arc::new(alloc, numbered(alloc, rewriting)?)?;
    Ok(RuleSource {
        module: rewriting.module.clone()?,
        number: rewriting.number,
        label,
        numbered,
    })
}

/// The axiom's label, where it has one.
fn shared_label(
    alloc: Global,
    rewriting: &RewriteAxiom<'_>,
) -> Result<Option<Arc<String>>, AllocError>
    ensures { IfOk result (λ label. option_map (λ t. string_bytes t.value) label ≡ label_among (axiom_view rewriting.now).axiom_of) }
{
    match label_of(rewriting.axiom) {
        Some(label) => Ok(Some(Arc::new(alloc, String::from_str(alloc, label)?)?)),
        None => Ok(None),
    }
}

/// The label where no other rule has it, else `MODULE#NUMBER`.
pub fn rule_id(labels: &Labels, source: &RuleSource) -> Result<Arc<String>, AllocError>
    ensures { (names : List Text) (a : NumberedAxiom) → Counts names labels.now → IsSourceOf a source.now → IfOk result (λ id. string_bytes id.value ≡ stated_id names a) }
{
    match &source.label {
        Some(label) => {
            if is_alone(labels, label) {
                label.clone()
            } else {
                source.numbered.clone()
            }
        }
        None => source.numbered.clone(),
    }
}

/// Whether one rule alone has the label.
fn is_alone(labels: &Labels, label: &str) -> bool
    ensures { (names : List Text) → Counts names labels.now → result ≡ stands_once label.now names }
{
    match labels.get(label) {
        Some(alone) => *alone,
        None => false,
    }
}

/// `MODULE#NUMBER`.
fn numbered(alloc: Global, rewriting: &RewriteAxiom<'_>) -> Result<String, AllocError>
    ensures { IfOk result (λ id. string_bytes id ≡ (axiom_view rewriting.now).key ++ codes "#" ++ decimal rewriting.now.number) }
{
    let mut id = rewriting.module.clone()?;
    id.push_str("#")?;
    let number = rewriting.number.to_string(alloc)?;
    id.push_str(number.as_str())?;
    Ok(id)
}
