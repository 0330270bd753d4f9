// The labels of a whole file.
ghost use Rattle.std.specs.Prelude.{◌≡◌, ◌++◌, ◌∷◌, [], List, IfOk, OnOk, length, option_to_list, string_bytes};
ghost use Rattle.std.specs.List.{flat_map};
ghost use Rattle.std.specs.Option.{option_map};
ghost use Rattle.kp_kore.specs.Syntax.{Text};
ghost use Rattle.kp_kore.specs.View.{names_view, sentence_view};
ghost use Rattle.kp_signature.specs.Names.{Indexes};
ghost use Rattle.kp_claims.specs.Faults.{label_at as stated_label, labels_of as stated_labels};
ghost use Rattle.kp_names.specs.Met.{Lists};
ghost use Rattle.kp_claims.specs.Sentences.{seen};
ghost use Rattle.kp_claim_sentences.specs.Faults.{dependencies_at, file_labels as stated_file};
ghost use Rattle.kp_claim_sentences.specs.Noted.{names_seen};
ghost use Rattle.kp_claim_files.specs.Read.{Notes};

use indexmap::IndexMap;
use kp_claim_sentences::dependencies_of;
use kp_claims::label::label_of;
use kp_kore::{Name, Sentence};
use kp_names::names::{Names, note};
use std::alloc::{AllocError, Global};

/// For each label its first place among those of the file.
pub type LabelPlaces = IndexMap<Name, usize>;

/// The labels of all claims of a file, and those that some claim of it depends on, be it faulty or not.
#[derive(Drop)]
pub struct FileLabels {
    pub places: LabelPlaces,
    pub used: Names,
}

/// The labels of these sentences.
pub fn file_labels(alloc: Global, sentences: &[&Sentence]) -> Result<FileLabels, AllocError>
    ensures { IfOk result (Notes (stated_file (seen sentences.now))) }
{
    let labels = labels_of(alloc, sentences)?;
    Ok(FileLabels {
        places: places_of(alloc, &labels)?,
        used: used_in(alloc, sentences)?,
    })
}

/// The labels of the claims among these sentences.
fn labels_of<'a>(alloc: Global, sentences: &[&'a Sentence]) -> Result<Vec<&'a Name>, AllocError>
    ensures { IfOk result (λ labels. names_seen labels.items ≡ stated_labels (seen sentences.now)) }
{
    let mut labels = Vec::new(alloc);
    for i in 0..sentences.len() {
        if let Some(label) = label_at(sentences[i]) {
            labels.push(label)?;
        }
    }
    Ok(labels)
}

/// The label of a claim.
fn label_at(sentence: &Sentence) -> Option<&Name>
    ensures { option_to_list (option_map (λ n. string_bytes n.now) result) ≡ stated_label (sentence_view sentence.now) }
{
    match sentence {
        Sentence::Claim(statement) => label_of(&statement.attributes),
        _ => None,
    }
}

/// For each label its first place.
fn places_of(alloc: Global, labels: &[&Name]) -> Result<LabelPlaces, AllocError>
    ensures { IfOk result (Indexes (names_seen labels.now)) }
{
    let mut places = IndexMap::new(alloc);
    for i in 0..labels.len() {
        note_place(&mut places, labels[i], i)?;
    }
    Ok(places)
}

/// Notes the place of a label, where it has none.
fn note_place(places: &mut LabelPlaces, label: &Name, place: usize) -> Result<(), AllocError>
    ensures { (names : List Text) → Indexes names places.old → place ≡ length names → OnOk result (Indexes (names ++ string_bytes label.now ∷ []) places.new) }
{
    if !places.contains_key(label.as_str()) {
        places.insert(label.clone()?, place)?;
    }
    Ok(())
}

/// The labels that these sentences depend on.
fn used_in(alloc: Global, sentences: &[&Sentence]) -> Result<Names, AllocError>
    ensures { IfOk result (Lists (flat_map dependencies_at (seen sentences.now))) }
{
    let mut used = IndexMap::new(alloc);
    for i in 0..sentences.len() {
        note_used(alloc, &mut used, sentences[i])?;
    }
    Ok(used)
}

/// Notes the labels that a sentence depends on.
fn note_used(alloc: Global, used: &mut Names, sentence: &Sentence) -> Result<(), AllocError>
    ensures { (before : List Text) → Lists before used.old → OnOk result (Lists (before ++ dependencies_at (sentence_view sentence.now)) used.new) }
{
    match sentence {
        Sentence::Claim(statement) => {
            let labels = dependencies_of(alloc, &statement.attributes)?;
            note_labels(used, &labels)
        }
        _ => Ok(()),
    }
}

/// Notes these labels.
fn note_labels(noted: &mut Names, labels: &[Name]) -> Result<(), AllocError>
    ensures { (before : List Text) → Lists before noted.old → OnOk result (Lists (before ++ names_view labels.now) noted.new) }
{
    for label in labels {
        note(noted, label)?;
    }
    Ok(())
}
