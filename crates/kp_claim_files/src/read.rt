// The claims of a file.
ghost use Rattle.std.specs.Prelude.{◌≡◌, ◌++◌, [], List, Some, None, IfOk, IfErr, OnOk, string_bytes};
ghost use Rattle.std.specs.List.{AllZip};
ghost use Rattle.kp_kore.specs.Syntax.{Text, KoreModule, claim_sentence};
ghost use Rattle.kp_kore.specs.View.{view, axiom_sentence_view, sentence_view};
ghost use Rattle.kp_signature.specs.View.{signature_view};
ghost use Rattle.kp_rules.specs.Index.{IsIndexOf};
ghost use Rattle.kp_claims.specs.Claims.{counted};
ghost use Rattle.kp_claims.specs.Faults.{label_at, TellsOf};
ghost use Rattle.kp_claims.specs.Files.{SpellsFile};
ghost use Rattle.kp_names.specs.Met.{Lists};
ghost use Rattle.kp_claims.specs.Sentences.{seen};
ghost use Rattle.kp_claims.specs.Sides.{sides_view};
ghost use Rattle.kp_claim_sentences.specs.Claims.{IsStatedBy, IsStatedAs};
ghost use Rattle.kp_claim_sentences.specs.Faults.{FileLabels as Stated, early_fault, file_labels as stated_file, AreFaultless, IsFaultAt, IsFaultless, IsFaultOfClaim, IsFaultlessClaim, IsFaultlessFile, IsFirstFault, IsFaultOfFile, IsErrorOf};
ghost use Rattle.kp_claim_sentences.specs.Items.{item_view, items_view};
ghost use Rattle.kp_claim_files.specs.Read.{Notes, IsClear, claim_between, sides_at};

use crate::circle::check_circles;
use crate::labels::{FileLabels, file_labels};
use crate::used::check_use;
use indexmap::IndexMap;
use kp_claim_sentences::outline::outline;
use kp_claim_sentences::{FiledClaim, check_sides, dependencies_of};
use kp_claims::file::modules_in;
use kp_claims::label::take_label;
use kp_claims::outline::ClaimOutline;
use kp_claims::sentences::counted_sentences;
use kp_claims::{ClaimError, ClaimFault};
use kp_kore::{AxiomSentence, Claim, Name, Sentence};
use kp_names::names::Names;
use kp_rules::SortIndex;
use kp_signature::Signature;
use kp_signature::attributes::has_mark;
use std::alloc::{AllocError, Global};

/// The claims of a file over a signature, in order; else the file's fault: that of its text, or the first fault of the
/// first sentence that has one, or a claim that depends on itself.
pub fn read_claims(
    alloc: Global,
    bytes: &[u8],
    signature: &Signature,
) -> Result<Vec<FiledClaim>, ClaimError>
    ensures read { let g = signature_view signature.now in IfOk result (λ items. (ms : List KoreModule) × SpellsFile bytes.now ms × IsFaultlessFile g (counted ms) × AllZip IsStatedBy (counted ms) (items_view items.items)) }
    ensures fault { IfErr result (IsErrorOf (signature_view signature.now) bytes.now) }
{
    let modules = modules_in(alloc, bytes)?;
    let sentences = counted_sentences(alloc, &modules)?;
    Ok(claims_of(alloc, signature, &sentences)?)
}

/// The claims of these sentences, or their fault.
fn claims_of(
    alloc: Global,
    signature: &Signature,
    sentences: &[&Sentence],
) -> Result<Vec<FiledClaim>, ClaimError>
    ensures faultless { OnOk result (IsFaultlessFile (signature_view signature.now) (seen sentences.now)) }
    ensures claims { IfOk result (λ items. AllZip IsStatedBy (seen sentences.now) (items_view items.items)) }
    ensures err { IfErr result (TellsOf (IsFaultOfFile (signature_view signature.now) (seen sentences.now))) }
{
    let file = file_labels(alloc, sentences)?;
    let items = claims_among(alloc, signature, &file, sentences)?;
    check_circles(alloc, &file.places, &items)?;
    Ok(items)
}

/// The claims of these sentences of a file, or the fault of the first one that has one.
fn claims_among(
    alloc: Global,
    signature: &Signature,
    file: &FileLabels,
    sentences: &[&Sentence],
) -> Result<Vec<FiledClaim>, ClaimError>
    ensures faultless { let the_seen = seen sentences.now in Notes (stated_file the_seen) file.now → OnOk result (AreFaultless (signature_view signature.now) (stated_file the_seen) [] the_seen) }
    ensures claims { IfOk result (λ items. AllZip IsStatedBy (seen sentences.now) (items_view items.items)) }
    ensures err { Notes (stated_file (seen sentences.now)) file.now → IfErr result (TellsOf (IsFirstFault (signature_view signature.now) (seen sentences.now))) }
{
    let index = SortIndex::new(alloc, signature)?;
    let mut labels = IndexMap::new(alloc);
    let mut items = Vec::new(alloc);
    for i in 0..sentences.len() {
        let item = claim_of_sentence(alloc, signature, &index, file, &mut labels, sentences[i])?;
        items.push(item)?;
    }
    Ok(items)
}

/// The claim of a sentence, or its fault.
fn claim_of_sentence(
    alloc: Global,
    signature: &Signature,
    index: &SortIndex,
    file: &FileLabels,
    labels: &mut Names,
    sentence: &Sentence,
) -> Result<FiledClaim, ClaimError>
    requires index { IsIndexOf (signature_view signature.now) index.now }
    ensures claim { IfOk result (λ item. IsStatedBy (sentence_view sentence.now) (item_view item)) }
    ensures faultless { (f : Stated) (before : List Text) → let g = signature_view signature.now in let sentence' = sentence_view sentence.now in Notes f file.now → Lists before labels.old → OnOk result (IsFaultless g f before sentence') }
    ensures labels { (before : List Text) → Lists before labels.old → OnOk result (Lists (before ++ label_at (sentence_view sentence.now)) labels.new) }
    ensures err { (f : Stated) (before : List Text) → let g = signature_view signature.now in Notes f file.now → Lists before labels.old → IfErr result (TellsOf (IsFaultAt g f before (sentence_view sentence.now))) }
{
    match sentence {
        Sentence::Claim(statement) => claim_of(alloc, signature, index, file, labels, statement),
        Sentence::Import { .. }
        | Sentence::Sort(_)
        | Sentence::Symbol(_)
        | Sentence::Alias(_)
        | Sentence::Axiom(_) => Err(ClaimError::Fault(ClaimFault::OtherShape)),
    }
}

/// The claim that a statement makes, or its fault.
fn claim_of(
    alloc: Global,
    signature: &Signature,
    index: &SortIndex,
    file: &FileLabels,
    labels: &mut Names,
    statement: &AxiomSentence,
) -> Result<FiledClaim, ClaimError>
    requires index { IsIndexOf (signature_view signature.now) index.now }
    ensures claim { IfOk result (λ item. IsStatedAs (axiom_sentence_view statement.now) (item_view item)) }
    ensures faultless { (f : Stated) (before : List Text) → let g = signature_view signature.now in Notes f file.now → Lists before labels.old → OnOk result (IsFaultlessClaim g f before (axiom_sentence_view statement.now)) }
    ensures labels { (before : List Text) → Lists before labels.old → OnOk result (Lists (before ++ label_at (claim_sentence (axiom_sentence_view statement.now))) labels.new) }
    ensures err { (f : Stated) (before : List Text) → let g = signature_view signature.now in Notes f file.now → Lists before labels.old → IfErr result (TellsOf (IsFaultOfClaim g f before (axiom_sentence_view statement.now))) }
{
    let item = stated_claim(alloc, signature, labels, statement)?;
    check_use(alloc, signature, index, file, &item)?;
    Ok(item)
}

/// The claim that a statement makes, or the first fault that it has by itself and after the labels before it.
fn stated_claim(
    alloc: Global,
    signature: &Signature,
    labels: &mut Names,
    statement: &AxiomSentence,
) -> Result<FiledClaim, ClaimError>
    ensures clear { IfOk result (IsClear (signature_view signature.now) (axiom_sentence_view statement.now)) }
    ensures none { (before : List Text) → Lists before labels.old → OnOk result (early_fault (signature_view signature.now) before (axiom_sentence_view statement.now) ≡ None) }
    ensures labels { (before : List Text) → Lists before labels.old → OnOk result (Lists (before ++ label_at (claim_sentence (axiom_sentence_view statement.now))) labels.new) }
    ensures err { (before : List Text) → let g = signature_view signature.now in Lists before labels.old → IfErr result (TellsOf (λ f. early_fault g before (axiom_sentence_view statement.now) ≡ Some f)) }
{
    let sides = outline(alloc, statement)?;
    let label = take_label(labels, &statement.attributes)?;
    check_sides(alloc, signature, sides)?;
    Ok(item_of(alloc, statement, label, sides)?)
}

/// The claim of this label between these sides.
fn item_of(
    alloc: Global,
    statement: &AxiomSentence,
    label: Name,
    sides: ClaimOutline<'_>,
) -> Result<FiledClaim, AllocError>
    ensures item { IfOk result (λ i. item_view i ≡ claim_between (string_bytes label) (axiom_sentence_view statement.now) (sides_view sides.entry)) }
{
    let claim = copied_sides(alloc, sides)?;
    let depends = dependencies_of(alloc, &statement.attributes)?;
    let pattern = statement.pattern.copy(alloc)?;
    Ok(FiledClaim {
        label,
        sort: sides.sort.copy(alloc)?,
        pattern,
        claim,
        circular: has_mark(&statement.attributes, "circularity"),
        depends,
    })
}

/// The sides once more.
fn copied_sides(alloc: Global, sides: ClaimOutline<'_>) -> Result<Claim, AllocError>
    ensures { IfOk result (λ c. (view c.left ≡ view sides.entry.left.now) × (view c.right ≡ view sides.entry.right.now)) }
{
    let left = sides.left.copy(alloc)?;
    let right = sides.right.copy(alloc)?;
    Ok(Claim { left, right })
}
