// The labels of claims.
ghost use Rattle.std.specs.Prelude.{◌≡◌, ◌++◌, ◌∷◌, [], List, Some, None, IfOk, IfErr, OnOk, not, string_bytes, if◌then◌else◌};
ghost use Rattle.std.specs.List.{list_all, list_any};
ghost use Rattle.std.specs.Option.{option_map};
ghost use Rattle.std.specs.Str.{bytes_eq};
ghost use Rattle.kp_kore.specs.Syntax.{Text};
ghost use Rattle.kp_kore.specs.View.{patterns_view};
ghost use Rattle.kp_claims.specs.Claims.{is_label as label_test, is_label_character as character_test, if_label as stated_if_label, label_of as stated_label};
ghost use Rattle.kp_claims.specs.Faults.{label_fault, TellsOf};
ghost use Rattle.kp_names.specs.Met.{Lists};

use crate::fault::{ClaimError, ClaimFault};
use kp_kore::{Name, Pattern};
use kp_names::names::{Names, is_noted, note};
use kp_signature::attributes::text_of;
use std::alloc::AllocError;

/// Notes and gives the label among a claim's attributes; C6 where there is none, C7 where an earlier claim has it.
pub fn take_label(labels: &mut Names, attributes: &[Pattern]) -> Result<Name, ClaimError>
    ensures label { IfOk result (λ l. stated_label (patterns_view attributes.now) ≡ Some (string_bytes l)) }
    ensures ok { (before : List Text) → let attributes' = patterns_view attributes.now in Lists before labels.old → IfOk result (λ l. (label_fault before (stated_label attributes') ≡ None) × Lists (before ++ string_bytes l ∷ []) labels.new) }
    ensures err { (before : List Text) → Lists before labels.old → IfErr result (TellsOf (λ f. label_fault before (stated_label (patterns_view attributes.now)) ≡ Some f)) }
{
    match label_of(attributes) {
        Some(label) => take_new(labels, label),
        None => Err(ClaimError::Fault(ClaimFault::NoLabel)),
    }
}

/// Notes a label; C7 where an earlier claim has it.
fn take_new(labels: &mut Names, label: &Name) -> Result<Name, ClaimError>
    ensures label { IfOk result (λ l. string_bytes l ≡ string_bytes label.now) }
    ensures ok { let label' = string_bytes label.now in (before : List Text) → Lists before labels.old → IfOk result (λ l. (label_fault before (Some label') ≡ None) × Lists (before ++ string_bytes l ∷ []) labels.new) }
    ensures err { (before : List Text) → Lists before labels.old → IfErr result (TellsOf (λ f. label_fault before (Some (string_bytes label.now)) ≡ Some f)) }
{
    if is_noted(labels, label) {
        return Err(ClaimError::Fault(ClaimFault::RepeatedLabel(label.clone()?)));
    }
    note(labels, label)?;
    Ok(label.clone()?)
}

/// The text of the first `label{}("..")`, where it is a label.
pub fn label_of(attributes: &[Pattern]) -> Option<&Name>
    ensures { option_map (λ l. string_bytes l.now) result ≡ stated_label (patterns_view attributes.now) }
{
    match text_of(attributes, "label") {
        Some(text) => if_label(text),
        None => None,
    }
}

/// The text, where it is a label.
fn if_label(text: &Name) -> Option<&Name>
    ensures { option_map (λ l. string_bytes l.now) result ≡ stated_if_label (Some (string_bytes text.now)) }
{
    if is_label(text.as_bytes()) {
        Some(text)
    } else {
        None
    }
}

/// Whether it is one or more characters of labels.
fn is_label(text: &[u8]) -> bool
    ensures { result ≡ label_test text.now }
{
    0 < text.len() && are_label_characters(text)
}

/// Whether each byte may stand in a label.
fn are_label_characters(text: &[u8]) -> bool
    ensures { result ≡ list_all character_test text.now }
{
    text.iter().all(|byte| is_label_character(*byte))
}

/// A character from 33 to 126 that is no comma.
fn is_label_character(byte: u8) -> bool
    ensures { result ≡ character_test byte }
{
    33 <= byte && byte <= 126 && byte != 44
}
