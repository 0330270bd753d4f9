// Labels of rules.
ghost use Rattle.std.specs.Prelude.{◌≡◌, Some, None, if◌then◌else◌};
ghost use Rattle.std.specs.List.{list_all};
ghost use Rattle.std.specs.Option.{option_map};
ghost use Rattle.kp_kore.specs.View.{axiom_sentence_view};
ghost use Rattle.kp_kore.specs.Rules.{is_label as label_test, is_label_character as character_test};
ghost use Rattle.kp_kore.specs.Theory.{label_of as stated_label};

use kp_kore::AxiomSentence;
use kp_signature::attributes::text_of;

/// The text of `label{}("..")`, where it isn't empty and each character is one of a label.
pub fn label_of(statement: &AxiomSentence) -> Option<&str>
    ensures { option_map (λ t. t.now) result ≡ stated_label (axiom_sentence_view statement.now) }
{
    match text_of(&statement.attributes, "label") {
        Some(text) => if_label(text),
        None => None,
    }
}

/// The text, where it is a label.
fn if_label(text: &str) -> Option<&str>
    ensures { option_map (λ t. t.now) result ≡ (if label_test text.now then Some text.now else None) }
{
    if is_label(text.as_bytes()) {
        Some(text)
    } else {
        None
    }
}

/// Whether it is one or more characters of labels.
fn is_label(text: &[u8]) -> bool
    ensures { result ≡ label_test text.now }
{
    0 < text.len() && are_label_characters(text)
}

/// Whether each byte may stand in a label.
fn are_label_characters(text: &[u8]) -> bool
    ensures { result ≡ list_all character_test text.now }
{
    text.iter().all(|byte| is_label_character(*byte))
}

/// A character from 33 to 126 that is neither `#` nor a comma.
fn is_label_character(byte: u8) -> bool
    ensures { result ≡ character_test byte }
{
    33 <= byte && byte <= 126 && byte != 35 && byte != 44
}
