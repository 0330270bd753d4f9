// Names that new variables may have.
ghost use Rattle.std.specs.Prelude.{◌≡◌, Some, None, codes, string_bytes, option_to_list, if◌then◌else◌};
ghost use Rattle.std.specs.Char.{is_ascii_digit};
ghost use Rattle.std.specs.Str.{bytes_eq};
ghost use Rattle.std.specs.List.{find, flat_map, list_all};
ghost use Rattle.std.specs.Option.{option_map};
ghost use Rattle.kp_kore.specs.Parts.{names_at};
ghost use Rattle.kp_kore.specs.View.{view};
ghost use Rattle.kp_compile.specs.Parts.{seen};
ghost use Rattle.kp_claim_sentences.specs.Faults.{is_fresh_text};

use kp_kore::{Name, Pattern};

/// The first name among these patterns' variables and binders that new variables may have.
pub fn first_fresh<'a>(parts: &[&'a Pattern]) -> Option<&'a Name>
    ensures { option_map (λ n. string_bytes n.now) result ≡ find is_fresh_text (flat_map names_at (seen parts.now)) }
{
    for i in 0..parts.len() {
        if let Some(name) = fresh_at(parts[i]) {
            return Some(name);
        }
    }
    None
}

/// The name of the variable, or of the one that is bound, where new variables may have it.
fn fresh_at(pattern: &Pattern) -> Option<&Name>
    ensures { option_map (λ n. string_bytes n.now) result ≡ find is_fresh_text (names_at (view pattern.now)) }
{
    match name_at(pattern) {
        Some(name) => if_fresh(name),
        None => None,
    }
}

/// The name, where new variables may have it.
fn if_fresh(name: &Name) -> Option<&Name>
    ensures { option_map (λ n. string_bytes n.now) result ≡ (if is_fresh_text (string_bytes name.now) then Some (string_bytes name.now) else None) }
{
    if is_fresh(name.as_bytes()) {
        Some(name)
    } else {
        None
    }
}

/// Whether it is `Fresh` and one or more digits.
fn is_fresh(name: &[u8]) -> bool
    ensures { result ≡ is_fresh_text name.now }
{
    if name.len() <= 5 {
        return false;
    }
    is_fresh_word(&name[..5]) && are_digits(&name[5..])
}

/// Whether it is `Fresh`.
fn is_fresh_word(text: &[u8]) -> bool
    ensures { result ≡ bytes_eq text.now (codes "Fresh") }
{
    text == b"Fresh".as_slice()
}

/// Whether each byte is a digit.
fn are_digits(text: &[u8]) -> bool
    ensures { result ≡ list_all is_ascii_digit text.now }
{
    text.iter().all(|byte| byte.is_ascii_digit())
}

/// The name of a variable, or the one that a binder binds.
fn name_at(pattern: &Pattern) -> Option<&Name>
    ensures { option_to_list (option_map (λ n. string_bytes n.now) result) ≡ names_at (view pattern.now) }
{
    match pattern {
        Pattern::Variable { name, .. }
        | Pattern::SetVariable { name, .. }
        | Pattern::Exists { name, .. }
        | Pattern::Forall { name, .. }
        | Pattern::Mu { name, .. }
        | Pattern::Nu { name, .. } => Some(name),
        _ => None,
    }
}
