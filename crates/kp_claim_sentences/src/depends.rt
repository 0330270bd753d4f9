// What a claim depends on.
ghost use Rattle.std.specs.Prelude.{◌≡◌, ◌<◌, ◌∷◌, [], IfOk, IfSome, MatchOption, length, unwrap_or};
ghost use Rattle.std.specs.Option.{is_some};
ghost use Rattle.kp_kore.specs.View.{names_view, patterns_view};
ghost use Rattle.kp_claim_sentences.specs.Claims.{comma_parts as parts_of, dependencies_of as stated_dependencies};

use kp_claims::outline::has_attribute;
use kp_kore::{Name, Pattern};
use kp_signature::attributes::text_of;
use std::alloc::{AllocError, Global};

/// What stands between the commas of a text.
pub fn comma_parts(alloc: Global, text: &str) -> Result<Vec<Name>, AllocError>
    ensures { IfOk result (λ parts. names_view parts.items ≡ parts_of text.now) }
{
    let mut parts = Vec::new(alloc);
    let mut rest = text;
    while let Some((part, more)) = cut(rest) {
        parts.push(String::from_str(alloc, part)?)?;
        rest = more;
    }
    parts.push(String::from_str(alloc, rest)?)?;
    Ok(parts)
}

/// What stands before the first comma, and behind it.
fn cut(text: &str) -> Option<(&str, &str)>
    ensures parts { MatchOption result (parts_of text.now ≡ text.now ∷ []) (λ p. parts_of text.now ≡ p.0.now ∷ parts_of p.1.now) }
    ensures shorter { IfSome result (λ p. length p.1.now < length text.now) }
{
    text.split_once(',')
}

/// Whether `depends`, where it stands among the attributes, has a text.
pub fn has_dependencies(attributes: &[Pattern]) -> bool
    ensures { result ≡ is_some (stated_dependencies (patterns_view attributes.now)) }
{
    !has_attribute(attributes, "depends") || text_of(attributes, "depends").is_some()
}

/// The labels in `depends`; none where it has no text.
pub fn dependencies_of(alloc: Global, attributes: &[Pattern]) -> Result<Vec<Name>, AllocError>
    ensures { IfOk result (λ labels. names_view labels.items ≡ unwrap_or (stated_dependencies (patterns_view attributes.now)) []) }
{
    if !has_attribute(attributes, "depends") {
        return Ok(Vec::new(alloc));
    }
    match text_of(attributes, "depends") {
        Some(text) => comma_parts(alloc, text),
        None => Ok(Vec::new(alloc)),
    }
}
