// What attributes say, each in its exact form.
ghost use Rattle.std.specs.Prelude.{◌≡◌, string_bytes};
ghost use Rattle.std.specs.Option.{option_map};
ghost use Rattle.kp_kore.specs.Syntax.{application};
ghost use Rattle.kp_kore.specs.Attributes.{is_mark as mark_test, has_mark as mark_among, marked_text as text_marked_by, text_of as text_among};
ghost use Rattle.kp_kore.specs.View.{view, sorts_view, patterns_view};
ghost use Rattle.kp_signature.specs.Texts.{text_literal};

use kp_kore::{Name, Pattern, Sort};

/// Whether `name{}()` is among the attributes.
pub fn has_mark(attributes: &[Pattern], name: &str) -> bool
    ensures { result ≡ mark_among name.now (patterns_view attributes.now) }
{
    for attribute in attributes {
        if is_mark(attribute, name) {
            return true;
        }
    }
    false
}

/// Whether the attribute is this mark, without sorts and arguments.
fn is_mark(attribute: &Pattern, name: &str) -> bool
    ensures { result ≡ mark_test name.now (view attribute.now) }
{
    match attribute {
        Pattern::Application {
            symbol,
            sorts,
            arguments,
        } => is_mark_of(symbol, sorts, arguments, name),
        _ => false,
    }
}

/// Whether an application of this symbol is the mark.
fn is_mark_of(symbol: &str, sorts: &[Sort], arguments: &[Pattern], name: &str) -> bool
    ensures { result ≡ mark_test name.now (application symbol.now (sorts_view sorts.now) (patterns_view arguments.now)) }
{
    if sorts.len() > 0 {
        return false;
    }
    if arguments.len() > 0 {
        return false;
    }
    symbol == name
}

/// The text of the first attribute `name{}("text")`.
pub fn text_of<'a>(attributes: &'a [Pattern], name: &str) -> Option<&'a Name>
    ensures { option_map (λ t. string_bytes t.now) result ≡ text_among name.now (patterns_view attributes.now) }
{
    for attribute in attributes {
        let text = marked_text(attribute, name);
        if text.is_some() {
            return text;
        }
    }
    None
}

/// The text that the attribute of this name has.
fn marked_text<'a>(attribute: &'a Pattern, name: &str) -> Option<&'a Name>
    ensures { option_map (λ t. string_bytes t.now) result ≡ text_marked_by name.now (view attribute.now) }
{
    match attribute {
        Pattern::Application {
            symbol,
            sorts,
            arguments,
        } => text_marked(symbol, sorts, arguments, name),
        _ => None,
    }
}

/// The text that an application of this name has.
fn text_marked<'a>(
    symbol: &str,
    sorts: &[Sort],
    arguments: &'a [Pattern],
    name: &str,
) -> Option<&'a Name>
    ensures { option_map (λ t. string_bytes t.now) result ≡ text_marked_by name.now (application symbol.now (sorts_view sorts.now) (patterns_view arguments.now)) }
{
    if sorts.len() > 0 {
        return None;
    }
    if arguments.len() != 1 {
        return None;
    }
    if symbol != name {
        return None;
    }
    literal_text(&arguments[0])
}

/// The text of a string literal.
fn literal_text(pattern: &Pattern) -> Option<&Name>
    ensures { option_map (λ t. string_bytes t.now) result ≡ text_literal (view pattern.now) }
{
    match pattern {
        Pattern::StringLiteral { text } => Some(text),
        _ => None,
    }
}
