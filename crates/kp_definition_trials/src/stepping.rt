// Rows of terms, with the patterns that follow them.
use crate::texts::pattern;
use kp_kore::{Definition, Pattern};
use kp_modules::load;
use kp_rule_sets::RuleSet;
use kp_successors::{GroundError, ground_step};
use kp_text::read_definition;
use std::alloc::Global;
use std::test::Fail;

/// How the step is refused.
fn told(error: &GroundError) -> &str {
    match error {
        GroundError::Number => "G1",
        GroundError::Foreign { id } => id.as_str(),
        GroundError::Unread => "unread",
        _ => "other",
    }
}

/// Whether the pattern is the one that a text spells.
fn is_spelled(alloc: Global, found: &Pattern, text: &str) -> Result<bool, Fail> {
    let wanted = pattern(alloc, text)?;
    Ok(found.equal(&wanted))
}

/// Whether the patterns are those that these texts spell.
fn are_spelled(alloc: Global, patterns: &[Pattern], texts: &[&str]) -> Result<bool, Fail> {
    if patterns.len() != texts.len() {
        return Ok(false);
    }
    for i in 0..patterns.len().min(texts.len()) {
        if !is_spelled(alloc, &patterns[i], texts[i])? {
            return Ok(false);
        }
    }
    Ok(true)
}

/// Whether the term has these successors, or this refusal.
fn is_stepped(
    alloc: Global,
    rules: &RuleSet,
    term: &Pattern,
    wanted: &[&str],
    refusal: &str,
) -> Result<bool, Fail> {
    match ground_step(alloc, rules, term) {
        Ok(patterns) => Ok(refusal.is_empty() && are_spelled(alloc, &patterns, wanted)?),
        Err(error) => Ok(told(&error) == refusal),
    }
}

/// The same of a text's term.
fn is_told(
    alloc: Global,
    rules: &RuleSet,
    text: &str,
    wanted: &[&str],
    refusal: &str,
) -> Result<bool, Fail> {
    let term = pattern(alloc, text)?;
    is_stepped(alloc, rules, &term, wanted, refusal)
}

/// The first term of which the same doesn't hold.
fn failing_over<'a>(
    alloc: Global,
    rules: &RuleSet,
    rows: &'a [(&'a str, &'a [&'a str], &'a str)],
) -> Result<Option<&'a str>, Fail> {
    for (text, wanted, refusal) in rows {
        if !is_told(alloc, rules, text, wanted, refusal)? {
            return Ok(Some(*text));
        }
    }
    Ok(None)
}

/// The same over a module of a definition.
fn failing_in<'a>(
    alloc: Global,
    definition: &Definition,
    module: &str,
    rows: &'a [(&'a str, &'a [&'a str], &'a str)],
) -> Result<Option<&'a str>, Fail> {
    match load(alloc, definition, module) {
        Ok(table) => failing_over(alloc, table.rule_set(), rows),
        Err(_) => Err(Fail::from("not loaded")),
    }
}

/// The same over a module of a definition's text.
pub fn failing<'a>(
    alloc: Global,
    definition: &str,
    module: &str,
    rows: &'a [(&'a str, &'a [&'a str], &'a str)],
) -> Result<Option<&'a str>, Fail> {
    match read_definition(alloc, definition.as_bytes()) {
        Ok(definition) => failing_in(alloc, &definition, module, rows),
        Err(_) => Err(Fail::from("no definition")),
    }
}
