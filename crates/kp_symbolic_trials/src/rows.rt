// Tables of rows. Each line of a table is a row, `text -> told`, or a heading that begins with `#`; the text may end in
// ` where Z = term`.
use crate::clauses::{again_told, clauses_told};
use crate::decided::decided_told;
use crate::folding::{compared_told, folded_told, shared_told};
use crate::opened_states::state_told;
use crate::opening::{equality_told, truth_told};
use kp_kore::{Module, Pattern};
use kp_signature::Signature;
use kp_symbolic::{Language, Replaced, term_under};
use kp_text::{read_module, read_pattern};
use std::alloc::{AllocError, Global};
use std::sync::Arc;

/// What is asked of a text.
#[derive(Clone, Copy)]
pub(crate) enum Asked {
    /// What comes of it when it is folded.
    Folded,
    /// Whether both sides of it, an equality, are folded to one term.
    Compared,
    /// Whether what shares its term is that term.
    Shared,
    /// What it opens to, an equality with this sign.
    Equality(bool),
    /// What it opens to, a Boolean expression with this sign.
    Truth(bool),
    /// The clauses of it, a predicate.
    Clauses,
    /// The clauses that its clauses are opened to again.
    Again,
    /// The state that it is read as.
    State,
    /// What is decided of it, clauses of letters, beside the pattern of a state.
    Decided(&'static str),
}

/// A table, and what is asked of each of its rows.
pub(crate) type Table<'a> = (Asked, &'a str);

/// The first row of tables over a module that isn't told as it says.
pub(crate) fn first_failed<'a>(
    alloc: Global,
    module: &str,
    tables: &[Table<'a>],
) -> Option<&'a str> {
    match read_module(alloc, module.as_bytes()) {
        Ok(module) => failed_over(alloc, &module, tables),
        Err(_) => Some("no module"),
    }
}

/// The same over a module.
fn failed_over<'a>(alloc: Global, module: &Module, tables: &[Table<'a>]) -> Option<&'a str> {
    let Ok(signature) = Signature::new(alloc, &[module]) else {
        return Some("no memory");
    };
    let Ok(language) = Language::new(alloc, &signature) else {
        return Some("no memory");
    };
    failed_among(alloc, &language, tables)
}

/// The same in a language.
fn failed_among<'a>(alloc: Global, language: &Language, tables: &[Table<'a>]) -> Option<&'a str> {
    for (asked, table) in tables {
        let failed = failed_in(alloc, language, *asked, table);
        if failed.is_some() {
            return failed;
        }
    }
    None
}

/// The same of one table.
fn failed_in<'a>(
    alloc: Global,
    language: &Language,
    asked: Asked,
    table: &'a str,
) -> Option<&'a str> {
    for row in table.lines() {
        if !row.starts_with("#") && !is_told(alloc, language, asked, row) {
            return Some(row);
        }
    }
    None
}

/// Whether a row is told as it says.
fn is_told(alloc: Global, language: &Language, asked: Asked, row: &str) -> bool {
    let Some((text, wanted)) = row.split_once(" ->") else {
        return false;
    };
    let mut told = String::new(alloc);
    match tell(alloc, language, asked, text, &mut told) {
        Ok(()) => told.as_str() == wanted.trim_start(),
        Err(AllocError) => false,
    }
}

/// Adds what is told of a row's text.
fn tell(
    alloc: Global,
    language: &Language,
    asked: Asked,
    text: &str,
    told: &mut String,
) -> Result<(), AllocError> {
    if let Asked::Decided(state) = asked {
        return decided_told(alloc, language, text, state, told);
    }
    let Some((text, term)) = text.split_once(" where Z = ") else {
        return text_told(alloc, language, &[], asked, text, told);
    };
    let mut replaced = Vec::new(alloc);
    add_replaced(alloc, language, term, &mut replaced)?;
    text_told(alloc, language, &replaced, asked, text, told)
}

/// Adds a text's term in the place of `Z`; nothing where there is none.
fn add_replaced(
    alloc: Global,
    language: &Language,
    text: &str,
    replaced: &mut Vec<Replaced>,
) -> Result<(), AllocError> {
    let name = Arc::new(alloc, String::from_str(alloc, "Z")?)?;
    let Ok(pattern) = read_pattern(alloc, text.as_bytes()) else {
        return Ok(());
    };
    if let Ok(term) = term_under(&pattern, alloc, language, &[]) {
        replaced.push(Replaced { name, term })?;
    }
    Ok(())
}

/// Adds what is told of a text with terms in the place of variables.
fn text_told(
    alloc: Global,
    language: &Language,
    replaced: &[Replaced],
    asked: Asked,
    text: &str,
    told: &mut String,
) -> Result<(), AllocError> {
    match read_pattern(alloc, text.as_bytes()) {
        Ok(pattern) => pattern_told(alloc, language, replaced, asked, &pattern, told),
        Err(_) => told.push_str("no pattern"),
    }
}

/// The same of a pattern.
fn pattern_told(
    alloc: Global,
    language: &Language,
    replaced: &[Replaced],
    asked: Asked,
    pattern: &Pattern,
    told: &mut String,
) -> Result<(), AllocError> {
    match asked {
        Asked::Folded => folded_told(alloc, language, pattern, told),
        Asked::Compared => compared_told(alloc, language, replaced, pattern, told),
        Asked::Shared => shared_told(alloc, language, pattern, told),
        Asked::Equality(sign) => equality_told(alloc, language, sign, pattern, told),
        Asked::Truth(sign) => truth_told(alloc, language, sign, pattern, told),
        Asked::Clauses => clauses_told(alloc, language, pattern, told),
        Asked::Again => again_told(alloc, language, replaced, pattern, told),
        Asked::State => state_told(alloc, language, pattern, told),
        Asked::Decided(_) => told.push_str("no letters"),
    }
}
