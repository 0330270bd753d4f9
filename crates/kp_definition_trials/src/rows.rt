// Tables of rows. Each line of a table is a row, `text -> told`, or a heading that begins with `#`.
use crate::claim_files::{claims_told, file_told};
use crate::claim_modules::{labels_told, written_told};
use crate::claims::{sentences_told, specification_told};
use crate::definitions::reached_told;
use crate::layers::layers_told;
use crate::many::number_told;
use crate::subsorts::below_told;
use crate::values::heads_told;
use crate::verifying::verified_told;
use kp_kore::Module;
use kp_signature::Signature;
use kp_text::read_module;
use std::alloc::{AllocError, Global};

/// What is asked of a text over a module.
#[derive(Clone, Copy)]
pub(crate) enum Asked {
    /// The sort of a pattern, or its first fault.
    Verified,
    /// Whether `A < B` holds of sorts.
    Below,
    /// Whether a sort has a value, and `Lbln` heads one, with these sentences.
    Heads,
    /// The modules that are reached of MAIN.
    Reached,
    /// What stands between commas.
    Labels,
    /// The layers of claims.
    Layers,
    /// The labels of ground claims in a specification, or its fault.
    Sentences,
    /// The same of a file's whole text.
    Specification,
    /// The claims of a file, claim by claim, or its fault.
    Claims,
    /// The same of a file's whole text.
    File,
    /// How many claims a file has, or its fault.
    Number,
    /// The module of claims in the other order.
    Written,
}

/// A table, and what is asked of each of its rows.
pub(crate) type Table<'a> = (Asked, &'a str);

/// A module without sentences, for tables of which no signature is asked.
pub(crate) const NONE: &str = "module NONE endmodule []";

/// The first row of tables over a module that isn't told as it says.
pub(crate) fn first_failed<'a>(
    alloc: Global,
    module: &str,
    tables: &[Table<'a>],
) -> Option<&'a str> {
    match read_module(alloc, module.as_bytes()) {
        Ok(module) => failed_over(alloc, &module, tables),
        Err(_) => Some("no module"),
    }
}

/// The same over a module.
fn failed_over<'a>(alloc: Global, module: &Module, tables: &[Table<'a>]) -> Option<&'a str> {
    match Signature::new(alloc, &[module]) {
        Ok(signature) => failed_among(alloc, &signature, tables),
        Err(AllocError) => Some("no memory"),
    }
}

/// The same over a signature.
fn failed_among<'a>(alloc: Global, signature: &Signature, tables: &[Table<'a>]) -> Option<&'a str> {
    for (asked, table) in tables {
        let failed = failed_in(alloc, signature, *asked, table);
        if failed.is_some() {
            return failed;
        }
    }
    None
}

/// The same of one table.
fn failed_in<'a>(
    alloc: Global,
    signature: &Signature,
    asked: Asked,
    table: &'a str,
) -> Option<&'a str> {
    for row in table.lines() {
        if !row.starts_with("#") && !is_told(alloc, signature, asked, row) {
            return Some(row);
        }
    }
    None
}

/// Whether a row is told as it says.
fn is_told(alloc: Global, signature: &Signature, asked: Asked, row: &str) -> bool {
    let Some((text, wanted)) = row.split_once(" ->") else {
        return false;
    };
    let mut told = String::new(alloc);
    match tell(alloc, signature, asked, text, &mut told) {
        Ok(()) => told.as_str() == wanted.trim_start(),
        Err(AllocError) => false,
    }
}

/// Adds what is told of a text.
fn tell(
    alloc: Global,
    signature: &Signature,
    asked: Asked,
    text: &str,
    told: &mut String,
) -> Result<(), AllocError> {
    match asked {
        Asked::Verified => verified_told(alloc, signature, text, told),
        Asked::Below => below_told(alloc, signature, text, told),
        Asked::Heads => heads_told(alloc, text, told),
        Asked::Reached => reached_told(alloc, text, told),
        Asked::Labels => labels_told(alloc, text, told),
        Asked::Layers => layers_told(alloc, text, told),
        Asked::Sentences => sentences_told(alloc, signature, text, told),
        Asked::Specification => specification_told(alloc, signature, text, told),
        Asked::Claims => claims_told(alloc, signature, text, told),
        Asked::File => file_told(alloc, signature, text, told),
        Asked::Number => number_told(alloc, signature, text, told),
        Asked::Written => written_told(alloc, signature, text, told),
    }
}
