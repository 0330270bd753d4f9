use kp_kore::{Pattern, Sort};
use kp_outward::state_out;
use kp_print::print_pattern;
use kp_signature::{Signature, verify};
use kp_solving::inward;
use kp_symbolic::{Language, State};
use kp_text::{read_module, read_pattern};
use std::alloc::Global;
use std::test::Fail;

/// The signature of a module's text.
pub(crate) fn signature(alloc: Global, text: &str) -> Result<Signature, Fail> {
    match read_module(alloc, text.as_bytes()) {
        Ok(module) => Ok(Signature::new(alloc, &[&module])?),
        Err(_) => Err(Fail::from("no module")),
    }
}

/// The pattern of a text.
pub(crate) fn pattern(alloc: Global, text: &[u8]) -> Result<Pattern, Fail> {
    match read_pattern(alloc, text) {
        Ok(pattern) => Ok(pattern),
        Err(_) => Err(Fail::from("no pattern")),
    }
}

/// The sort of a pattern, which is verified.
fn sort_of(alloc: Global, signature: &Signature, pattern: &Pattern) -> Result<Sort, Fail> {
    match verify(alloc, signature, pattern) {
        Ok(sort) => Ok(sort),
        Err(_) => Err(Fail::from("not verified")),
    }
}

/// The state that a pattern is read as, its equations solved.
fn state_of(alloc: Global, language: &Language, pattern: &Pattern) -> Result<State, Fail> {
    let sort = sort_of(alloc, language.signature, pattern)?;
    match inward(alloc, language, pattern, sort) {
        Ok(state) => Ok(state),
        Err(_) => Err(Fail::from("no state")),
    }
}

/// What is written for a state, as text.
fn text_of(alloc: Global, language: &Language, state: &State) -> Result<Vec<u8>, Fail> {
    match state_out(alloc, language, state) {
        Ok(written) => Ok(print_pattern(alloc, &written)?),
        Err(_) => Err(Fail::from("not written")),
    }
}

/// What is written for the state that a pattern is read as.
fn written_for(alloc: Global, language: &Language, pattern: &Pattern) -> Result<Vec<u8>, Fail> {
    let state = state_of(alloc, language, pattern)?;
    text_of(alloc, language, &state)
}

/// What is written for the state of a text.
pub(crate) fn written(alloc: Global, language: &Language, text: &[u8]) -> Result<Vec<u8>, Fail> {
    let pattern = pattern(alloc, text)?;
    written_for(alloc, language, &pattern)
}
