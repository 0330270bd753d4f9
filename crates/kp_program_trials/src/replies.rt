// Inputs that the program serves over a definition.
use crate::definitions::{Asked, definition_of};
use crate::running::is_told;
use std::alloc::Global;
use std::sync::Wait;
use std::test::Fail;

/// What is said of a row, an input, and the lines that are written, the last without its line feed, or nothing.
pub(crate) type Row = (&'static str, &'static str, &'static str);

/// Whether an input over a definition gets these lines.
pub(crate) fn is_replied<R: Wait>(
    rt: &R,
    alloc: Global,
    asked: Asked,
    input: &str,
    lines: &str,
) -> bool {
    let (main, definition) = definition_of(asked);
    let words: (&[&str], &[&str]) = (&["kprove", "stdio", "d.kore", "--module"], &[main]);
    is_told(rt, alloc, words, (definition.as_bytes(), ""), input, lines)
}

/// Refuses the first row whose input gets something else.
pub(crate) fn are_replied<R: Wait>(
    rt: &R,
    alloc: Global,
    asked: Asked,
    rows: &[Row],
) -> Result<(), Fail> {
    for (said, input, lines) in rows {
        if !is_replied(rt, alloc, asked, input, lines) {
            return Err(Fail::new(*said));
        }
    }
    Ok(())
}
