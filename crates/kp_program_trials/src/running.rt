// Runs of the program over files, an input and outputs in memory.
use kp_io::{Bytes, Drain, Files, OutsideFault, Shelf};
use kp_program::run;
use std::alloc::{AllocError, Global};
use std::sync::Wait;

/// Adds words of a command line.
fn add_words(alloc: Global, words: &mut Vec<String>, more: &[&str]) -> Result<(), AllocError> {
    for word in more {
        words.push(String::from_str(alloc, *word)?)?;
    }
    Ok(())
}

/// The words of a command line, in two parts.
fn spelled(alloc: Global, first: &[&str], more: &[&str]) -> Result<Vec<String>, AllocError> {
    let mut words = Vec::new(alloc);
    add_words(alloc, &mut words, first)?;
    add_words(alloc, &mut words, more)?;
    Ok(words)
}

/// Whether the bytes are these lines, the last of which stands here without its line feed, or nothing.
fn are_lines(bytes: &[u8], lines: &[u8]) -> bool {
    match bytes {
        [front @ .., last] => *last == b'\n' && front == lines,
        _ => lines.is_empty(),
    }
}

/// Whether a text is `status`, a status, and what standard error got.
fn is_ending(text: &[u8], status: u8, err: &[u8]) -> bool {
    match text.split_at_checked(7) {
        Some((word, [digit, b':', b' ', rest @ ..])) => {
            word == b"status ".as_slice() && *digit == b'0'.saturating_add(status) && rest == err
        }
        _ => false,
    }
}

/// Whether this is told: the lines that are written where the status is 0 and standard error got nothing, else what is
/// written and its ending.
fn is_wanted(wanted: &[u8], status: u8, out: &[u8], err: &[u8]) -> bool {
    if status == 0 && err.is_empty() {
        return are_lines(out, wanted);
    }
    match wanted.split_at_checked(out.len()) {
        Some((front, ending)) => front == out && is_ending(ending, status, err),
        None => false,
    }
}

/// Whether the program tells this with words in two parts, over files, an input and an output.
pub(crate) fn is_run<R: Wait>(
    rt: &R,
    alloc: Global,
    words: (&[&str], &[&str]),
    files: &mut Files,
    input: &mut Bytes,
    out: &mut Drain,
    wanted: &str,
) -> Result<bool, AllocError> {
    let words = spelled(alloc, words.0, words.1)?;
    let mut err = Drain::new(alloc, Vec::new(alloc));
    let status = run(rt, alloc, &words, files, input, out, &mut err);
    Ok(is_wanted(wanted.as_bytes(), status, out.bytes(), err.bytes()))
}

/// The files `d.kore` and `c.kore`, of whose calls these fail; the first two are the stores.
pub(crate) fn shelf(
    alloc: Global,
    definition: &[u8],
    claims: &str,
    failing: &[u64],
) -> Result<Files, OutsideFault> {
    let mut files = Files::new(alloc, Vec::from_slice(alloc, failing)?);
    files.store("d.kore", definition)?;
    files.store("c.kore", claims.as_bytes())?;
    Ok(files)
}

/// The same over files with a definition and claims, where no call fails.
fn is_sure<R: Wait>(
    rt: &R,
    alloc: Global,
    words: (&[&str], &[&str]),
    files: (&[u8], &str),
    input: &str,
    wanted: &str,
) -> Result<bool, OutsideFault> {
    let (definition, claims) = files;
    let mut files = shelf(alloc, definition, claims, &[])?;
    let mut input = Bytes::new(Vec::from_slice(alloc, input.as_bytes())?, Vec::new(alloc));
    let mut out = Drain::new(alloc, Vec::new(alloc));
    Ok(is_run(rt, alloc, words, &mut files, &mut input, &mut out, wanted)?)
}

/// Whether it is told over a definition, claims and an input, and memory was enough.
pub(crate) fn is_told<R: Wait>(
    rt: &R,
    alloc: Global,
    words: (&[&str], &[&str]),
    files: (&[u8], &str),
    input: &str,
    wanted: &str,
) -> bool {
    match is_sure(rt, alloc, words, files, input, wanted) {
        Ok(told) => told,
        Err(_) => false,
    }
}

/// The parts, one behind the other.
pub(crate) fn joined(alloc: Global, parts: &[&str]) -> Result<String, AllocError> {
    let mut text = String::new(alloc);
    for part in parts {
        text.push_str(*part)?;
    }
    Ok(text)
}

/// Adds a part so often.
pub(crate) fn add_often(text: &mut String, part: &str, times: u64) -> Result<(), AllocError> {
    for _time in 0..times {
        text.push_str(part)?;
    }
    Ok(())
}
