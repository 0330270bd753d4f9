use crate::echo::Echo;
use kp_conn::{Served, serve};
use kp_io::{Bytes, Drain};
use std::alloc::{AllocError, Global};
use std::sync::Wait;
use std::test::Fail;

/// The reply to bytes that are no frame.
const PARSE_ERROR: &str =
    "{\"error\":{\"code\":-32700,\"message\":\"Parse error\"},\"id\":null,\"jsonrpc\":\"2.0\"}\n";

/// Two frames.
const TWO: &[u8] = b"{} {\"a\":1}";

/// What is said of a connection, its bytes, the calls of the source and of the sink that fail, how it ends, and what is
/// written.
type Row = (
    &'static str,
    &'static [u8],
    &'static [u64],
    &'static [u64],
    Served,
    &'static str,
);

/// Whether a connection of these bytes, where these calls of the source and of the sink fail, ends so, with this written.
fn is_told<R: Wait>(
    rt: &R,
    alloc: Global,
    bytes: &[u8],
    failing: (&[u64], &[u64]),
    served: Served,
    written: &str,
) -> Result<bool, AllocError> {
    let (read, put) = failing;
    let mut source = Bytes::new(
        Vec::from_slice(alloc, bytes)?,
        Vec::from_slice(alloc, read)?,
    );
    let mut sink = Drain::new(alloc, Vec::from_slice(alloc, put)?);
    let mut pass = 0u64;
    let found = serve(rt, alloc, &Echo {}, &mut pass, &mut source, &mut sink);
    Ok(found == served && sink.bytes() == written.as_bytes())
}

/// Frames that are answered, rests that are no frame, and faults.
static ROWS: [Row; 13] = [
    ("no bytes", b"", &[], &[], Served::Ended { frames: 0 }, ""),
    (
        "white space",
        b" \n",
        &[],
        &[],
        Served::Ended { frames: 0 },
        "",
    ),
    (
        "two frames",
        b"{} {\"a\":[\"}\"]}",
        &[],
        &[],
        Served::Ended { frames: 2 },
        "{}\n{\"a\":[\"}\"]}\n",
    ),
    (
        "a frame without an answer",
        b"[]{}",
        &[],
        &[],
        Served::Ended { frames: 2 },
        "{}\n",
    ),
    (
        "a word that a line feed ends",
        b"null\n{}",
        &[],
        &[],
        Served::Ended { frames: 2 },
        "null\n{}\n",
    ),
    (
        "a word at the end",
        b"null",
        &[],
        &[],
        Served::Ended { frames: 1 },
        PARSE_ERROR,
    ),
    (
        "an open brace",
        b"{",
        &[],
        &[],
        Served::Truncated,
        PARSE_ERROR,
    ),
    (
        "an open bracket",
        b"[[]",
        &[],
        &[],
        Served::Truncated,
        PARSE_ERROR,
    ),
    (
        "a fault of the first read",
        TWO,
        &[1],
        &[],
        Served::ReadFault,
        "",
    ),
    (
        "a fault of the second read",
        TWO,
        &[2],
        &[],
        Served::ReadFault,
        "{}\n{\"a\":1}\n",
    ),
    (
        "a fault of the first write",
        TWO,
        &[],
        &[1],
        Served::WriteFault,
        "",
    ),
    (
        "a fault of the second write",
        TWO,
        &[],
        &[2],
        Served::WriteFault,
        "{}\n",
    ),
    (
        "a fault of a write that isn't made",
        TWO,
        &[],
        &[3],
        Served::Ended { frames: 2 },
        "{}\n{\"a\":1}\n",
    ),
];

#[test]
fn frames_are_answered_in_order_and_faults_end_a_connection(rt: HostRuntime) -> Result<(), Fail> {
    for (said, bytes, read, put, served, written) in &ROWS {
        match is_told(&rt, rt.alloc(), bytes, (*read, *put), *served, written) {
            Ok(true) => {}
            _ => return Err(Fail::new(*said)),
        }
    }
    Ok(())
}

/// Whether it is told that a frame is too long which isn't ended after as many bytes as a frame may have.
fn is_too_long<R: Wait>(rt: &R, alloc: Global) -> Result<bool, AllocError> {
    let mut text = Vec::from_slice(alloc, b"[")?;
    text.resize(4_194_304, b' ')?;
    text.push(b']')?;
    is_told(rt, alloc, &text, (&[], &[]), Served::TooLong, PARSE_ERROR)
}

#[test]
fn a_frame_has_a_limit(rt: HostRuntime) {
    assert_eq!(rt; is_too_long(&rt, rt.alloc()), Ok(true));
}
