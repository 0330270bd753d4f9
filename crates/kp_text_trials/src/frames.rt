use kp_frames::Cutter;
use std::alloc::{AllocError, Global};

/// The most bytes of a frame.
const LIMIT: usize = 4_194_304;

/// A request that stands behind each row.
const REQUEST: &str =
    "{\"id\":1,\"jsonrpc\":\"2.0\",\"method\":\"execute\",\"params\":{\"a\":[\"}\"]}}";

/// Feeds a piece, and adds the frames that it ends.
fn feed(
    alloc: Global,
    cutter: &mut Cutter,
    piece: &[u8],
    frames: &mut Vec<Vec<u8>>,
) -> Result<(), AllocError> {
    for frame in cutter.feed(alloc, piece)? {
        frames.push(frame)?;
    }
    Ok(())
}

/// The frames of a text that comes in two pieces.
fn in_two(alloc: Global, text: &[u8], at: usize) -> Result<Vec<Vec<u8>>, AllocError> {
    let mut cutter = Cutter::new(alloc, LIMIT);
    let mut frames = Vec::new(alloc);
    if at <= text.len() {
        feed(alloc, &mut cutter, &text[..at], &mut frames)?;
        feed(alloc, &mut cutter, &text[at..], &mut frames)?;
    }
    Ok(frames)
}

/// The frames of a text that comes byte by byte.
fn byte_by_byte(alloc: Global, text: &[u8]) -> Result<Vec<Vec<u8>>, AllocError> {
    let mut cutter = Cutter::new(alloc, LIMIT);
    let mut frames = Vec::new(alloc);
    for at in 0..text.len() {
        feed(alloc, &mut cutter, &text[at..at + 1], &mut frames)?;
    }
    Ok(frames)
}

/// Whether the frames are this one and the request.
fn are_both(frames: &[Vec<u8>], frame: &[u8]) -> bool {
    frames.len() == 2 && frames[0].as_slice() == frame && frames[1].as_slice() == REQUEST.as_bytes()
}

/// Whether the bytes and the request behind them are this frame and the request, cut after each byte and byte by byte.
fn is_row(alloc: Global, bytes: &[u8], frame: &[u8]) -> Result<bool, AllocError> {
    let mut text = Vec::from_slice(alloc, bytes)?;
    text.extend_from_slice(REQUEST.as_bytes())?;
    for at in 0..=text.len() {
        if !are_both(&in_two(alloc, &text, at)?, frame) {
            return Ok(false);
        }
    }
    Ok(are_both(&byte_by_byte(alloc, &text)?, frame))
}

/// A bracket, so many bytes of white space, and an end.
fn wide(alloc: Global, count: usize, end: &str) -> Result<Vec<u8>, AllocError> {
    let mut text = Vec::from_slice(alloc, "{".as_bytes())?;
    for _ in 0..count {
        text.push(b' ')?;
    }
    text.extend_from_slice(end.as_bytes())?;
    Ok(text)
}

/// Malformed lines, brackets of both kinds and in strings, a request without version: texts, and the frame of each.
static ROWS: [(&[u8], &[u8]); 7] = [
    (b"hello\n", b"hello"),
    (b"}\n", b"}"),
    (&[255, 10], &[255]),
    (b"{]", b"{]"),
    (b" \r\n\t[{}]\n", b"[{}]"),
    (b"{\"a\":\"\\\"}\"}", b"{\"a\":\"\\\"}\"}"),
    (
        b"{\"jsonrpc\":\"1.0\",\"id\":1,\"method\":\"execute\"}",
        b"{\"jsonrpc\":\"1.0\",\"id\":1,\"method\":\"execute\"}",
    ),
];

#[test]
fn streams_are_cut_into_frames(rt: HostRuntime) {
    for (text, frame) in &ROWS {
        assert_eq!(rt; is_row(rt.alloc(), text, frame), Ok(true), "{frame:?}");
    }
}

/// How many frames a frame of all bytes and one more byte have.
fn most_bytes(alloc: Global) -> Result<usize, AllocError> {
    let text = wide(alloc, LIMIT - 2, "}{")?;
    let frames = byte_by_byte(alloc, &text)?;
    Ok(frames.len())
}

/// How many frames a longer one has, whether the cutter is full, and what is left.
fn more_bytes(alloc: Global) -> Result<(usize, bool, usize), AllocError> {
    let text = wide(alloc, LIMIT - 1, "}{}")?;
    let mut cutter = Cutter::new(alloc, LIMIT);
    let count = cutter.feed(alloc, &text)?.len();
    let is_full = cutter.is_full();
    Ok((count, is_full, cutter.finish().len()))
}

#[test]
fn a_frame_has_at_most_all_bytes(rt: HostRuntime) {
    assert_eq!(rt; most_bytes(rt.alloc()), Ok(1));
    assert_eq!(rt; more_bytes(rt.alloc()), Ok((0, true, LIMIT)));
}
