// Tables of rows, and the one walk over them. What a test makes on its way, memory is there for: without it the test ends.
use std::alloc::{AllocError, Global};
use std::process::Abort;

/// What a row asks.
pub trait Subject {
    /// What the calls tell of it.
    fn told(&self, rt: &impl Abort, alloc: Global) -> Vec<u8>;
}

/// Ends the test at the first row of which something else is told, and prints both.
pub fn each_is_told<S: Subject>(rt: &impl Abort, alloc: Global, rows: &[(S, &str)]) {
    for (subject, wanted) in rows {
        is_told(rt, alloc, &subject.told(rt, alloc), wanted);
    }
}

/// Ends the test where something else is told, and prints both.
pub fn is_told(rt: &impl Abort, alloc: Global, told: &[u8], wanted: &str) {
    let told = String::from_utf8_lossy(alloc, told).expect(rt, "memory");
    assert_eq!(rt; told.as_str(), wanted);
}

/// A text of its own.
pub fn text(rt: &impl Abort, alloc: Global, text: &str) -> String {
    String::from_str(alloc, text).expect(rt, "memory")
}

/// The bytes of a text.
pub fn bytes(rt: &impl Abort, alloc: Global, text: &str) -> Vec<u8> {
    Vec::from_slice(alloc, text.as_bytes()).expect(rt, "memory")
}

/// The bytes that were written, of which each part has a tag.
pub fn written(rt: &impl Abort, bytes: Result<Option<Vec<u8>>, AllocError>) -> Vec<u8> {
    bytes.expect(rt, "memory").expect(rt, "no tag")
}
