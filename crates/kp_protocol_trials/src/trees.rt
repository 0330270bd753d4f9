use crate::answers::fault_line;
use crate::table::{Subject, bytes, each_is_told};
use kp_json::{JsonError, pattern_of, value_of};
use kp_kore::Pattern;
use kp_rpc::Id;
use serde_json::Value;
use std::alloc::Global;
use std::process::Abort;

/// What the pattern is written as.
fn again(rt: &impl Abort, alloc: Global, pattern: &Pattern) -> Vec<u8> {
    let value = value_of(alloc, pattern)
        .expect(rt, "memory")
        .expect(rt, "no tag");
    value.to_vec(alloc).expect(rt, "memory")
}

/// What a text's tree is written as once it was read, or the reply that tells its first fault.
fn written(rt: &impl Abort, alloc: Global, text: &str) -> Vec<u8> {
    let tree = Value::from_str(alloc, text).expect(rt, "no JSON");
    match pattern_of(alloc, &tree) {
        Ok(pattern) => again(rt, alloc, &pattern),
        Err(JsonError::Fault(fault)) => fault_line(rt, alloc, &Id::Null, fault),
        Err(JsonError::Memory) => bytes(rt, alloc, "memory"),
    }
}

/// The text of so many negations of `\top`.
fn negations(rt: &impl Abort, alloc: Global, count: usize) -> String {
    let before = "{\"arg\":".repeat(alloc, count).expect(rt, "memory");
    let behind = NOT.repeat(alloc, count).expect(rt, "memory");
    format!(in alloc;
        "{{\"format\":\"KORE\",\"term\":{before}{TOP}{behind},\"version\":1}}"
    ).expect(rt, "memory")
}

/// What is told of so many negations: whether they are written as they were read, or their first fault.
fn negated(rt: &impl Abort, alloc: Global, count: usize) -> Vec<u8> {
    let text = negations(rt, alloc, count);
    let told = written(rt, alloc, &text);
    if told.as_slice() == text.as_bytes() {
        return bytes(rt, alloc, "themselves");
    }
    told
}

/// A tree of Kore JSON.
#[derive(Clone, Copy)]
enum Tree {
    Text(&'static str),
    /// So many negations of `\top`.
    Negations(usize),
}

impl Subject for Tree {
    fn told(&self, rt: &impl Abort, alloc: Global) -> Vec<u8> {
        match *self {
            Tree::Text(text) => written(rt, alloc, text),
            Tree::Negations(count) => negated(rt, alloc, count),
        }
    }
}

/// `\top` of a sort variable, as a tree.
const TOP: &str = r#"{"sort":{"name":"S","tag":"SortVar"},"tag":"Top"}"#;

/// What stands behind the pattern that is negated.
const NOT: &str = r#","sort":{"name":"S","tag":"SortVar"},"tag":"Not"}"#;

/// What stands for a pair, members in the order of their names, as a tree is written.
const LISTED: &str =
    r#"{"format":"KORE","term":{"patterns":[{"sort":{"name":"S","tag":"SortVar"},"tag":"Top"},{"arg":{"name":"X","sort":{"name":"T","tag":"SortVar"},"tag":"EVar"},"sort":{"name":"S","tag":"SortVar"},"tag":"Exists","var":"X","varSort":{"name":"T","tag":"SortVar"}}],"sort":{"name":"S","tag":"SortVar"},"tag":"And"},"version":1}"#;

/// `Lblcount` of a number, as a tree is written.
const COUNT: &str =
    r#"{"format":"KORE","term":{"args":[{"sort":{"args":[],"name":"SortInt","tag":"SortApp"},"tag":"DV","value":"2"}],"name":"Lblcount","sorts":[],"tag":"App"},"version":1}"#;

/// Trees, and what they are written as, or the reply that tells the first fault.
const ROWS: [(Tree, &str); 10] = [
    (Tree::Text(COUNT), COUNT),
    // a list of one pattern spells that pattern
    (
        Tree::Text(
            r#"{"format":"KORE","version":1,"term":{"tag":"And","sort":{"tag":"SortVar","name":"S"},"patterns":[{"args":[{"sort":{"args":[],"name":"SortInt","tag":"SortApp"},"tag":"DV","value":"2"}],"name":"Lblcount","sorts":[],"tag":"App"}]}}"#,
        ),
        COUNT,
    ),
    (
        Tree::Text(
            r#"{"format":"KORE","term":{"tag":"And","sort":{"tag":"SortVar","name":"S"},"first":{"tag":"Top","sort":{"tag":"SortVar","name":"S"}},"second":{"tag":"Exists","sort":{"tag":"SortVar","name":"S"},"var":"X","varSort":{"tag":"SortVar","name":"T"},"arg":{"tag":"EVar","name":"X","sort":{"tag":"SortVar","name":"T"}}}},"version":1}"#,
        ),
        LISTED,
    ),
    (
        Tree::Text(r#"{"format":"KORE","version":2,"term":{}}"#),
        "{\"error\":{\"code\":1,\"data\":{\"kind\":\"J4\",\"name\":\"version\"},\"message\":\"Could not parse pattern\"},\"id\":null,\"jsonrpc\":\"2.0\"}\n",
    ),
    (
        Tree::Text(r#"{"format":"JSON","version":1,"term":{}}"#),
        "{\"error\":{\"code\":1,\"data\":{\"kind\":\"J4\",\"name\":\"format\"},\"message\":\"Could not parse pattern\"},\"id\":null,\"jsonrpc\":\"2.0\"}\n",
    ),
    (
        Tree::Text(r#"{"format":"KORE","term":{"tag":"Nope"},"version":1}"#),
        "{\"error\":{\"code\":1,\"data\":{\"kind\":\"J1\",\"name\":\"Nope\"},\"message\":\"Could not parse pattern\"},\"id\":null,\"jsonrpc\":\"2.0\"}\n",
    ),
    (
        Tree::Text(r#"{"format":"KORE","term":{"tag":7},"version":1}"#),
        "{\"error\":{\"code\":1,\"data\":{\"kind\":\"J3\",\"name\":\"tag\"},\"message\":\"Could not parse pattern\"},\"id\":null,\"jsonrpc\":\"2.0\"}\n",
    ),
    (
        Tree::Text(r#"{"format":"KORE","version":1,"term":{}}"#),
        "{\"error\":{\"code\":1,\"data\":{\"kind\":\"J2\",\"name\":\"tag\"},\"message\":\"Could not parse pattern\"},\"id\":null,\"jsonrpc\":\"2.0\"}\n",
    ),
    // a pattern has at most ninety-nine patterns above it
    (Tree::Negations(99), "themselves"),
    (
        Tree::Negations(100),
        "{\"error\":{\"code\":1,\"data\":{\"kind\":\"J5\"},\"message\":\"Could not parse pattern\"},\"id\":null,\"jsonrpc\":\"2.0\"}\n",
    ),
];

/// What is read is written again, and of what spells no pattern the first fault is told.
#[test]
fn what_is_read_is_written_and_the_first_fault_is_told(rt: HostRuntime) {
    each_is_told(&rt, rt.alloc(), &ROWS);
}
