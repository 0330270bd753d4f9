use crate::answers::{FIRST, each_is_answered, in_two, is_row};
use crate::table::is_told;
use std::alloc::Global;
use std::process::Abort;

/// The reply to what is no JSON.
const PARSE: &str =
    "{\"error\":{\"code\":-32700,\"message\":\"Parse error\"},\"id\":null,\"jsonrpc\":\"2.0\"}\n";

/// The reply to JSON that is no request.
const INVALID: &str =
    "{\"error\":{\"code\":-32600,\"message\":\"Invalid Request\"},\"id\":null,\"jsonrpc\":\"2.0\"}\n";

/// The reply to a request with other params.
const PARAMS: &str =
    "{\"error\":{\"code\":-32602,\"message\":\"Invalid params\"},\"id\":\"a\",\"jsonrpc\":\"2.0\"}\n";

/// Frames that are no request, and their replies.
const NO_REQUESTS: [(&str, &str); 16] = [
    // what is no JSON is a parse error
    ("hello\n", PARSE),
    ("}\n", PARSE),
    ("{]", PARSE),
    // what is no request is invalid
    (r#"{"a":"\"}"}"#, INVALID),
    ("null\n", INVALID),
    ("1\n", INVALID),
    ("\"a\"\n", INVALID),
    ("[]", INVALID),
    // an invalid request echoes a lawful id
    (
        r#"{"jsonrpc":"1.0","id":1,"method":"execute"}"#,
        "{\"error\":{\"code\":-32600,\"message\":\"Invalid Request\"},\"id\":1,\"jsonrpc\":\"2.0\"}\n",
    ),
    (
        r#"{"jsonrpc":"2.0","id":"a","method":7}"#,
        "{\"error\":{\"code\":-32600,\"message\":\"Invalid Request\"},\"id\":\"a\",\"jsonrpc\":\"2.0\"}\n",
    ),
    // other ids are invalid
    (r#"{"jsonrpc":"2.0","id":1.5,"method":"x"}"#, INVALID),
    (
        r#"{"jsonrpc":"2.0","id":18446744073709551616,"method":"x"}"#,
        INVALID,
    ),
    (r#"{"jsonrpc":"2.0","id":-0,"method":"x"}"#, INVALID),
    (r#"{"jsonrpc":"2.0","id":true,"method":"x"}"#, INVALID),
    (r#"{"jsonrpc":"2.0","id":[],"method":"x"}"#, INVALID),
    (r#"{"jsonrpc":"2.0","id":{},"method":"x"}"#, INVALID),
];

/// What is no request is told, bytes that are no text among them.
#[test]
fn what_is_no_request_is_told(rt: HostRuntime) {
    each_is_answered(&rt, rt.alloc(), &NO_REQUESTS);
    assert!(rt; is_row(&rt, rt.alloc(), &[255, 10], PARSE));
}

/// Requests that can't be served, and notifications, and their replies.
const REQUESTS: [(&str, &str); 15] = [
    // other methods are not found
    (
        r#"{"jsonrpc":"2.0","id":18446744073709551615,"method":"x"}"#,
        "{\"error\":{\"code\":-32601,\"message\":\"Method not found\"},\"id\":18446744073709551615,\"jsonrpc\":\"2.0\"}\n",
    ),
    (
        r#"{"jsonrpc":"2.0","id":null,"method":"x"}"#,
        "{\"error\":{\"code\":-32601,\"message\":\"Method not found\"},\"id\":null,\"jsonrpc\":\"2.0\"}\n",
    ),
    (
        r#"{"jsonrpc":"2.0","id":7,"method":"frobnicate"}"#,
        "{\"error\":{\"code\":-32601,\"message\":\"Method not found\"},\"id\":7,\"jsonrpc\":\"2.0\"}\n",
    ),
    (
        r#"{"jsonrpc":"2.0","id":-5,"method":"x"}"#,
        "{\"error\":{\"code\":-32601,\"message\":\"Method not found\"},\"id\":-5,\"jsonrpc\":\"2.0\"}\n",
    ),
    // a notification has no reply
    (r#"{"jsonrpc":"2.0","method":"x"}"#, ""),
    (r#"{"jsonrpc":"2.0","method":"execute","params":[]}"#, ""),
    (
        r#"{"jsonrpc":"2.0","method":"add-module","params":{"module":"m"}}"#,
        "",
    ),
    // other params are invalid
    (
        r#"{"jsonrpc":"2.0","id":"a","method":"execute","params":{}}"#,
        PARAMS,
    ),
    (
        r#"{"jsonrpc":"2.0","id":"a","method":"execute","params":[]}"#,
        PARAMS,
    ),
    (
        r#"{"jsonrpc":"2.0","id":"a","method":"execute","params":{"state":{},"max-depth":-1}}"#,
        PARAMS,
    ),
    (r#"{"jsonrpc":"2.0","id":"a","method":"simplify"}"#, PARAMS),
    (
        r#"{"jsonrpc":"2.0","id":"a","method":"implies","params":{"antecedent":{}}}"#,
        PARAMS,
    ),
    (
        r#"{"jsonrpc":"2.0","id":"a","method":"add-module","params":{"module":"","name-as-id":1}}"#,
        PARAMS,
    ),
    // faulty trees are told
    (
        r#"{"jsonrpc":"2.0","id":"a","method":"execute","params":{"state":{"format":"KORE","version":2,"term":{}}}}"#,
        "{\"error\":{\"code\":1,\"data\":{\"kind\":\"J4\",\"name\":\"version\"},\"message\":\"Could not parse pattern\"},\"id\":\"a\",\"jsonrpc\":\"2.0\"}\n",
    ),
    (
        r#"{"jsonrpc":"2.0","id":"a","method":"simplify","params":{"state":{"format":"KORE","version":1,"term":{"tag":"App"}}}}"#,
        "{\"error\":{\"code\":1,\"data\":{\"kind\":\"J2\",\"name\":\"name\"},\"message\":\"Could not parse pattern\"},\"id\":\"a\",\"jsonrpc\":\"2.0\"}\n",
    ),
];

/// Why a request can't be served is told, and a notification is let go.
#[test]
fn what_cannot_be_served_is_told(rt: HostRuntime) {
    each_is_answered(&rt, rt.alloc(), &REQUESTS);
}

/// So many copies of a text.
fn copies(rt: &impl Abort, alloc: Global, text: &str, count: usize) -> String {
    text.repeat(alloc, count).expect(rt, "memory")
}

/// A request with 100 `Not` over one `Top`.
fn deep_request(rt: &impl Abort, alloc: Global) -> String {
    let before = copies(rt, alloc, NOT, 100);
    let behind = copies(rt, alloc, "}", 103);
    format!(in alloc; "{HEAD}{before}{TOP}{behind}").expect(rt, "memory")
}

/// What stands before the term of a request.
const HEAD: &str =
    r#"{"jsonrpc":"2.0","id":1,"method":"execute","params":{"state":{"format":"KORE","version":1,"term":"#;

/// What stands before the pattern that is negated.
const NOT: &str = r#"{"tag":"Not","sort":{"tag":"SortApp","name":"SortS","args":[]},"arg":"#;

/// `\top`, as a tree.
const TOP: &str = r#"{"tag":"Top","sort":{"tag":"SortApp","name":"SortS","args":[]}}"#;

/// So many arrays, one within another.
fn arrays(rt: &impl Abort, alloc: Global, count: usize) -> String {
    let before = copies(rt, alloc, "[", count);
    let behind = copies(rt, alloc, "]", count);
    format!(in alloc; "{before}{behind}").expect(rt, "memory")
}

/// A pattern is at most 100 levels deep, a frame at most 127.
#[test]
fn deep_frames_are_told(rt: HostRuntime) {
    let pattern = deep_request(&rt, rt.alloc());
    let batch = arrays(&rt, rt.alloc(), 127);
    let beyond = arrays(&rt, rt.alloc(), 128);
    let rows = [
        (
            pattern.as_str(),
            "{\"error\":{\"code\":1,\"data\":{\"kind\":\"J5\"},\"message\":\"Could not parse pattern\"},\"id\":1,\"jsonrpc\":\"2.0\"}\n",
        ),
        (
            batch.as_str(),
            "[\n{\"error\":{\"code\":-32600,\"message\":\"Invalid Request\"},\"id\":null,\"jsonrpc\":\"2.0\"}\n]\n",
        ),
        (beyond.as_str(), PARSE),
    ];
    each_is_answered(&rt, rt.alloc(), &rows);
}

/// A bracket, so many spaces and a text.
fn spaced(rt: &impl Abort, alloc: Global, count: usize, behind: &str) -> String {
    let spaces = copies(rt, alloc, " ", count);
    format!(in alloc; "{{{spaces}{behind}").expect(rt, "memory")
}

/// What stands behind the bracket of a request.
const REST: &str = r#""jsonrpc":"2.0","id":1,"method":"x"}"#;

/// A request of 4,194,304 bytes is read, and what has no end by then is a parse error.
#[test]
fn the_longest_frames_are_told(rt: HostRuntime) {
    let alloc = rt.alloc();
    let largest = spaced(&rt, alloc, 4_194_303 - REST.len(), REST);
    let told = in_two(&rt, alloc, largest.as_bytes(), FIRST.as_bytes());
    is_told(
        &rt,
        alloc,
        &told,
        "{\"error\":{\"code\":-32601,\"message\":\"Method not found\"},\"id\":1,\"jsonrpc\":\"2.0\"}\nread\n",
    );
    let endless = spaced(&rt, alloc, 4_194_303, "");
    let told = in_two(&rt, alloc, endless.as_bytes(), b" }");
    is_told(&rt, alloc, &told, PARSE);
}
