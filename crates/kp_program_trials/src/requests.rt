use crate::definitions;
use crate::replies::is_replied;
use crate::running::{is_told, joined};
use std::alloc::{AllocError, Global};
use std::sync::Wait;
use std::test::Fail;

/// The request to run a term, up to the term.
const RUN: &str =
    r#"{"jsonrpc":"2.0","id":1,"method":"execute","params":{"state":{"format":"KORE","version":1,"term":"#;

/// The request whether one term implies another, up to the one, and from there to the other.
const IMPLIES: (&str, &str) = (
    r#"{"jsonrpc":"2.0","id":1,"method":"implies","params":{"antecedent":{"format":"KORE","version":1,"term":"#,
    r#"},"consequent":{"format":"KORE","version":1,"term":"#,
);

/// A symbol applied to a whole number, up to the number, from there to the symbol, and behind it.
const APPLIED: (&str, &str, &str) = (
    r#"{"args":[{"sort":{"args":[],"name":"SortInt","tag":"SortApp"},"tag":"DV","value":""#,
    r#""}],"name":""#,
    r#"","sorts":[],"tag":"App"}"#,
);

/// The reply of a run, up to how it ended, from there to the term, and behind it.
const RESULT: (&str, &str, &str) = (
    r#"{"id":1,"jsonrpc":"2.0","result":{"#,
    r#","state":{"term":{"format":"KORE","term":"#,
    r#","version":1}}}}"#,
);

/// The reply with an error, up to the error and behind it.
const ERROR: (&str, &str) = (r#"{"error":{"#, r#"},"id":1,"jsonrpc":"2.0"}"#);

const WIDEST: &str = "170141183460469231731687303715884105727";

const ABORTED: &str = r#""depth":0,"foreign-rule":"odd","reason":"aborted""#;

const DONE: &str = r#"{"args":[],"name":"Lbldone","sorts":[],"tag":"App"}"#;

const GOAL: &str = r#"{"args":[],"name":"Lblgoal","sorts":[],"tag":"App"}"#;

const NOPE: &str = r#"{"args":[],"name":"Lblnope","sorts":[],"tag":"App"}"#;

const ONE: &str = r#"{"sort":{"args":[],"name":"SortInt","tag":"SortApp"},"tag":"DV","value":"1"}"#;

const TWO: &str =
    r#"{"args":[{"sort":{"args":[],"name":"SortInt","tag":"SortApp"},"tag":"DV","value":"2"}],"name":"Lblcount","sorts":[],"tag":"App"}"#;

const THREE: &str =
    r#"{"args":[{"sort":{"args":[],"name":"SortInt","tag":"SortApp"},"tag":"DV","value":"3"}],"name":"Lblcount","sorts":[],"tag":"App"}"#;

/// The count of one and one.
const COMPUTED: &str =
    r#"{"args":[{"args":[{"sort":{"args":[],"name":"SortInt","tag":"SortApp"},"tag":"DV","value":"1"},{"sort":{"args":[],"name":"SortInt","tag":"SortApp"},"tag":"DV","value":"1"}],"name":"Lbladd","sorts":[],"tag":"App"}],"name":"Lblcount","sorts":[],"tag":"App"}"#;

const FOREIGN: &str =
    r#"{"args":[{"args":[{"sort":{"args":[],"name":"SortInt","tag":"SortApp"},"tag":"DV","value":"1"}],"name":"Lblother","sorts":[],"tag":"App"}],"name":"Lblcount","sorts":[],"tag":"App"}"#;

const NO_TAG: &str = r#"{"tag":"Nope"}"#;

const OPEN: &str = r#"{"name":"X","sort":{"args":[],"name":"SortS","tag":"SortApp"},"tag":"EVar"}"#;

const VALID: &str =
    r#"{"id":1,"jsonrpc":"2.0","result":{"condition":{"predicate":{"format":"KORE","term":{"sort":{"args":[],"name":"SortS","tag":"SortApp"},"tag":"Top"},"version":1},"substitution":{"format":"KORE","term":{"sort":{"args":[],"name":"SortS","tag":"SortApp"},"tag":"Top"},"version":1}},"valid":true}}"#;

const NOT_VALID: &str = r#"{"id":1,"jsonrpc":"2.0","result":{"valid":false}}"#;

/// The count of one.
const COUNTED: &str =
    r#"{"args":[{"sort":{"args":[],"name":"SortInt","tag":"SortApp"},"tag":"DV","value":"1"}],"name":"Lblcount","sorts":[],"tag":"App"}"#;

const T1: &str =
    r#""code":2,"data":{"kind":"T1","name":"Lblother"},"message":"Could not verify pattern""#;

const T2: &str = r#""code":2,"data":{"kind":"T2"},"message":"Could not verify pattern""#;

const V2: &str =
    r#""code":2,"data":{"kind":"V2","name":"Lblnope"},"message":"Could not verify pattern""#;

const J1: &str =
    r#""code":1,"data":{"kind":"J1","name":"Nope"},"message":"Could not parse pattern""#;

/// `\top`, which has no term.
const TOP: &str = r#"{"sort":{"args":[],"name":"SortS","tag":"SortApp"},"tag":"Top"}"#;

/// The count of a variable.
const COUNT_OF_Y: &str =
    r#"{"args":[{"name":"Y","sort":{"args":[],"name":"SortInt","tag":"SortApp"},"tag":"EVar"}],"name":"Lblcount","sorts":[],"tag":"App"}"#;

/// The count of some number.
const SOME_COUNT: &str =
    r#"{"arg":{"args":[{"name":"Y","sort":{"args":[],"name":"SortInt","tag":"SortApp"},"tag":"EVar"}],"name":"Lblcount","sorts":[],"tag":"App"},"sort":{"args":[],"name":"SortS","tag":"SortApp"},"tag":"Exists","var":"Y","varSort":{"args":[],"name":"SortInt","tag":"SortApp"}}"#;

/// `\exists` of a variable that stands in a predicate alone.
const IDLE: &str =
    r#"{"arg":{"patterns":[{"args":[],"name":"Lbldone","sorts":[],"tag":"App"},{"argSort":{"args":[],"name":"SortInt","tag":"SortApp"},"first":{"name":"Y","sort":{"args":[],"name":"SortInt","tag":"SortApp"},"tag":"EVar"},"second":{"name":"X","sort":{"args":[],"name":"SortInt","tag":"SortApp"},"tag":"EVar"},"sort":{"args":[],"name":"SortS","tag":"SortApp"},"tag":"Equals"}],"sort":{"args":[],"name":"SortS","tag":"SortApp"},"tag":"And"},"sort":{"args":[],"name":"SortS","tag":"SortApp"},"tag":"Exists","var":"Y","varSort":{"args":[],"name":"SortInt","tag":"SortApp"}}"#;

/// The count of some number, under two binders of one name.
const HIDDEN: &str =
    r#"{"arg":{"arg":{"args":[{"name":"Y","sort":{"args":[],"name":"SortInt","tag":"SortApp"},"tag":"EVar"}],"name":"Lblcount","sorts":[],"tag":"App"},"sort":{"args":[],"name":"SortS","tag":"SortApp"},"tag":"Exists","var":"Y","varSort":{"args":[],"name":"SortInt","tag":"SortApp"}},"sort":{"args":[],"name":"SortS","tag":"SortApp"},"tag":"Exists","var":"Y","varSort":{"args":[],"name":"SortInt","tag":"SortApp"}}"#;

/// A term beside a predicate of a variable that is no number.
const OTHER_SORT: &str =
    r#"{"patterns":[{"args":[],"name":"Lbldone","sorts":[],"tag":"App"},{"argSort":{"args":[],"name":"SortS","tag":"SortApp"},"first":{"name":"Y","sort":{"args":[],"name":"SortS","tag":"SortApp"},"tag":"EVar"},"second":{"args":[],"name":"Lbldone","sorts":[],"tag":"App"},"sort":{"args":[],"name":"SortS","tag":"SortApp"},"tag":"Equals"}],"sort":{"args":[],"name":"SortS","tag":"SortApp"},"tag":"And"}"#;

/// A term beside an `\or` of terms.
const MISPLACED: &str =
    r#"{"patterns":[{"args":[],"name":"Lbldone","sorts":[],"tag":"App"},{"patterns":[{"args":[],"name":"Lbldone","sorts":[],"tag":"App"},{"args":[],"name":"Lbldone","sorts":[],"tag":"App"}],"sort":{"args":[],"name":"SortS","tag":"SortApp"},"tag":"Or"}],"sort":{"args":[],"name":"SortS","tag":"SortApp"},"tag":"And"}"#;

/// No term, and a foreign symbol in a predicate.
const OTHER_BESIDE: &str =
    r#"{"argSort":{"args":[],"name":"SortS","tag":"SortApp"},"first":{"args":[{"args":[{"sort":{"args":[],"name":"SortInt","tag":"SortApp"},"tag":"DV","value":"1"}],"name":"Lblother","sorts":[],"tag":"App"}],"name":"Lblcount","sorts":[],"tag":"App"},"second":{"args":[],"name":"Lbldone","sorts":[],"tag":"App"},"sort":{"args":[],"name":"SortS","tag":"SortApp"},"tag":"Equals"}"#;

/// An `\or` of terms, and a term with a foreign symbol.
const FOREIGN_BEHIND: &str =
    r#"{"patterns":[{"args":[],"name":"Lbldone","sorts":[],"tag":"App"},{"patterns":[{"args":[],"name":"Lbldone","sorts":[],"tag":"App"},{"args":[],"name":"Lbldone","sorts":[],"tag":"App"}],"sort":{"args":[],"name":"SortS","tag":"SortApp"},"tag":"Or"},{"argSort":{"args":[],"name":"SortInt","tag":"SortApp"},"first":{"args":[{"sort":{"args":[],"name":"SortInt","tag":"SortApp"},"tag":"DV","value":"1"}],"name":"Lblother","sorts":[],"tag":"App"},"second":{"name":"X","sort":{"args":[],"name":"SortInt","tag":"SortApp"},"tag":"EVar"},"sort":{"args":[],"name":"SortS","tag":"SortApp"},"tag":"Equals"}],"sort":{"args":[],"name":"SortS","tag":"SortApp"},"tag":"And"}"#;

const I1: &str = r#""code":4,"data":{"kind":"I1","name":"Y"},"message":"Implication check error""#;

const I2: &str = r#""code":4,"data":{"kind":"I2"},"message":"Implication check error""#;

const I3: &str = r#""code":4,"data":{"kind":"I3","name":"Y"},"message":"Implication check error""#;

const NO_MODULE: &str = r#""code":3,"data":{"name":"NOPE"},"message":"Could not find module""#;

const PARAMS: &str = r#""code":-32602,"message":"Invalid params""#;

const PARSE: &str =
    r#"{"error":{"code":-32700,"message":"Parse error"},"id":null,"jsonrpc":"2.0"}"#;

/// What is asked.
#[derive(Clone, Copy)]
enum Asked {
    /// To run a symbol applied to a number, with more members of the params.
    Run(&'static str, &'static str, &'static str),
    /// To run a term, with more members of the params.
    Term(&'static str, &'static str),
    /// Whether one term implies another, with more members of the params.
    Implies(&'static str, &'static str, &'static str),
    /// By this input.
    Input(&'static str),
}

/// The input that asks.
fn input_of(alloc: Global, asked: Asked) -> Result<String, AllocError> {
    let (front, between, behind) = APPLIED;
    match asked {
        Asked::Run(symbol, number, members) => joined(
            alloc,
            &[
                RUN, front, number, between, symbol, behind, "}", members, "}}",
            ],
        ),
        Asked::Term(term, members) => joined(alloc, &[RUN, term, "}", members, "}}"]),
        Asked::Implies(antecedent, consequent, members) => joined(
            alloc,
            &[
                IMPLIES.0, antecedent, IMPLIES.1, consequent, "}", members, "}}",
            ],
        ),
        Asked::Input(input) => joined(alloc, &[input]),
    }
}

/// What is replied.
#[derive(Clone, Copy)]
enum Reply {
    /// The end of a run, at a symbol applied to a number.
    Result(&'static str, &'static str, &'static str),
    /// An error.
    Error(&'static str),
    /// This text.
    Text(&'static str),
}

/// The line of a reply.
fn line_of(alloc: Global, reply: Reply) -> Result<String, AllocError> {
    let (front, between, behind) = APPLIED;
    match reply {
        Reply::Result(told, symbol, number) => joined(
            alloc,
            &[
                RESULT.0, told, RESULT.1, front, number, between, symbol, behind, RESULT.2,
            ],
        ),
        Reply::Error(told) => joined(alloc, &[ERROR.0, told, ERROR.1]),
        Reply::Text(text) => joined(alloc, &[text]),
    }
}

/// Whether what is asked is answered so.
fn is_answered<R: Wait>(
    rt: &R,
    alloc: Global,
    asked: Asked,
    reply: Reply,
) -> Result<bool, AllocError> {
    let input = input_of(alloc, asked)?;
    let line = line_of(alloc, reply)?;
    Ok(is_replied(rt, alloc, definitions::Asked::Counting, &input, &line))
}

/// What is asked, and what is replied.
static ROWS: [(Asked, Reply); 52] = [
    // runs end as they are told
    (
        Asked::Run("Lblcount", "+2", ""),
        Reply::Result(r#""depth":2,"reason":"stuck""#, "Lblcount", "0"),
    ),
    (
        Asked::Run("Lblcount", "002", ""),
        Reply::Result(r#""depth":2,"reason":"stuck""#, "Lblcount", "0"),
    ),
    (
        Asked::Run("Lblpicked", "+5", ""),
        Reply::Result(r#""depth":0,"reason":"stuck""#, "Lblpicked", "5"),
    ),
    (
        Asked::Run("Lblpick", "9", ""),
        Reply::Result(r#""depth":1,"reason":"stuck""#, "Lblpicked", "1"),
    ),
    (
        Asked::Run("Lblpick", "4", ""),
        Reply::Result(r#""depth":1,"reason":"stuck""#, "Lblpicked", "2"),
    ),
    (
        Asked::Run("Lblpick", "0", ""),
        Reply::Result(r#""depth":1,"reason":"stuck""#, "Lblpicked", "3"),
    ),
    (
        Asked::Run("Lblcount", "2", r#","max-depth":0"#),
        Reply::Result(r#""depth":0,"reason":"depth-bound""#, "Lblcount", "2"),
    ),
    (
        Asked::Run("Lblcount", "0", r#","max-depth":0"#),
        Reply::Result(r#""depth":0,"reason":"depth-bound""#, "Lblcount", "0"),
    ),
    (
        Asked::Run("Lblcount", "2", r#","max-depth":1"#),
        Reply::Result(r#""depth":1,"reason":"depth-bound""#, "Lblcount", "1"),
    ),
    (
        Asked::Run("Lblcount", "2", r#","max-depth":3"#),
        Reply::Result(r#""depth":2,"reason":"stuck""#, "Lblcount", "0"),
    ),
    (
        Asked::Run("Lblcount", "2", r#","max-depth":null"#),
        Reply::Result(r#""depth":2,"reason":"stuck""#, "Lblcount", "0"),
    ),
    (
        Asked::Run("Lblcount", "2", r#","module":"COUNTING""#),
        Reply::Result(r#""depth":2,"reason":"stuck""#, "Lblcount", "0"),
    ),
    (
        Asked::Run("Lblodd", "1", ""),
        Reply::Result(ABORTED, "Lblodd", "1"),
    ),
    (
        Asked::Run("Lblodd", WIDEST, ""),
        Reply::Result(ABORTED, "Lblodd", WIDEST),
    ),
    (
        Asked::Run("Lblcount", "1", r#","module":"BASE""#),
        Reply::Result(r#""depth":1,"reason":"stuck""#, "Lblcount", "0"),
    ),
    // a run stops behind a rule
    (
        Asked::Term(COUNTED, r#","terminal-rules":["dec"]"#),
        Reply::Result(
            r#""depth":1,"reason":"terminal-rule","rule":"dec""#,
            "Lblcount",
            "0",
        ),
    ),
    // runs are refused
    (Asked::Term(FOREIGN, ""), Reply::Error(T1)),
    (
        Asked::Term(FOREIGN, r#","module":"NOPE""#),
        Reply::Error(NO_MODULE),
    ),
    (
        Asked::Term(COUNTED, r#","max-depth":-1"#),
        Reply::Error(PARAMS),
    ),
    // other inputs
    (
        Asked::Input(r#"{"jsonrpc":"2.0","id":1,"method":"get-model","params":{}}"#),
        Reply::Text(
            r#"{"error":{"code":-32601,"message":"Method not found"},"id":1,"jsonrpc":"2.0"}"#,
        ),
    ),
    (
        Asked::Input("[]"),
        Reply::Text(
            r#"{"error":{"code":-32600,"message":"Invalid Request"},"id":null,"jsonrpc":"2.0"}"#,
        ),
    ),
    (
        Asked::Input(r#"{"jsonrpc":"2.0","method":"exec"#),
        Reply::Text(PARSE),
    ),
    (Asked::Input(" \n"), Reply::Text("")),
    // a term implies those of its value
    (Asked::Implies(DONE, DONE, ""), Reply::Text(VALID)),
    (
        Asked::Implies(DONE, DONE, r#","module":"COUNTING""#),
        Reply::Text(VALID),
    ),
    (
        Asked::Implies(DONE, DONE, r#","module":"BASE""#),
        Reply::Text(VALID),
    ),
    (Asked::Implies(DONE, GOAL, ""), Reply::Text(NOT_VALID)),
    (Asked::Implies(COMPUTED, TWO, ""), Reply::Text(VALID)),
    (Asked::Implies(TWO, COMPUTED, ""), Reply::Text(VALID)),
    (Asked::Implies(TWO, THREE, ""), Reply::Text(NOT_VALID)),
    // faults of implications are told in order
    (Asked::Implies(DONE, NOPE, ""), Reply::Error(V2)),
    (Asked::Implies(NOPE, NO_TAG, ""), Reply::Error(J1)),
    (Asked::Implies(NO_TAG, NOPE, ""), Reply::Error(J1)),
    (Asked::Implies(DONE, FOREIGN, ""), Reply::Error(T1)),
    (Asked::Implies(OPEN, NOPE, ""), Reply::Error(V2)),
    (Asked::Implies(OPEN, DONE, ""), Reply::Text(NOT_VALID)),
    (Asked::Implies(OPEN, SOME_COUNT, ""), Reply::Text(NOT_VALID)),
    (Asked::Implies(MISPLACED, NOPE, ""), Reply::Error(T2)),
    (Asked::Implies(FOREIGN_BEHIND, DONE, ""), Reply::Error(T2)),
    (Asked::Implies(OTHER_BESIDE, DONE, ""), Reply::Error(T1)),
    // then those of both sides
    (Asked::Implies(DONE, IDLE, ""), Reply::Error(I1)),
    (Asked::Implies(TOP, IDLE, ""), Reply::Error(I1)),
    (Asked::Implies(DONE, HIDDEN, ""), Reply::Error(I1)),
    (Asked::Implies(TOP, DONE, ""), Reply::Error(I2)),
    (Asked::Implies(DONE, TOP, ""), Reply::Error(I2)),
    (Asked::Implies(DONE, ONE, ""), Reply::Error(I2)),
    (Asked::Implies(ONE, SOME_COUNT, ""), Reply::Error(I2)),
    (Asked::Implies(COUNT_OF_Y, SOME_COUNT, ""), Reply::Error(I3)),
    (Asked::Implies(COUNT_OF_Y, OTHER_SORT, ""), Reply::Error(I3)),
    (
        Asked::Implies(NOPE, DONE, r#","module":"NOPE""#),
        Reply::Error(NO_MODULE),
    ),
    (Asked::Implies(NOPE, FOREIGN, ""), Reply::Error(V2)),
    (
        Asked::Implies(DONE, DONE, r#","module":7"#),
        Reply::Error(PARAMS),
    ),
];

/// How many rows stand before the first of which something else is told.
fn holding<R: Wait>(rt: &R, alloc: Global) -> usize {
    let mut place: usize = 0;
    for (asked, reply) in &ROWS {
        match is_answered(rt, alloc, *asked, *reply) {
            Ok(true) => place = place.saturating_add(1),
            _ => return place,
        }
    }
    place
}

#[test]
fn requests_have_their_replies(rt: HostRuntime) {
    let place = holding(&rt, rt.alloc());
    assert!(rt; place == 52, "row {place}");
}

/// A command and its file, what the file `d.kore` has, and what is told.
static ENDINGS: [(&str, &str, &str, &str); 10] = [
    (
        "stdio",
        "x.kore",
        "[]",
        "status 5: kprove: no file x.kore\n",
    ),
    (
        "stdio",
        "d.kore",
        "[] module M import NOPE [] endmodule []",
        "status 4: kprove: d.kore: M1\n",
    ),
    (
        "stdio",
        "d.kore",
        "[] module M import M [] endmodule []",
        "status 4: kprove: d.kore: M2\n",
    ),
    (
        "stdio",
        "d.kore",
        "[] module M sort S{} [] sort S{} [] endmodule []",
        "status 4: kprove: d.kore: M3\n",
    ),
    (
        "stdio",
        "d.kore",
        "[] module M sort S{} [] symbol a{}() : S{} [] symbol a{}() : S{} [] endmodule []",
        "status 4: kprove: d.kore: M4\n",
    ),
    (
        "stdio",
        "d.kore",
        "[] module M endmodule [] module M endmodule []",
        "status 4: kprove: d.kore: M5\n",
    ),
    (
        "stdio",
        "d.kore",
        "[] module M sort S{} [] symbol a{}() : S{} [constructor{}()] axiom{} \\rewrites{S{}}(a{}(), b{}()) [] endmodule []",
        "status 4: kprove: d.kore: M6\n",
    ),
    (
        "stdio",
        "d.kore",
        "[] module A endmodule []",
        "status 4: kprove: d.kore: M8\n",
    ),
    (
        "stdio",
        "d.kore",
        "[] modul",
        "status 4: kprove: d.kore: text 2 at 3\n",
    ),
    ("prove", "d.kore", "[]", "status 3: kprove: usage\n"),
];

#[test]
fn other_endings_are_told(rt: HostRuntime) -> Result<(), Fail> {
    for (command, name, definition, line) in &ENDINGS {
        let words: (&[&str], &[&str]) = (&["kprove", *command, *name], &["--module", "M"]);
        if !is_told(
            &rt,
            rt.alloc(),
            words,
            (definition.as_bytes(), ""),
            "",
            line,
        ) {
            return Err(Fail::new(*line));
        }
    }
    Ok(())
}
