use crate::table::{Subject, bytes, each_is_told, text, written};
use kp_json::pattern_of;
use kp_kore::Pattern;
use kp_replies::{
    AdditionFault, Failure, Method, ServerReply, SidesFault, added_text, executed_text,
    failure_text, is_rule_id, reply_of, simplified_text,
};
use kp_results::{Executed, Limit, ReplyState, Undecided, Weight};
use kp_rpc::Id;
use serde_json::Value;
use std::alloc::Global;
use std::process::Abort;

/// The depth of a run that is aborted, the limit's name, and its term as that of a simplified state.
fn unfinished_text(
    rt: &impl Abort,
    alloc: Global,
    depth: u64,
    state: &ReplyState,
    limit: &Option<String>,
) -> Vec<u8> {
    let name = limit.as_deref().unwrap_or("none");
    let mut told = format!(in alloc; "{depth} {name} ")
        .expect(rt, "memory")
        .into_bytes();
    let line = written(rt, simplified_text(alloc, &Id::Unsigned(1), &state.term));
    told.extend_from_slice(&line).expect(rt, "memory");
    told
}

/// A result of execute is written again, and the state of a run that is aborted; a module's id and a code are told, of
/// another reply its kind.
fn reply_text(rt: &impl Abort, alloc: Global, reply: &ServerReply) -> Vec<u8> {
    match reply {
        ServerReply::Executed(executed) => {
            written(rt, executed_text(alloc, &Id::Unsigned(1), executed))
        }
        ServerReply::Unfinished {
            depth,
            state,
            limit,
        } => unfinished_text(rt, alloc, *depth, state, limit),
        ServerReply::Implied(_) => bytes(rt, alloc, "implied"),
        ServerReply::Simplified(_) => bytes(rt, alloc, "simplified"),
        ServerReply::Added(id) => bytes(rt, alloc, id),
        ServerReply::Failed { code } => format!(in alloc; "failed {code}")
            .expect(rt, "memory")
            .into_bytes(),
    }
}

/// What a line tells who asked for this method.
fn line_told(rt: &impl Abort, alloc: Global, method: Method, line: &str) -> Vec<u8> {
    match reply_of(alloc, method, line.as_bytes()).expect(rt, "memory") {
        Some(reply) => reply_text(rt, alloc, &reply),
        None => bytes(rt, alloc, "none"),
    }
}

/// The depth of a result, and the rules that lead to its next states.
fn rules(rt: &impl Abort, alloc: Global, executed: &Executed) -> Vec<u8> {
    let depth = executed.depth;
    let mut text = format!(in alloc; "{depth}:").expect(rt, "memory");
    for next in &executed.next_states {
        text.push_str(" ").expect(rt, "memory");
        text.push_str(next.rule.as_deref().unwrap_or("none"))
            .expect(rt, "memory");
    }
    text.into_bytes()
}

/// The depth and the rules that a reply to execute tells.
fn rules_told(rt: &impl Abort, alloc: Global, line: &str) -> Vec<u8> {
    match reply_of(alloc, Method::Execute, line.as_bytes()).expect(rt, "memory") {
        Some(ServerReply::Executed(executed)) => rules(rt, alloc, &executed),
        Some(_) | None => bytes(rt, alloc, "another reply"),
    }
}

/// What a client hears.
#[derive(Clone, Copy)]
enum Heard {
    /// A line in reply to a method.
    Line(Method, &'static str),
    /// The rules of a line in reply to execute.
    Rules(&'static str),
    /// What may be the id of a rule.
    Name(&'static str),
}

impl Subject for Heard {
    fn told(&self, rt: &impl Abort, alloc: Global) -> Vec<u8> {
        match *self {
            Heard::Line(method, line) => line_told(rt, alloc, method, line),
            Heard::Rules(line) => rules_told(rt, alloc, line),
            Heard::Name(name) if is_rule_id(name) => bytes(rt, alloc, "a rule"),
            Heard::Name(_) => bytes(rt, alloc, "no rule"),
        }
    }
}

/// A run with no next state behind its cut point.
const NO_NEXT_STATE: &str =
    r#"{"id":1,"jsonrpc":"2.0","result":{"depth":2,"next-states":[],"reason":"cut-point-rule","rule":"TOYS.stop","state":{"term":{"format":"KORE","term":{"args":[],"name":"Lbldone","sorts":[],"tag":"App"},"version":1}}}}
"#;

/// A rule's id of two lines.
const TWO_LINES: &str =
    r#"{"id":1,"jsonrpc":"2.0","result":{"depth":0,"foreign-rule":"a\nb","reason":"aborted","state":{"term":{"format":"KORE","term":{"args":[],"name":"Lbldone","sorts":[],"tag":"App"},"version":1}}}}
"#;

/// A run that a limit aborts behind one step.
const LIMITED: &str =
    r#"{"id":1,"jsonrpc":"2.0","result":{"depth":1,"limit":{"name":"depth","number":49},"reason":"aborted","state":{"term":{"format":"KORE","term":{"args":[],"name":"Lbldone","sorts":[],"tag":"App"},"version":1}}}}
"#;

/// Its depth, its limit and its state.
const LIMITED_TOLD: &str =
    r#"1 depth {"id":1,"jsonrpc":"2.0","result":{"state":{"format":"KORE","term":{"args":[],"name":"Lbldone","sorts":[],"tag":"App"},"version":1}}}
"#;

/// A predicate isn't decided, since its weight passes a limit.
const UNKNOWN_RUN: &str =
    r#"{"id":1,"jsonrpc":"2.0","result":{"depth":0,"limit":{"name":"bits","number":130},"reason":"aborted","state":{"term":{"format":"KORE","term":{"args":[],"name":"Lbldone","sorts":[],"tag":"App"},"version":1}},"unknown-predicate":{"format":"KORE","term":{"sort":{"args":[],"name":"SortS","tag":"SortApp"},"tag":"Top"},"version":1}}}
"#;

/// Its depth and its state: no limit alone isn't decided.
const UNKNOWN_TOLD: &str =
    r#"0 none {"id":1,"jsonrpc":"2.0","result":{"state":{"format":"KORE","term":{"args":[],"name":"Lbldone","sorts":[],"tag":"App"},"version":1}}}
"#;

/// The limit's name is that of none.
const OTHER_LIMIT: &str =
    r#"{"id":1,"jsonrpc":"2.0","result":{"depth":1,"limit":{"name":"depth\nT.down passed","number":49},"reason":"aborted","state":{"term":{"format":"KORE","term":{"args":[],"name":"Lbldone","sorts":[],"tag":"App"},"version":1}}}}
"#;

/// Its state is missing.
const NO_STATE: &str =
    r#"{"id":1,"jsonrpc":"2.0","result":{"depth":2,"limit":{"name":"depth","number":49},"reason":"aborted"}}
"#;

/// Nothing says why the run is aborted.
const NO_CAUSE: &str =
    r#"{"id":1,"jsonrpc":"2.0","result":{"depth":2,"reason":"aborted","state":{"term":{"format":"KORE","term":{"args":[],"name":"Lbldone","sorts":[],"tag":"App"},"version":1}}}}
"#;

/// What is heard, and what it tells.
const TOLD: [(Heard, &str); 21] = [
    (Heard::Line(Method::Execute, BRANCHING), BRANCHING),
    (Heard::Line(Method::Execute, CUT_POINT), CUT_POINT),
    (Heard::Line(Method::Execute, TERMINAL), TERMINAL),
    (Heard::Line(Method::Execute, VACUOUS), VACUOUS),
    (Heard::Line(Method::Execute, ABORTED), ABORTED),
    (Heard::Line(Method::Execute, LIMITED), LIMITED_TOLD),
    (Heard::Line(Method::Execute, UNKNOWN_RUN), UNKNOWN_TOLD),
    (Heard::Line(Method::Execute, OTHER_LIMIT), "none"),
    (Heard::Line(Method::Execute, NO_STATE), "none"),
    (Heard::Line(Method::Execute, NO_CAUSE), "none"),
    (Heard::Line(Method::Execute, NO_NEXT_STATE), "none"),
    (Heard::Line(Method::Execute, TWO_LINES), "none"),
    (Heard::Line(Method::AddModule, ADDED), MODULE),
    (Heard::Line(Method::Simplify, SIMPLIFIED), "simplified"),
    (Heard::Line(Method::Implies, UNKNOWN), "failed 5"),
    // a module's id has one form
    (Heard::Line(Method::AddModule, ANOTHER_ID), "none"),
    // the depth, and the rule of each next state
    (Heard::Rules(BRANCHING), "0: TOYS.dec TOYS.stop none"),
    // a rule's id is one word
    (Heard::Name("TOYS.stop"), "a rule"),
    (Heard::Name(""), "no rule"),
    (Heard::Name("two words"), "no rule"),
    (Heard::Name("passed T.down\nfailed"), "no rule"),
];

/// What a client hears is told by the method that it asked for.
#[test]
fn replies_are_told(rt: HostRuntime) {
    each_is_told(&rt, rt.alloc(), &TOLD);
}

/// The predicate X * X < 0.
fn predicate(rt: &impl Abort, alloc: Global) -> Pattern {
    let value = Value::from_str(alloc, PREDICATE).expect(rt, "no JSON");
    match pattern_of(alloc, &value) {
        Ok(pattern) => pattern,
        Err(_) => panic!(rt; "no pattern"),
    }
}

/// What wasn't decided of this predicate.
fn unknown(rt: &impl Abort, alloc: Global, limit: Option<Limit>) -> Failure {
    Failure::Undecided(Undecided::Predicate {
        predicate: predicate(rt, alloc),
        limit,
    })
}

/// The limit that a sum is wider than 128 bits.
fn wide_sum(rt: &impl Abort, alloc: Global) -> Limit {
    Limit::Number {
        first: text(rt, alloc, "170141183460469231731687303715884105727"),
        second: text(rt, alloc, "1"),
        symbol: text(rt, alloc, "Lbladd"),
    }
}

/// Why a request fails.
#[derive(Clone, Copy)]
enum Cause {
    /// The predicate's bits are too many.
    Weighed,
    /// The predicate isn't decided.
    Unknown,
    /// A sum is too wide.
    WideSum,
    /// A variable stands in no term.
    InNoTerm,
    /// A sentence is of another kind.
    OtherSentence,
    /// A name is bound already.
    BoundName,
}

/// The failure of a cause.
fn failure(rt: &impl Abort, alloc: Global, cause: Cause) -> Failure {
    match cause {
        Cause::Weighed => unknown(
            rt,
            alloc,
            Some(Limit::Weighed {
                weight: Weight::Bits,
                number: 130,
            }),
        ),
        Cause::Unknown => unknown(rt, alloc, None),
        Cause::WideSum => Failure::Undecided(Undecided::Limit {
            limit: wide_sum(rt, alloc),
        }),
        Cause::InNoTerm => Failure::BadSides(SidesFault::NotInATerm {
            name: text(rt, alloc, "Y"),
        }),
        Cause::OtherSentence => Failure::BadModule(AdditionFault::BadSentence { number: 2 }),
        Cause::BoundName => Failure::Duplicate {
            entry: 1,
            name: text(rt, alloc, "EXTRA"),
        },
    }
}

/// A line that is written.
#[derive(Clone, Copy)]
enum Line {
    Failed(Cause),
    /// A module was added, of this id.
    Added(&'static str),
    /// The predicate, as it is simplified.
    Simplified,
}

impl Subject for Line {
    fn told(&self, rt: &impl Abort, alloc: Global) -> Vec<u8> {
        let id = Id::Unsigned(1);
        match *self {
            Line::Failed(cause) => {
                written(rt, failure_text(alloc, &id, &failure(rt, alloc, cause)))
            }
            Line::Added(module) => added_text(alloc, &id, module).expect(rt, "memory"),
            Line::Simplified => written(rt, simplified_text(alloc, &id, &predicate(rt, alloc))),
        }
    }
}

/// Failures and results, and their lines.
const LINES: [(Line, &str); 9] = [
    (Line::Failed(Cause::Weighed), UNKNOWN),
    (Line::Failed(Cause::Unknown), UNKNOWN_ALONE),
    (
        Line::Failed(Cause::WideSum),
        "{\"error\":{\"code\":5,\"data\":{\"limit\":{\"first\":\"170141183460469231731687303715884105727\",\"name\":\"number\",\"second\":\"1\",\"symbol\":\"Lbladd\"}},\"message\":\"Undecided\"},\"id\":1,\"jsonrpc\":\"2.0\"}\n",
    ),
    (
        Line::Failed(Cause::InNoTerm),
        "{\"error\":{\"code\":4,\"data\":{\"kind\":\"I1\",\"name\":\"Y\"},\"message\":\"Implication check error\"},\"id\":1,\"jsonrpc\":\"2.0\"}\n",
    ),
    (
        Line::Failed(Cause::OtherSentence),
        "{\"error\":{\"code\":8,\"data\":{\"kind\":\"M7\",\"sentence\":2},\"message\":\"Invalid module\"},\"id\":1,\"jsonrpc\":\"2.0\"}\n",
    ),
    (
        Line::Failed(Cause::BoundName),
        "{\"error\":{\"code\":9,\"data\":{\"entry\":1,\"name\":\"EXTRA\"},\"message\":\"Duplicate module\"},\"id\":1,\"jsonrpc\":\"2.0\"}\n",
    ),
    (Line::Added(MODULE), ADDED),
    (Line::Added("mba78"), ANOTHER_ID),
    (Line::Simplified, SIMPLIFIED),
];

/// Failures and results are written byte by byte.
#[test]
fn failures_and_results_are_written(rt: HostRuntime) {
    each_is_told(&rt, rt.alloc(), &LINES);
}

/// The id of a module that was added.
const MODULE: &str = "mba7816bf8f01cfea414140de5dae2223b00361a396177a9cb410ff61f20015ad";

/// The reply that this module was added.
const ADDED: &str =
    r#"{"id":1,"jsonrpc":"2.0","result":{"module":"mba7816bf8f01cfea414140de5dae2223b00361a396177a9cb410ff61f20015ad"}}
"#;

/// The reply that a module was added whose id has another form.
const ANOTHER_ID: &str = r#"{"id":1,"jsonrpc":"2.0","result":{"module":"mba78"}}
"#;

/// `count(X)` has three cases: `TOYS.dec` where X > 0, `TOYS.stop` where X = 0, and neither.
const BRANCHING: &str =
    r#"{"id":1,"jsonrpc":"2.0","result":{"depth":0,"next-states":[{"predicate":{"format":"KORE","term":{"argSort":{"args":[],"name":"SortBool","tag":"SortApp"},"first":{"args":[{"name":"X","sort":{"args":[],"name":"SortInt","tag":"SortApp"},"tag":"EVar"},{"sort":{"args":[],"name":"SortInt","tag":"SortApp"},"tag":"DV","value":"0"}],"name":"Lblgt","sorts":[],"tag":"App"},"second":{"sort":{"args":[],"name":"SortBool","tag":"SortApp"},"tag":"DV","value":"true"},"sort":{"args":[],"name":"SortS","tag":"SortApp"},"tag":"Equals"},"version":1},"rule-id":"TOYS.dec","rule-predicate":{"format":"KORE","term":{"argSort":{"args":[],"name":"SortBool","tag":"SortApp"},"first":{"args":[{"name":"X","sort":{"args":[],"name":"SortInt","tag":"SortApp"},"tag":"EVar"},{"sort":{"args":[],"name":"SortInt","tag":"SortApp"},"tag":"DV","value":"0"}],"name":"Lblgt","sorts":[],"tag":"App"},"second":{"sort":{"args":[],"name":"SortBool","tag":"SortApp"},"tag":"DV","value":"true"},"sort":{"args":[],"name":"SortS","tag":"SortApp"},"tag":"Equals"},"version":1},"term":{"format":"KORE","term":{"args":[{"args":[{"name":"X","sort":{"args":[],"name":"SortInt","tag":"SortApp"},"tag":"EVar"},{"sort":{"args":[],"name":"SortInt","tag":"SortApp"},"tag":"DV","value":"1"}],"name":"Lblsub","sorts":[],"tag":"App"}],"name":"Lblcount","sorts":[],"tag":"App"},"version":1}},{"predicate":{"format":"KORE","term":{"argSort":{"args":[],"name":"SortBool","tag":"SortApp"},"first":{"args":[{"name":"X","sort":{"args":[],"name":"SortInt","tag":"SortApp"},"tag":"EVar"},{"sort":{"args":[],"name":"SortInt","tag":"SortApp"},"tag":"DV","value":"0"}],"name":"Lbleq","sorts":[],"tag":"App"},"second":{"sort":{"args":[],"name":"SortBool","tag":"SortApp"},"tag":"DV","value":"true"},"sort":{"args":[],"name":"SortS","tag":"SortApp"},"tag":"Equals"},"version":1},"rule-id":"TOYS.stop","rule-predicate":{"format":"KORE","term":{"argSort":{"args":[],"name":"SortBool","tag":"SortApp"},"first":{"args":[{"name":"X","sort":{"args":[],"name":"SortInt","tag":"SortApp"},"tag":"EVar"},{"sort":{"args":[],"name":"SortInt","tag":"SortApp"},"tag":"DV","value":"0"}],"name":"Lbleq","sorts":[],"tag":"App"},"second":{"sort":{"args":[],"name":"SortBool","tag":"SortApp"},"tag":"DV","value":"true"},"sort":{"args":[],"name":"SortS","tag":"SortApp"},"tag":"Equals"},"version":1},"term":{"format":"KORE","term":{"args":[],"name":"Lbldone","sorts":[],"tag":"App"},"version":1}},{"predicate":{"format":"KORE","term":{"patterns":[{"arg":{"argSort":{"args":[],"name":"SortBool","tag":"SortApp"},"first":{"args":[{"name":"X","sort":{"args":[],"name":"SortInt","tag":"SortApp"},"tag":"EVar"},{"sort":{"args":[],"name":"SortInt","tag":"SortApp"},"tag":"DV","value":"0"}],"name":"Lbleq","sorts":[],"tag":"App"},"second":{"sort":{"args":[],"name":"SortBool","tag":"SortApp"},"tag":"DV","value":"true"},"sort":{"args":[],"name":"SortS","tag":"SortApp"},"tag":"Equals"},"sort":{"args":[],"name":"SortS","tag":"SortApp"},"tag":"Not"},{"arg":{"argSort":{"args":[],"name":"SortBool","tag":"SortApp"},"first":{"args":[{"name":"X","sort":{"args":[],"name":"SortInt","tag":"SortApp"},"tag":"EVar"},{"sort":{"args":[],"name":"SortInt","tag":"SortApp"},"tag":"DV","value":"0"}],"name":"Lblgt","sorts":[],"tag":"App"},"second":{"sort":{"args":[],"name":"SortBool","tag":"SortApp"},"tag":"DV","value":"true"},"sort":{"args":[],"name":"SortS","tag":"SortApp"},"tag":"Equals"},"sort":{"args":[],"name":"SortS","tag":"SortApp"},"tag":"Not"}],"sort":{"args":[],"name":"SortS","tag":"SortApp"},"tag":"And"},"version":1},"rule-predicate":{"format":"KORE","term":{"patterns":[{"arg":{"argSort":{"args":[],"name":"SortBool","tag":"SortApp"},"first":{"args":[{"name":"X","sort":{"args":[],"name":"SortInt","tag":"SortApp"},"tag":"EVar"},{"sort":{"args":[],"name":"SortInt","tag":"SortApp"},"tag":"DV","value":"0"}],"name":"Lbleq","sorts":[],"tag":"App"},"second":{"sort":{"args":[],"name":"SortBool","tag":"SortApp"},"tag":"DV","value":"true"},"sort":{"args":[],"name":"SortS","tag":"SortApp"},"tag":"Equals"},"sort":{"args":[],"name":"SortS","tag":"SortApp"},"tag":"Not"},{"arg":{"argSort":{"args":[],"name":"SortBool","tag":"SortApp"},"first":{"args":[{"name":"X","sort":{"args":[],"name":"SortInt","tag":"SortApp"},"tag":"EVar"},{"sort":{"args":[],"name":"SortInt","tag":"SortApp"},"tag":"DV","value":"0"}],"name":"Lblgt","sorts":[],"tag":"App"},"second":{"sort":{"args":[],"name":"SortBool","tag":"SortApp"},"tag":"DV","value":"true"},"sort":{"args":[],"name":"SortS","tag":"SortApp"},"tag":"Equals"},"sort":{"args":[],"name":"SortS","tag":"SortApp"},"tag":"Not"}],"sort":{"args":[],"name":"SortS","tag":"SortApp"},"tag":"And"},"version":1},"term":{"format":"KORE","term":{"args":[{"name":"X","sort":{"args":[],"name":"SortInt","tag":"SortApp"},"tag":"EVar"}],"name":"Lblcount","sorts":[],"tag":"App"},"version":1}}],"reason":"branching","state":{"term":{"format":"KORE","term":{"args":[{"name":"X","sort":{"args":[],"name":"SortInt","tag":"SortApp"},"tag":"EVar"}],"name":"Lblcount","sorts":[],"tag":"App"},"version":1}}}}
"#;

/// `count(2)` is cut before `TOYS.stop`.
const CUT_POINT: &str =
    r#"{"id":1,"jsonrpc":"2.0","result":{"depth":2,"next-states":[{"rule-id":"TOYS.stop","rule-predicate":{"format":"KORE","term":{"sort":{"args":[],"name":"SortS","tag":"SortApp"},"tag":"Top"},"version":1},"term":{"format":"KORE","term":{"args":[],"name":"Lbldone","sorts":[],"tag":"App"},"version":1}}],"reason":"cut-point-rule","rule":"TOYS.stop","state":{"term":{"format":"KORE","term":{"args":[{"sort":{"args":[],"name":"SortInt","tag":"SortApp"},"tag":"DV","value":"0"}],"name":"Lblcount","sorts":[],"tag":"App"},"version":1}}}}
"#;

/// `count(2)` ends behind `TOYS.stop`.
const TERMINAL: &str =
    r#"{"id":1,"jsonrpc":"2.0","result":{"depth":3,"reason":"terminal-rule","rule":"TOYS.stop","state":{"term":{"format":"KORE","term":{"args":[],"name":"Lbldone","sorts":[],"tag":"App"},"version":1}}}}
"#;

/// `count(X)` where X > 0 and X < 1.
const VACUOUS: &str =
    r#"{"id":1,"jsonrpc":"2.0","result":{"depth":0,"reason":"vacuous","state":{"predicate":{"format":"KORE","term":{"patterns":[{"argSort":{"args":[],"name":"SortBool","tag":"SortApp"},"first":{"args":[{"name":"X","sort":{"args":[],"name":"SortInt","tag":"SortApp"},"tag":"EVar"},{"sort":{"args":[],"name":"SortInt","tag":"SortApp"},"tag":"DV","value":"0"}],"name":"Lblgt","sorts":[],"tag":"App"},"second":{"sort":{"args":[],"name":"SortBool","tag":"SortApp"},"tag":"DV","value":"true"},"sort":{"args":[],"name":"SortS","tag":"SortApp"},"tag":"Equals"},{"argSort":{"args":[],"name":"SortBool","tag":"SortApp"},"first":{"args":[{"name":"X","sort":{"args":[],"name":"SortInt","tag":"SortApp"},"tag":"EVar"},{"sort":{"args":[],"name":"SortInt","tag":"SortApp"},"tag":"DV","value":"1"}],"name":"Lbllt","sorts":[],"tag":"App"},"second":{"sort":{"args":[],"name":"SortBool","tag":"SortApp"},"tag":"DV","value":"true"},"sort":{"args":[],"name":"SortS","tag":"SortApp"},"tag":"Equals"}],"sort":{"args":[],"name":"SortS","tag":"SortApp"},"tag":"And"},"version":1},"term":{"format":"KORE","term":{"args":[{"name":"X","sort":{"args":[],"name":"SortInt","tag":"SortApp"},"tag":"EVar"}],"name":"Lblcount","sorts":[],"tag":"App"},"version":1}}}}
"#;

/// `odd(1)`, where a foreign rule might apply.
const ABORTED: &str =
    r#"{"id":1,"jsonrpc":"2.0","result":{"depth":0,"foreign-rule":"TOYS.odd","reason":"aborted","state":{"term":{"format":"KORE","term":{"args":[{"sort":{"args":[],"name":"SortInt","tag":"SortApp"},"tag":"DV","value":"1"}],"name":"Lblodd","sorts":[],"tag":"App"},"version":1}}}}
"#;

/// The reply that the predicate X * X < 0 is simplified to itself.
const SIMPLIFIED: &str =
    r#"{"id":1,"jsonrpc":"2.0","result":{"state":{"format":"KORE","term":{"argSort":{"args":[],"name":"SortBool","tag":"SortApp"},"first":{"args":[{"args":[{"name":"X","sort":{"args":[],"name":"SortInt","tag":"SortApp"},"tag":"EVar"},{"name":"X","sort":{"args":[],"name":"SortInt","tag":"SortApp"},"tag":"EVar"}],"name":"Lblmul","sorts":[],"tag":"App"},{"sort":{"args":[],"name":"SortInt","tag":"SortApp"},"tag":"DV","value":"0"}],"name":"Lbllt","sorts":[],"tag":"App"},"second":{"sort":{"args":[],"name":"SortBool","tag":"SortApp"},"tag":"DV","value":"true"},"sort":{"args":[],"name":"SortS","tag":"SortApp"},"tag":"Equals"},"version":1}}}
"#;

/// The reply that this predicate wasn't decided, since its bits are too many.
const UNKNOWN: &str =
    r#"{"error":{"code":5,"data":{"limit":{"name":"bits","number":130},"unknown-predicate":{"format":"KORE","term":{"argSort":{"args":[],"name":"SortBool","tag":"SortApp"},"first":{"args":[{"args":[{"name":"X","sort":{"args":[],"name":"SortInt","tag":"SortApp"},"tag":"EVar"},{"name":"X","sort":{"args":[],"name":"SortInt","tag":"SortApp"},"tag":"EVar"}],"name":"Lblmul","sorts":[],"tag":"App"},{"sort":{"args":[],"name":"SortInt","tag":"SortApp"},"tag":"DV","value":"0"}],"name":"Lbllt","sorts":[],"tag":"App"},"second":{"sort":{"args":[],"name":"SortBool","tag":"SortApp"},"tag":"DV","value":"true"},"sort":{"args":[],"name":"SortS","tag":"SortApp"},"tag":"Equals"},"version":1}},"message":"Undecided"},"id":1,"jsonrpc":"2.0"}
"#;

/// The reply that this predicate wasn't decided.
const UNKNOWN_ALONE: &str =
    r#"{"error":{"code":5,"data":{"unknown-predicate":{"format":"KORE","term":{"argSort":{"args":[],"name":"SortBool","tag":"SortApp"},"first":{"args":[{"args":[{"name":"X","sort":{"args":[],"name":"SortInt","tag":"SortApp"},"tag":"EVar"},{"name":"X","sort":{"args":[],"name":"SortInt","tag":"SortApp"},"tag":"EVar"}],"name":"Lblmul","sorts":[],"tag":"App"},{"sort":{"args":[],"name":"SortInt","tag":"SortApp"},"tag":"DV","value":"0"}],"name":"Lbllt","sorts":[],"tag":"App"},"second":{"sort":{"args":[],"name":"SortBool","tag":"SortApp"},"tag":"DV","value":"true"},"sort":{"args":[],"name":"SortS","tag":"SortApp"},"tag":"Equals"},"version":1}},"message":"Undecided"},"id":1,"jsonrpc":"2.0"}
"#;

/// X * X < 0, as a tree.
const PREDICATE: &str =
    r#"{"format":"KORE","term":{"argSort":{"args":[],"name":"SortBool","tag":"SortApp"},"first":{"args":[{"args":[{"name":"X","sort":{"args":[],"name":"SortInt","tag":"SortApp"},"tag":"EVar"},{"name":"X","sort":{"args":[],"name":"SortInt","tag":"SortApp"},"tag":"EVar"}],"name":"Lblmul","sorts":[],"tag":"App"},{"sort":{"args":[],"name":"SortInt","tag":"SortApp"},"tag":"DV","value":"0"}],"name":"Lbllt","sorts":[],"tag":"App"},"second":{"sort":{"args":[],"name":"SortBool","tag":"SortApp"},"tag":"DV","value":"true"},"sort":{"args":[],"name":"SortS","tag":"SortApp"},"tag":"Equals"},"version":1}"#;
