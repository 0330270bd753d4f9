use crate::provers::{COVERED, UNCOVERED};
use crate::table::{Subject, bytes, each_is_told, text, written};
use kp_kore::{Pattern, Sort};
use kp_replies::{executed_text, implied_text};
use kp_results::{Executed, Implied, Reason, ReplyState};
use kp_rpc::{Id, PatternFault, StateFault, fault_text, refusal_text};
use kp_signature::VerifyError;
use std::alloc::Global;
use std::process::Abort;

/// The fault that there is no module of a name.
fn no_module(rt: &impl Abort, alloc: Global) -> StateFault {
    StateFault::NoModule {
        name: text(rt, alloc, "NOPE"),
    }
}

/// A sort without arguments.
fn sort(rt: &impl Abort, alloc: Global, name: &str) -> Sort {
    Sort::App {
        name: text(rt, alloc, name),
        arguments: Vec::new(alloc),
    }
}

/// The fault that a pattern has another sort.
fn other_sort(rt: &impl Abort, alloc: Global) -> StateFault {
    StateFault::Verify(PatternFault::Unverified(VerifyError::SortDiffers {
        expected: sort(rt, alloc, "SortInt"),
        found: sort(rt, alloc, "SortBool"),
    }))
}

/// The reply of a fault.
fn fault_line(rt: &impl Abort, alloc: Global, id: Id, fault: StateFault) -> Vec<u8> {
    fault_text(alloc, &id, &fault).expect(rt, "memory")
}

/// The line of an implication.
fn implied(rt: &impl Abort, alloc: Global, implied: Implied) -> Vec<u8> {
    written(rt, implied_text(alloc, &Id::Unsigned(1), &implied))
}

/// `\top` of some sort.
fn top(rt: &impl Abort, alloc: Global) -> Pattern {
    Pattern::Top {
        sort: Sort::Variable {
            name: text(rt, alloc, "S"),
        },
    }
}

/// An implication that holds of all values.
fn valid(rt: &impl Abort, alloc: Global) -> Implied {
    Implied::Valid {
        predicate: top(rt, alloc),
        substitution: top(rt, alloc),
    }
}

/// The line with the result of a run that ended in this term.
fn ran(
    rt: &impl Abort,
    alloc: Global,
    id: Id,
    depth: u64,
    reason: Reason,
    term: Pattern,
) -> Vec<u8> {
    let executed = Executed {
        depth,
        state: ReplyState {
            term,
            predicate: None,
        },
        reason,
        next_states: Vec::new(alloc),
    };
    written(rt, executed_text(alloc, &id, &executed))
}

/// The state `Lbldone`.
fn done(rt: &impl Abort, alloc: Global) -> Pattern {
    Pattern::Application {
        symbol: text(rt, alloc, "Lbldone"),
        sorts: Vec::new(alloc),
        arguments: Vec::new(alloc),
    }
}

/// A variable.
fn open_state(rt: &impl Abort, alloc: Global) -> Pattern {
    Pattern::Variable {
        name: text(rt, alloc, "X"),
        sort: Sort::Variable {
            name: text(rt, alloc, "S"),
        },
    }
}

/// A line that is written.
#[derive(Clone, Copy)]
enum Line {
    NoModule,
    OtherSort,
    NotValid,
    Valid,
    /// Of a run that got stuck at `Lbldone`.
    Stuck,
    /// Of a run that ended at its bound in a variable.
    Bounded,
}

impl Subject for Line {
    fn told(&self, rt: &impl Abort, alloc: Global) -> Vec<u8> {
        match *self {
            Line::NoModule => fault_line(
                rt,
                alloc,
                Id::Text(text(rt, alloc, "a")),
                no_module(rt, alloc),
            ),
            Line::OtherSort => fault_line(rt, alloc, Id::Unsigned(7), other_sort(rt, alloc)),
            Line::NotValid => implied(rt, alloc, Implied::NotValid),
            Line::Valid => implied(rt, alloc, valid(rt, alloc)),
            Line::Stuck => ran(
                rt,
                alloc,
                Id::Unsigned(1),
                3,
                Reason::Stuck,
                done(rt, alloc),
            ),
            Line::Bounded => ran(
                rt,
                alloc,
                Id::Signed(-1),
                10_000,
                Reason::DepthBound,
                open_state(rt, alloc),
            ),
        }
    }
}

/// Faults and results, and their lines.
const LINES: [(Line, &str); 6] = [
    (
        Line::NoModule,
        "{\"error\":{\"code\":3,\"data\":{\"name\":\"NOPE\"},\"message\":\"Could not find module\"},\"id\":\"a\",\"jsonrpc\":\"2.0\"}\n",
    ),
    (
        Line::OtherSort,
        "{\"error\":{\"code\":2,\"data\":{\"expected\":\"SortInt{}\",\"found\":\"SortBool{}\",\"kind\":\"V4\"},\"message\":\"Could not verify pattern\"},\"id\":7,\"jsonrpc\":\"2.0\"}\n",
    ),
    (Line::NotValid, UNCOVERED),
    (Line::Valid, COVERED),
    (
        Line::Stuck,
        "{\"id\":1,\"jsonrpc\":\"2.0\",\"result\":{\"depth\":3,\"reason\":\"stuck\",\"state\":{\"term\":{\"format\":\"KORE\",\"term\":{\"args\":[],\"name\":\"Lbldone\",\"sorts\":[],\"tag\":\"App\"},\"version\":1}}}}\n",
    ),
    (
        Line::Bounded,
        "{\"id\":-1,\"jsonrpc\":\"2.0\",\"result\":{\"depth\":10000,\"reason\":\"depth-bound\",\"state\":{\"term\":{\"format\":\"KORE\",\"term\":{\"name\":\"X\",\"sort\":{\"name\":\"S\",\"tag\":\"SortVar\"},\"tag\":\"EVar\"},\"version\":1}}}}\n",
    ),
];

/// Faults and results are written byte by byte.
#[test]
fn faults_and_results_by_their_bytes(rt: HostRuntime) {
    each_is_told(&rt, rt.alloc(), &LINES);
}
