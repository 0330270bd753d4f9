use crate::table::{Subject, bytes, each_is_told, is_told, text};
use kp_claim_sentences::FiledClaim;
use kp_client::{ProofEnd, ProveOptions, ScriptLink, prove, prove_claim};
use kp_graph::{NodeId, Tree, Why};
use kp_kore::{Claim, Pattern, Sort};
use kp_report::{Line, report_text};
use std::alloc::Global;
use std::process::Abort;

/// A state: a symbol without arguments.
fn state(rt: &impl Abort, alloc: Global, name: &str) -> Pattern {
    Pattern::Application {
        symbol: text(rt, alloc, name),
        sorts: Vec::new(alloc),
        arguments: Vec::new(alloc),
    }
}

/// The claim that a state reaches another.
fn claim(rt: &impl Abort, alloc: Global, left: &str, right: &str) -> Claim {
    Claim {
        left: state(rt, alloc, left),
        right: state(rt, alloc, right),
    }
}

/// A link to a server that gives these lines.
fn link(rt: &impl Abort, alloc: Global, lines: &[&str]) -> ScriptLink {
    let mut script = Vec::new(alloc);
    for line in lines {
        script.push(bytes(rt, alloc, line)).expect(rt, "memory");
    }
    ScriptLink::new(alloc, script)
}

/// How a proof ended.
fn outcome_text(rt: &impl Abort, alloc: Global, outcome: &ProofEnd) -> String {
    match outcome {
        ProofEnd::Passed => text(rt, alloc, "passed"),
        ProofEnd::Failed { node: _ } => text(rt, alloc, "failed"),
        ProofEnd::Pending { node: _, why: _ } => text(rt, alloc, "pending"),
        ProofEnd::Refused { code } => format!(in alloc; "refused {code}").expect(rt, "memory"),
    }
}

/// The symbol of a state without arguments.
fn name_of(state: &Pattern) -> &str {
    match state {
        Pattern::Application {
            symbol,
            sorts,
            arguments,
        } if sorts.is_empty() && arguments.is_empty() => symbol.as_str(),
        _ => "another",
    }
}

/// The last node's state.
fn last_state(tree: &Tree) -> &str {
    let node = NodeId { number: tree.len() };
    if tree.has(node) {
        name_of(tree.state(node))
    } else {
        "none"
    }
}

/// How a proof ended, and its tree.
fn ended(rt: &impl Abort, alloc: Global, outcome: &ProofEnd, tree: &Tree) -> String {
    let outcome = outcome_text(rt, alloc, outcome);
    let count = tree.len();
    let status = tree.status();
    let last = last_state(tree);
    format!(in alloc; "{outcome}: {count} nodes, {status:?}, last {last}").expect(rt, "memory")
}

/// How the proof over a link from `start` to `done` ends, or why it was broken off.
fn proved(rt: &impl Abort, alloc: Global, link: &mut ScriptLink, max_depth: u64) -> String {
    let claim = claim(rt, alloc, "start", "done");
    match prove_claim(alloc, link, &claim, &ProveOptions { max_depth }) {
        Ok((outcome, tree)) => ended(rt, alloc, &outcome, &tree),
        Err(fault) => format!(in alloc; "{fault:?}").expect(rt, "memory"),
    }
}

/// What was asked at a place.
fn asked(link: &ScriptLink, place: usize) -> &[u8] {
    match link.spoken.get(place) {
        Some(spoken) => spoken.frame.as_slice(),
        None => b"nothing",
    }
}

/// A proof in edges of at most so many steps over a link that gives these lines, and the place of a question.
#[derive(Clone, Copy)]
struct Proof(&'static [&'static str], u64, usize);

impl Subject for Proof {
    /// How the proof from `start` to `done` ends, how often was asked and the link failed, and what was asked at the place.
    fn told(&self, rt: &impl Abort, alloc: Global) -> Vec<u8> {
        let Proof(lines, max_depth, place) = *self;
        let mut link = link(rt, alloc, lines);
        let proved = proved(rt, alloc, &mut link, max_depth);
        let count = link.spoken.len();
        let faults = link.faults;
        let mut told = format!(in alloc; "{proved}; {count} asked, {faults} failed\n")
            .expect(rt, "memory")
            .into_bytes();
        told.extend_from_slice(asked(&link, place))
            .expect(rt, "memory");
        told
    }
}

/// The reply that a state is covered.
pub const COVERED: &str =
    r#"{"id":1,"jsonrpc":"2.0","result":{"condition":{"predicate":{"format":"KORE","term":{"sort":{"name":"S","tag":"SortVar"},"tag":"Top"},"version":1},"substitution":{"format":"KORE","term":{"sort":{"name":"S","tag":"SortVar"},"tag":"Top"},"version":1}},"valid":true}}
"#;

/// The reply that a state isn't covered.
pub const UNCOVERED: &str = r#"{"id":1,"jsonrpc":"2.0","result":{"valid":false}}
"#;

/// The reply that a run ended at its bound.
const BOUNDED: &str =
    r#"{"id":2,"jsonrpc":"2.0","result":{"depth":2,"reason":"depth-bound","state":{"term":{"format":"KORE","term":{"args":[],"name":"middle","sorts":[],"tag":"App"},"version":1}}}}
"#;

/// The reply that a run got stuck.
const STUCK: &str =
    r#"{"id":2,"jsonrpc":"2.0","result":{"depth":1,"reason":"stuck","state":{"term":{"format":"KORE","term":{"args":[],"name":"done","sorts":[],"tag":"App"},"version":1}}}}
"#;

/// The reply that a run ended in a state without instances.
const VACUOUS: &str =
    r#"{"id":2,"jsonrpc":"2.0","result":{"depth":3,"reason":"vacuous","state":{"term":{"format":"KORE","term":{"args":[],"name":"middle","sorts":[],"tag":"App"},"version":1}}}}
"#;

/// The reply that a limit ended a run.
const LIMITED: &str =
    r#"{"id":2,"jsonrpc":"2.0","result":{"depth":1,"limit":{"name":"depth","number":49},"reason":"aborted","state":{"term":{"format":"KORE","term":{"args":[],"name":"middle","sorts":[],"tag":"App"},"version":1}}}}
"#;

/// Two edges and a cover.
const PASSING: [&str; 5] = [UNCOVERED, BOUNDED, UNCOVERED, STUCK, COVERED];

/// Proofs, and what is told of them.
const PROOFS: [(Proof, &str); 5] = [
    (
        Proof(&PASSING, 2, 0),
        "passed: 3 nodes, Passed, last done; 5 asked, 0 failed\n{\"id\":1,\"jsonrpc\":\"2.0\",\"method\":\"implies\",\"params\":{\"antecedent\":{\"format\":\"KORE\",\"term\":{\"args\":[],\"name\":\"start\",\"sorts\":[],\"tag\":\"App\"},\"version\":1},\"consequent\":{\"format\":\"KORE\",\"term\":{\"args\":[],\"name\":\"done\",\"sorts\":[],\"tag\":\"App\"},\"version\":1}}}",
    ),
    (
        Proof(&PASSING, 2, 3),
        "passed: 3 nodes, Passed, last done; 5 asked, 0 failed\n{\"id\":4,\"jsonrpc\":\"2.0\",\"method\":\"execute\",\"params\":{\"max-depth\":2,\"state\":{\"format\":\"KORE\",\"term\":{\"args\":[],\"name\":\"middle\",\"sorts\":[],\"tag\":\"App\"},\"version\":1}}}",
    ),
    // a reason that the prover can't use ends the proof
    (
        Proof(&[UNCOVERED, VACUOUS], 1, 9),
        "refused 2: 1 nodes, Pending, last start; 2 asked, 0 failed\nnothing",
    ),
    (
        Proof(&[UNCOVERED, LIMITED], 1, 9),
        "refused 2: 1 nodes, Pending, last start; 2 asked, 0 failed\nnothing",
    ),
    // a link that fails breaks the proof off
    (
        Proof(&[UNCOVERED], 1, 9),
        "LinkFault; 1 asked, 1 failed\nnothing",
    ),
];

/// Proofs end as the replies tell, by the questions that are asked.
#[test]
fn proofs_end_as_they_are_told(rt: HostRuntime) {
    each_is_told(&rt, rt.alloc(), &PROOFS);
}

/// A claim of a list, from a state to itself.
fn item(rt: &impl Abort, alloc: Global, name: &str) -> FiledClaim {
    FiledClaim {
        label: text(rt, alloc, name),
        sort: Sort::App {
            name: text(rt, alloc, "SortS"),
            arguments: Vec::new(alloc),
        },
        pattern: state(rt, alloc, name),
        claim: claim(rt, alloc, name, name),
        circular: false,
        depends: Vec::new(alloc),
    }
}

/// How the proof of the second of two claims ends, whose left side is covered.
fn second_proved(rt: &impl Abort, alloc: Global) -> String {
    let claims = [item(rt, alloc, "first"), item(rt, alloc, "second")];
    let mut link = link(rt, alloc, &[COVERED]);
    match prove(alloc, &mut link, &claims, 1, &ProveOptions::default()) {
        Ok((outcome, tree)) => ended(rt, alloc, &outcome, &tree),
        Err(fault) => format!(in alloc; "{fault:?}").expect(rt, "memory"),
    }
}

/// Of a list the claim at a place is proved.
#[test]
fn the_claim_at_a_place_is_proved(rt: HostRuntime) {
    is_told(
        &rt,
        rt.alloc(),
        second_proved(&rt, rt.alloc()).as_bytes(),
        "passed: 1 nodes, Passed, last second",
    );
}

/// A report of a claim that passed and one that is pending.
fn report(rt: &impl Abort, alloc: Global) -> Vec<u8> {
    let lines = [
        Line {
            label: text(rt, alloc, "A"),
            result: ProofEnd::Passed,
        },
        Line {
            label: text(rt, alloc, "B"),
            result: ProofEnd::Pending {
                node: NodeId { number: 12 },
                why: Why::Nodes,
            },
        },
    ];
    report_text(alloc, &lines).expect(rt, "memory")
}

/// A report has the line of each claim, in order.
#[test]
fn the_lines_of_a_report_in_order(rt: HostRuntime) {
    is_told(
        &rt,
        rt.alloc(),
        &report(&rt, rt.alloc()),
        "passed A\npending B node 12 nodes\n",
    );
}
