use crate::table::{Subject, each_is_told, text};
use kp_graph::{Child, NodeId, Status, Tree, TreeArc, TreeFault, Why};
use kp_kore::{Claim, Pattern, Sort};
use std::alloc::Global;
use std::process::Abort;

/// A state, told from others by its text.
fn state(rt: &impl Abort, alloc: Global, name: &str) -> Pattern {
    Pattern::Literal {
        sort: Sort::Variable {
            name: text(rt, alloc, "S"),
        },
        text: text(rt, alloc, name),
    }
}

/// So many states.
fn states(rt: &impl Abort, alloc: Global, count: usize) -> Vec<Pattern> {
    let mut states = Vec::new(alloc);
    for _ in 0..count {
        states.push(state(rt, alloc, "part")).expect(rt, "memory");
    }
    states
}

/// The id of a claim.
const CLAIM: &str = "m0123456789abcdef0123456789abcdef0123456789abcdef0123456789abcdef#12";

/// A child by the rule of this id.
fn child(rt: &impl Abort, alloc: Global, rule: Option<String>) -> Child {
    Child {
        state: state(rt, alloc, "child"),
        rule,
    }
}

/// Three children: by a rule, by a claim, and by neither.
fn children(rt: &impl Abort, alloc: Global) -> Vec<Child> {
    let by_rule = child(rt, alloc, Some(text(rt, alloc, "TOYS#1")));
    let by_claim = child(rt, alloc, Some(text(rt, alloc, CLAIM)));
    let by_neither = child(rt, alloc, None);
    vec![in alloc; by_rule, by_claim, by_neither].expect(rt, "memory")
}

/// The tree of a claim from `first`.
fn tree(rt: &impl Abort, alloc: Global) -> Tree {
    let claim = Claim {
        left: state(rt, alloc, "first"),
        right: state(rt, alloc, "last"),
    };
    Tree::new(alloc, &claim).expect(rt, "memory")
}

/// The node of a number.
fn node(number: usize) -> NodeId {
    NodeId { number }
}

/// A call that changes a tree, nodes by their numbers.
#[derive(Clone, Copy)]
enum Step {
    /// From a node so many steps to a state of this text, by a terminal rule or not.
    Edge(usize, u64, &'static str, bool),
    /// Of a node into so many.
    Split(usize, usize),
    /// From a node to three children.
    Branch(usize),
    Cover(usize),
    Vacuous(usize),
    Stuck(usize),
    Terminal(usize),
    Hold(usize),
    /// Edges of one step from each node up to this one.
    EdgesUpTo(usize),
    /// Covers of all nodes from one up to another.
    Covers(usize, usize),
}

/// Adds edges of one step from each node up to the last.
fn edges(rt: &impl Abort, alloc: Global, tree: &mut Tree, last: usize) -> Result<(), TreeFault> {
    for number in 1..=last {
        tree.edge(node(number), 1, state(rt, alloc, "next"), false)?;
    }
    Ok(())
}

/// Covers the nodes from the first to the last.
fn covers(tree: &mut Tree, first: usize, last: usize) -> Result<(), TreeFault> {
    for number in first..=last {
        tree.cover(node(number))?;
    }
    Ok(())
}

/// Changes the tree by a call.
fn take(rt: &impl Abort, alloc: Global, tree: &mut Tree, step: Step) -> Result<(), TreeFault> {
    match step {
        Step::Edge(at, depth, name, terminal) => {
            tree.edge(node(at), depth, state(rt, alloc, name), terminal)
        }
        Step::Split(at, count) => tree.split(alloc, node(at), states(rt, alloc, count)),
        Step::Branch(at) => tree.branch(alloc, node(at), children(rt, alloc)),
        Step::Cover(at) => tree.cover(node(at)),
        Step::Vacuous(at) => tree.vacuous(node(at)),
        Step::Stuck(at) => tree.stuck(node(at)),
        Step::Terminal(at) => tree.terminal(node(at)),
        Step::Hold(at) => tree.hold(node(at), Why::Rounds),
        Step::EdgesUpTo(last) => edges(rt, alloc, tree, last),
        Step::Covers(first, last) => covers(tree, first, last),
    }
}

/// Adds to a text.
fn add(rt: &impl Abort, text: &mut String, more: &str) {
    text.push_str(more).expect(rt, "memory");
}

/// What is told of a refusal.
fn fault_name(fault: TreeFault) -> &'static str {
    match fault {
        TreeFault::NoSuchNode => "no such node, ",
        TreeFault::NotOpen => "not open, ",
        TreeFault::TooManyNodes => "too many nodes, ",
        TreeFault::Memory => "no memory, ",
    }
}

/// The tree after the first calls, and each refusal in the text.
fn grown(rt: &impl Abort, alloc: Global, steps: &[Step], count: usize, text: &mut String) -> Tree {
    let mut tree = tree(rt, alloc);
    for step in &steps[..count.min(steps.len())] {
        match take(rt, alloc, &mut tree, *step) {
            Ok(()) => {}
            Err(fault) => add(rt, text, fault_name(fault)),
        }
    }
    tree
}

/// The number of a node, 0 for none.
fn number_of(node: Option<NodeId>) -> usize {
    match node {
        Some(node) => node.number,
        None => 0,
    }
}

/// The numbers of the open nodes.
fn open_numbers(rt: &impl Abort, alloc: Global, tree: &Tree) -> String {
    let mut text = String::new(alloc);
    for node in tree.pending(alloc).expect(rt, "memory") {
        let number = node.number;
        add(
            rt,
            &mut text,
            &format!(in alloc; " {number}").expect(rt, "memory"),
        );
    }
    text
}

/// How the tree stands: its status, how many nodes it has, which are open, and the first of these.
fn standing(rt: &impl Abort, alloc: Global, tree: &Tree) -> String {
    let open = open_numbers(rt, alloc, tree);
    let status = tree.status();
    let count = tree.len();
    let first = number_of(tree.first_open());
    format!(in alloc; "{status:?}: {count} nodes, open{open}, first {first}").expect(rt, "memory")
}

/// What the node's state was found to do.
fn arc_text(rt: &impl Abort, alloc: Global, arc: Option<&TreeArc>) -> String {
    match arc {
        Some(
            TreeArc::Edge {
                depth,
                to,
                terminal,
            },
        ) => {
            let number = to.number;
            format!(in alloc; "edge of {depth} to {number}, terminal {terminal}").expect(
                rt, "memory",
            )
        }
        Some(TreeArc::Cover) => text(rt, alloc, "cover"),
        Some(_) => text(rt, alloc, "another arc"),
        None => text(rt, alloc, "no arc"),
    }
}

/// The text of a state.
fn name_of(state: &Pattern) -> &str {
    match state {
        Pattern::Literal { sort: _, text } => text.as_str(),
        _ => "another state",
    }
}

/// What is told of a node: its state, where it stands and what is known of it.
fn node_text(rt: &impl Abort, alloc: Global, tree: &Tree, node: NodeId) -> String {
    if !tree.has(node) {
        return text(rt, alloc, "no node");
    }
    let state = name_of(tree.state(node));
    let parent = number_of(tree.parent(node));
    let progress = tree.progress(node);
    let flagged = tree.flagged(node);
    let held = tree.held(node).is_some();
    let arc = arc_text(rt, alloc, tree.arc(node));
    format!(in alloc;
        "{state}: parent {parent}, progress {progress}, flagged {flagged}, held {held}, {arc}"
    ).expect(rt, "memory")
}

/// Whether a node has progress: `+` if so, `-` if not.
fn progress_mark(tree: &Tree, node: NodeId) -> &'static str {
    if tree.has(node) && tree.progress(node) {
        "+"
    } else {
        "-"
    }
}

/// Which nodes have progress.
fn progress(rt: &impl Abort, alloc: Global, tree: &Tree) -> String {
    let mut text = String::new(alloc);
    for number in 1..=tree.len() {
        add(rt, &mut text, progress_mark(tree, node(number)));
    }
    text
}

/// What is looked at in a tree.
#[derive(Clone, Copy)]
enum View {
    /// How it stands, and its open nodes.
    Standing,
    /// How it stands, and of how many nodes.
    Length,
    /// What is told of a node.
    Node(usize),
    /// Which nodes have progress.
    Progress,
}

/// What is told of a tree.
fn view_text(rt: &impl Abort, alloc: Global, tree: &Tree, view: View) -> String {
    match view {
        View::Standing => standing(rt, alloc, tree),
        View::Length => {
            let status = tree.status();
            let count = tree.len();
            format!(in alloc; "{status:?}: {count} nodes").expect(rt, "memory")
        }
        View::Node(number) => node_text(rt, alloc, tree, node(number)),
        View::Progress => progress(rt, alloc, tree),
    }
}

/// Calls, how many of them are made, and what is looked at then.
#[derive(Clone, Copy)]
struct Look(&'static [Step], usize, View);

impl Subject for Look {
    /// The refusals of the calls, and what is told of the tree after them.
    fn told(&self, rt: &impl Abort, alloc: Global) -> Vec<u8> {
        let Look(steps, count, view) = *self;
        let mut text = String::new(alloc);
        let tree = grown(rt, alloc, steps, count, &mut text);
        add(rt, &mut text, &view_text(rt, alloc, &tree, view));
        text.into_bytes()
    }
}

/// Three edges from node 1, the second terminal, and a cover.
const CHAIN: [Step; 4] = [
    Step::Edge(1, 3, "second", false),
    Step::Edge(2, 1, "third", true),
    Step::Edge(3, 2, "fourth", false),
    Step::Cover(4),
];

/// Calls of which the first two, the fourth and the last are refused.
const REFUSED: [Step; 6] = [
    Step::Cover(0),
    Step::Stuck(2),
    Step::Edge(1, 1, "second", false),
    Step::Cover(1),
    Step::Hold(2),
    Step::Stuck(2),
];

/// A chain of 10,000 nodes, one more edge from its last and its first, and an end.
const LONG_CHAIN: [Step; 4] = [
    Step::EdgesUpTo(9_999),
    Step::Edge(10_000, 1, "next", false),
    Step::Edge(1, 1, "next", false),
    Step::Stuck(10_000),
];

/// A split into 10,000 and one into 9,999, and an end.
const WIDE_SPLIT: [Step; 3] = [
    Step::Split(1, 10_000),
    Step::Split(1, 9_999),
    Step::Terminal(10_000),
];

/// A split into two, a branch of one of them, and what closes all nodes.
const BRANCHES: [Step; 7] = [
    Step::Split(1, 2),
    Step::Branch(2),
    Step::Split(4, 1),
    Step::Cover(3),
    Step::Vacuous(5),
    Step::Cover(7),
    Step::Cover(6),
];

/// A split into none.
const NO_PART: [Step; 1] = [Step::Split(1, 0)];

/// A split into six, of which some are closed, one is held, and one goes on.
const SIX: [Step; 7] = [
    Step::Split(1, 6),
    Step::Cover(4),
    Step::Cover(3),
    Step::Hold(6),
    Step::Cover(5),
    Step::Edge(7, 1, "next", false),
    Step::Cover(2),
];

/// Calls and how many of them are made, what is looked at, and what is told.
const ROWS: [(Look, &str); 21] = [
    // three edges and a cover pass
    (
        Look(&CHAIN, 3, View::Standing),
        "Pending: 4 nodes, open 4, first 4",
    ),
    (
        Look(&CHAIN, 4, View::Standing),
        "Passed: 4 nodes, open, first 0",
    ),
    (
        Look(&CHAIN, 4, View::Node(3)),
        "third: parent 2, progress true, flagged true, held false, edge of 2 to 4, terminal false",
    ),
    (
        Look(&CHAIN, 4, View::Node(1)),
        "first: parent 0, progress false, flagged false, held false, edge of 3 to 2, terminal false",
    ),
    (
        Look(&CHAIN, 4, View::Node(4)),
        "fourth: parent 3, progress true, flagged false, held false, cover",
    ),
    // refusals leave the tree
    (
        Look(&REFUSED, 6, View::Standing),
        "no such node, no such node, not open, not open, Pending: 2 nodes, open, first 0",
    ),
    (
        Look(&REFUSED, 6, View::Node(2)),
        "no such node, no such node, not open, not open, second: parent 1, progress true, flagged false, held true, no arc",
    ),
    // a tree has ten thousand nodes
    (
        Look(&LONG_CHAIN, 3, View::Standing),
        "too many nodes, not open, Pending: 10000 nodes, open 10000, first 10000",
    ),
    (
        Look(&LONG_CHAIN, 4, View::Standing),
        "too many nodes, not open, Failed: 10000 nodes, open, first 0",
    ),
    (
        Look(&WIDE_SPLIT, 2, View::Length),
        "too many nodes, Pending: 10000 nodes",
    ),
    (
        Look(&WIDE_SPLIT, 3, View::Length),
        "too many nodes, Failed: 10000 nodes",
    ),
    // splits and branches keep progress
    (Look(&BRANCHES, 1, View::Progress), "---"),
    (Look(&BRANCHES, 2, View::Progress), "---+--"),
    (Look(&BRANCHES, 3, View::Progress), "---+--+"),
    (
        Look(&BRANCHES, 6, View::Standing),
        "Pending: 7 nodes, open 6, first 6",
    ),
    (
        Look(&BRANCHES, 7, View::Standing),
        "Passed: 7 nodes, open, first 0",
    ),
    // a split into none is pending
    (
        Look(&NO_PART, 1, View::Standing),
        "Pending: 1 nodes, open, first 0",
    ),
    // open nodes are told in rising order
    (
        Look(&SIX, 4, View::Standing),
        "Pending: 7 nodes, open 2 5 7, first 2",
    ),
    (
        Look(&SIX, 5, View::Standing),
        "Pending: 7 nodes, open 2 7, first 2",
    ),
    (
        Look(&SIX, 6, View::Standing),
        "Pending: 8 nodes, open 2 8, first 2",
    ),
    (
        Look(&SIX, 7, View::Standing),
        "Pending: 8 nodes, open 8, first 8",
    ),
];

/// Proof trees as they are told after calls, refused ones among them.
#[test]
fn trees_are_told(rt: HostRuntime) {
    each_is_told(&rt, rt.alloc(), &ROWS);
}

/// A split into 9,999, of which the first and the last stay open.
const CLOSED_BETWEEN: [Step; 2] = [Step::Split(1, 9_999), Step::Covers(3, 9_999)];

/// Whether the tree tells so many times that two nodes are open.
fn tells_two(rt: &impl Abort, alloc: Global, tree: &Tree, times: usize) -> bool {
    for _ in 0..times {
        let count = tree.pending(alloc).expect(rt, "memory").len();
        if count != 2 || tree.status() != Status::Pending {
            return false;
        }
    }
    true
}

/// A large tree tells its open nodes without a look at those that are closed.
#[test]
fn ten_thousand_nodes_are_asked_ten_thousand_times(rt: HostRuntime) {
    let alloc = rt.alloc();
    let tree = grown(&rt, alloc, &CLOSED_BETWEEN, 2, &mut String::new(alloc));
    assert!(rt; tells_two(&rt, alloc, &tree, 10_000));
}
