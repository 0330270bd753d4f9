// The nodes of a tree, as they are kept.
ghost use Rattle.std.specs.Prelude.{◌≡◌, ◌↔◌, IsTrue, ◌+◌, ◌<◌, ◌≤◌, ◌||◌, ◌∷◌, [], length, map, drop, ◌-◌, Some, None, IfOk, IfErr, OnOk, OnErr, false, true};
ghost use Rattle.kp_kore.specs.View.{view};
ghost use Rattle.kp_kore.specs.ClaimRules.{is_progress};
ghost use Rattle.kp_graph.specs.Tree.{edge, split, branch, arc_fault, children_fault, open_node, open_from, numbers_from, with_arc, with_hold, with_children, is_open as is_open_node};
ghost use Rattle.kp_graph.specs.Kept.{before_open, are_closed, pass_closed};
ghost use Rattle.kp_graph.specs.View.{node_view, nodes_view, arc_view, why_view, rule_view, child_view};

use crate::node::{Child, Node, NodeId, TreeArc, TreeFault, Why};
use crate::steps::is_step_progress;
use kp_kore::Pattern;
use std::alloc::{AllocError, Global};

/// A tree has at most so many nodes.
pub const MOST_NODES: usize = 10_000;

/// The place of an open node, or K1, K2.
pub fn open_place(nodes: &[Node], node: NodeId) -> Result<usize, TreeFault>
    ensures fault { IfErr result (λ f. arc_fault (nodes_view nodes.now) node.number ≡ Some f) }
    ensures opened { IfOk result (λ _. arc_fault (nodes_view nodes.now) node.number ≡ None) }
    ensures place { IfOk result (λ i. i + 1 ≡ node.number) }
    ensures within { IfOk result (λ i. i < length nodes.now) }
{
    if node.number == 0 {
        return Err(TreeFault::NoSuchNode);
    }
    let place = node.number - 1;
    match nodes.get(place) {
        Some(found) => {
            if is_open(found) {
                Ok(place)
            } else {
                Err(TreeFault::NotOpen)
            }
        }
        None => Err(TreeFault::NoSuchNode),
    }
}

/// Whether a node has no arc and isn't held.
pub fn is_open(node: &Node) -> bool
    ensures { result ≡ is_open_node (node_view node.now) }
{
    node.arc.is_none() && node.held.is_none()
}

/// Whether so many more nodes may be made.
pub fn has_room(nodes: &[Node], count: usize) -> bool
    ensures { IsTrue result ↔ (length nodes.now + count ≤ 10000) }
{
    count <= MOST_NODES && nodes.len() <= MOST_NODES - count
}

/// The place of an open node that may get so many children, or K1, K2, K3.
pub fn room_at(nodes: &[Node], node: NodeId, count: usize) -> Result<usize, TreeFault>
    ensures fault { IfErr result (λ f. children_fault (nodes_view nodes.now) node.number count ≡ Some f) }
    ensures opened { IfOk result (λ _. arc_fault (nodes_view nodes.now) node.number ≡ None) }
    ensures room { IfOk result (λ _. children_fault (nodes_view nodes.now) node.number count ≡ None) }
    ensures few { IfOk result (λ _. length nodes.now + count ≤ 10000) }
    ensures place { IfOk result (λ i. i + 1 ≡ node.number) }
    ensures within { IfOk result (λ i. i < length nodes.now) }
{
    let place = open_place(nodes, node)?;
    if has_room(nodes, count) {
        Ok(place)
    } else {
        Err(TreeFault::TooManyNodes)
    }
}

/// An edge of so many steps to a node.
pub fn edge_to(depth: u64, to: NodeId, terminal: bool) -> TreeArc
    ensures { arc_view result ≡ edge depth to.number terminal }
{
    TreeArc::Edge {
        depth,
        to,
        terminal,
    }
}

/// A split into so many nodes.
pub fn split_to(first: NodeId, count: usize) -> TreeArc
    ensures { arc_view result ≡ split (numbers_from first.number count) }
{
    TreeArc::Split { first, count }
}

/// A branch to a node for each of these rules.
pub fn branch_to(rules: Vec<Option<String>>, first: NodeId) -> TreeArc
    ensures { arc_view result ≡ branch (map rule_view rules.items) (numbers_from first.number (length rules.items)) }
{
    TreeArc::Branch { rules, first }
}

/// An open node with this state and parent.
pub fn new_node(state: Pattern, parent: NodeId, flagged: bool, progress: bool) -> Node
    ensures open { node_view result ≡ open_node parent.number (view state) flagged progress }
    ensures alone { result.closed_behind ≡ 0 }
{
    Node {
        state,
        parent: Some(parent),
        flagged,
        arc: None,
        held: None,
        progress,
        closed_behind: 0,
        row_before: 0,
    }
}

/// The nodes of a branch: open, with the progress of the node above or of their steps; and the rules of these.
pub fn branch_nodes(
    alloc: Global,
    children: Vec<Child>,
    parent: NodeId,
    progress: bool,
) -> Result<(Vec<Node>, Vec<Option<String>>), AllocError>
    ensures nodes { IfOk result (λ r. nodes_view r.0.items ≡ map (λ k. open_node parent.number k.state false (progress || is_progress k.rule)) (map child_view children.items)) }
    ensures alone { IfOk result (λ r. map (λ z. z.closed_behind) r.0.items ≡ map (λ k. 0) children.items) }
    ensures rules { IfOk result (λ r. map rule_view r.1.items ≡ map (λ k. k.rule) (map child_view children.items)) }
{
    let mut nodes = Vec::new(alloc);
    let mut rules = Vec::new(alloc);
    for child in children {
        let further = progress || is_step_progress(&child.rule);
        nodes.push(new_node(child.state, parent, false, further))?;
        rules.push(child.rule)?;
    }
    Ok((nodes, rules))
}

/// The nodes of a split: open, with the progress of the node above.
pub fn part_nodes(
    alloc: Global,
    states: Vec<Pattern>,
    parent: NodeId,
    progress: bool,
) -> Result<Vec<Node>, AllocError>
    ensures alone { IfOk result (λ zs. map (λ z. z.closed_behind) zs.items ≡ map (λ s. 0) states.items) }
    ensures nodes { IfOk result (λ zs. nodes_view zs.items ≡ map (λ s. open_node parent.number s false progress) (map view states.items)) }
{
    let mut nodes = Vec::new(alloc);
    for state in states {
        nodes.push(new_node(state, parent, false, progress))?;
    }
    Ok(nodes)
}

/// How many nodes aren't settled, where an open one gets an arc to so many new ones.
pub fn unsettled_after(before: usize, count: usize) -> usize
    requires some { 1 ≤ before }
    requires fits { before + count ≤ 20000 }
    ensures none { count ≡ 0 → result ≡ before }
    ensures more { 0 < count → result + 1 ≡ before + count }
{
    if count == 0 {
        before
    } else {
        before - 1 + count
    }
}

/// Whether some node has failed, where one more may have.
pub fn either_failed(before: bool, now: bool) -> bool
    ensures { result ≡ (before || now) }
{
    before || now
}

/// Puts one new node behind all others, and gives the node at this place an arc.
pub fn add_one(
    nodes: &mut Vec<Node>,
    place: usize,
    arc: TreeArc,
    child: Node,
) -> Result<(), AllocError>
    requires within { place < length nodes.old.items }
    requires pass { pass_closed nodes.old.items ≡ true }
    requires alone { child.closed_behind ≡ 0 }
    ensures pass { OnOk result (pass_closed nodes.new.items ≡ true) }
    ensures added { OnOk result (nodes_view nodes.new.items ≡ with_children (place + 1) (arc_view arc) (node_view child ∷ []) (nodes_view nodes.old.items)) }
    ensures unchanged { OnErr result (nodes.new.items ≡ nodes.old.items) }
{
    nodes.push(child)?;
    give_arc(nodes, place, arc);
    Ok(())
}

/// Puts new nodes behind all others, and gives the node at this place an arc.
pub fn add_all(
    nodes: &mut Vec<Node>,
    place: usize,
    arc: TreeArc,
    children: Vec<Node>,
) -> Result<(), AllocError>
    requires within { place < length nodes.old.items }
    requires pass { pass_closed nodes.old.items ≡ true }
    requires passing { pass_closed children.items ≡ true }
    ensures pass { OnOk result (pass_closed nodes.new.items ≡ true) }
    ensures added { OnOk result (nodes_view nodes.new.items ≡ with_children (place + 1) (arc_view arc) (nodes_view children.items) (nodes_view nodes.old.items)) }
    ensures unchanged { OnErr result (nodes.new.items ≡ nodes.old.items) }
{
    let mut children = children;
    nodes.append(&mut children)?;
    give_arc(nodes, place, arc);
    Ok(())
}

/// Gives the node at this place an arc.
pub fn give_arc(nodes: &mut [Node], place: usize, arc: TreeArc)
    requires within { place < length nodes.old }
    requires pass { pass_closed nodes.old ≡ true }
    ensures arc { nodes_view nodes.new ≡ with_arc (place + 1) (arc_view arc) (nodes_view nodes.old) }
    ensures pass { pass_closed nodes.new ≡ true }
{
    nodes[place].arc = Some(arc);
    join_rows(nodes, place);
}

/// Holds the node at this place.
pub fn hold_node(nodes: &mut [Node], place: usize, why: Why)
    requires within { place < length nodes.old }
    requires pass { pass_closed nodes.old ≡ true }
    ensures held { nodes_view nodes.new ≡ with_hold (place + 1) (why_view why) (nodes_view nodes.old) }
    ensures pass { pass_closed nodes.new ≡ true }
{
    nodes[place].held = Some(why);
    join_rows(nodes, place);
}

/// Lets the row of closed nodes before a node that isn't open go on with it and those behind it.
fn join_rows(nodes: &mut [Node], place: usize)
    requires closed { are_closed 1 (drop place (nodes_view nodes.old)) ≡ true }
    requires pass { pass_closed nodes.old ≡ true }
    ensures same { nodes_view nodes.new ≡ nodes_view nodes.old }
    ensures pass { pass_closed nodes.new ≡ true }
{
    let start = row_start(nodes, place);
    let behind = row_end(nodes, place) - start;
    nodes[start].closed_behind = behind;
    nodes[start + behind].row_before = behind;
}

/// The node behind which the row of closed ones up to this one begins, or this one.
fn row_start(nodes: &[Node], place: usize) -> usize
    requires closed { are_closed 1 (drop place (nodes_view nodes.now)) ≡ true }
    requires pass { pass_closed nodes.now ≡ true }
    ensures before { result ≤ place }
    ensures row { are_closed (place - result) (drop (result + 1) (nodes_view nodes.now)) ≡ true }
{
    if place == 0 {
        return place;
    }
    let row = nodes[place - 1].row_before;
    if row >= place {
        return place;
    }
    if nodes[place - 1 - row].closed_behind != row {
        return place;
    }
    place - 1 - row
}

/// The last of the closed nodes behind this one.
pub fn row_end(nodes: &[Node], place: usize) -> usize
    requires within { place < length nodes.now }
    requires pass { pass_closed nodes.now ≡ true }
    ensures behind { place ≤ result }
    ensures within { result < length nodes.now }
    ensures row { are_closed (result - place) (drop (place + 1) (nodes_view nodes.now)) ≡ true }
    ensures passed { open_from (result + 1 + 1) (drop (result + 1) (nodes_view nodes.now)) ≡ open_from (place + 1 + 1) (drop (place + 1) (nodes_view nodes.now)) }
{
    place + nodes[place].closed_behind
}

/// How many nodes stand before the first open one, of which this many are known.
pub fn next_open(nodes: &[Node], known: usize) -> usize
    requires { known ≤ before_open (nodes_view nodes.now) }
    ensures { result ≡ before_open (nodes_view nodes.now) }
{
    let mut place = known;
    while place < nodes.len() && !is_open(&nodes[place]) {
        place += 1;
    }
    place
}
