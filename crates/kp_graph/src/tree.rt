ghost use Rattle.std.specs.Prelude.{◌≡◌, true};
ghost use Rattle.kp_graph.specs.Tree.{IsTree};
ghost use Rattle.kp_graph.specs.Kept.{before_open, pass_closed, some_failed as fails, unsettled as count_unsettled};
ghost use Rattle.kp_graph.specs.View.{nodes_view};

use crate::node::{Child, Node, NodeId, TreeArc, TreeFault, Why};
use crate::nodes::{
    add_all, add_one, branch_nodes, branch_to, edge_to, either_failed, give_arc, hold_node,
    is_open, new_node, next_open, open_place, part_nodes, room_at, row_end, split_to,
    unsettled_after,
};
use crate::status::Status;
use kp_kore::{Claim, Pattern};
use std::alloc::{AllocError, Global};

/// The tree of a proof: its nodes from 1, and what tells of them without a walk.
#[derive(Drop)]
pub struct Tree {
    nodes: Vec<Node>,
    closed_before: usize,
    failed: bool,
    unsettled: usize,
    ghost shape: { IsTree (nodes_view nodes.items) },
    ghost first_open: { closed_before ≡ before_open (nodes_view nodes.items) },
    ghost pass: { pass_closed nodes.items ≡ true },
    ghost some_failed: { failed ≡ fails (nodes_view nodes.items) },
    ghost counted: { unsettled ≡ count_unsettled (nodes_view nodes.items) },
}

impl Tree {
    ghost use Rattle.std.specs.Prelude.{◌↔◌, IfOk, OnOk, OnErr, IsOk, IsTrue, IsOkUnless, Some, None, Ok, Err, ℕ, false, true, length, map, slice_get};
    ghost use Rattle.std.specs.Option.{option_map};
    ghost use Rattle.kp_kore.specs.View.{view};
    ghost use Rattle.kp_kore.specs.ClaimView.{claim_view};
    ghost use Rattle.kp_graph.specs.Tree.{cover, vacuous, stuck, terminal, first_nodes, with_arc, with_hold, with_edge, with_split, with_branch, leads_to, gives_progress, is_failed, arc_fault, edge_fault, children_fault, node_at, IsNode, open_nodes, HasProgress, status_of};
    ghost use Rattle.kp_graph.specs.View.{arc_view, why_view, child_view};
    ghost use Rattle.kp_graph.specs.Kept.{is_settled};
    ghost use Rattle.kp_graph.specs.TreeView.{tree_view};
    ghost use Rattle.kp_graph.specs.declared.node.TreeFault.{TreeFault};
    ghost use Rattle.kp_graph.specs.declared.node.TreeFault.TheVariants.{Memory};

    /// The claim's left side as node 1, open.
    pub fn new(alloc: Global, claim: &Claim) -> Result<Tree, AllocError>
        ensures { IfOk result (λ t. tree_view t ≡ first_nodes (claim_view claim.now).left) }
    {
        let mut nodes = Vec::new(alloc);
        nodes.push(Node {
            state: claim.left.copy(alloc)?,
            parent: None,
            flagged: false,
            arc: None,
            held: None,
            progress: false,
            closed_behind: 0,
            row_before: 0,
        })?;
        Ok(Tree {
            nodes,
            closed_before: 0,
            failed: false,
            unsettled: 1,
        })
    }

    /// An edge from an open node to a new open node with this state, flagged where a terminal rule may have applied.
    pub fn edge(
        &mut self,
        node: NodeId,
        depth: u64,
        state: Pattern,
        terminal: bool,
    ) -> Result<(), TreeFault>
        ensures added { OnOk result (tree_view self.new ≡ with_edge node.number depth (view state) terminal (tree_view self.old)) }
        ensures refused { (f : TreeFault) → edge_fault (tree_view self.old) node.number ≡ Some f → result ≡ Err f }
        ensures memory { edge_fault (tree_view self.old) node.number ≡ None → IsOkUnless result Memory }
        ensures unchanged { OnErr result (tree_view self.new ≡ tree_view self.old) }
    {
        let place = room_at(&self.nodes, node, 1)?;
        let first = NodeId {
            number: self.nodes.len() + 1,
        };
        let child = new_node(state, node, terminal, true);
        add_one(
            &mut self.nodes,
            place,
            edge_to(depth, first, terminal),
            child,
        )?;
        self.closed_before = next_open(&self.nodes, self.closed_before);
        Ok(())
    }

    /// A split of an open node into new open nodes with these states.
    pub fn split(
        &mut self,
        alloc: Global,
        node: NodeId,
        states: Vec<Pattern>,
    ) -> Result<(), TreeFault>
        ensures added { OnOk result (tree_view self.new ≡ with_split node.number (map view states.items) (tree_view self.old)) }
        ensures refused { (f : TreeFault) → children_fault (tree_view self.old) node.number (length states.items) ≡ Some f → result ≡ Err f }
        ensures memory { children_fault (tree_view self.old) node.number (length states.items) ≡ None → IsOkUnless result Memory }
        ensures unchanged { OnErr result (tree_view self.new ≡ tree_view self.old) }
    {
        let count = states.len();
        let place = room_at(&self.nodes, node, count)?;
        let first = NodeId {
            number: self.nodes.len() + 1,
        };
        let progress = self.nodes[place].progress;
        let children = part_nodes(alloc, states, node, progress)?;
        add_all(&mut self.nodes, place, split_to(first, count), children)?;
        self.unsettled = unsettled_after(self.unsettled, count);
        self.closed_before = next_open(&self.nodes, self.closed_before);
        Ok(())
    }

    /// A branch of an open node to new open nodes with these states, each by the rule of its id or by none.
    pub fn branch(
        &mut self,
        alloc: Global,
        node: NodeId,
        children: Vec<Child>,
    ) -> Result<(), TreeFault>
        ensures added { OnOk result (tree_view self.new ≡ with_branch node.number (map child_view children.items) (tree_view self.old)) }
        ensures refused { (f : TreeFault) → children_fault (tree_view self.old) node.number (length children.items) ≡ Some f → result ≡ Err f }
        ensures memory { children_fault (tree_view self.old) node.number (length children.items) ≡ None → IsOkUnless result Memory }
        ensures unchanged { OnErr result (tree_view self.new ≡ tree_view self.old) }
    {
        let count = children.len();
        let place = room_at(&self.nodes, node, count)?;
        let first = NodeId {
            number: self.nodes.len() + 1,
        };
        let progress = self.nodes[place].progress;
        let (nodes, rules) = branch_nodes(alloc, children, node, progress)?;
        add_all(&mut self.nodes, place, branch_to(rules, first), nodes)?;
        self.unsettled = unsettled_after(self.unsettled, count);
        self.closed_before = next_open(&self.nodes, self.closed_before);
        Ok(())
    }

    /// The state of an open node is covered by the claim's right side.
    pub fn cover(&mut self, node: NodeId) -> Result<(), TreeFault>
        ensures added { OnOk result (tree_view self.new ≡ with_arc node.number cover (tree_view self.old)) }
        ensures refused { (f : TreeFault) → arc_fault (tree_view self.old) node.number ≡ Some f → result ≡ Err f }
        ensures accepted { arc_fault (tree_view self.old) node.number ≡ None → IsOk result }
        ensures unchanged { OnErr result (tree_view self.new ≡ tree_view self.old) }
    {
        self.close(node, TreeArc::Cover, false)
    }

    /// The state of an open node has no instance.
    pub fn vacuous(&mut self, node: NodeId) -> Result<(), TreeFault>
        ensures added { OnOk result (tree_view self.new ≡ with_arc node.number vacuous (tree_view self.old)) }
        ensures refused { (f : TreeFault) → arc_fault (tree_view self.old) node.number ≡ Some f → result ≡ Err f }
        ensures accepted { arc_fault (tree_view self.old) node.number ≡ None → IsOk result }
        ensures unchanged { OnErr result (tree_view self.new ≡ tree_view self.old) }
    {
        self.close(node, TreeArc::Vacuous, false)
    }

    /// No rule applies to the state of an open node.
    pub fn stuck(&mut self, node: NodeId) -> Result<(), TreeFault>
        ensures added { OnOk result (tree_view self.new ≡ with_arc node.number stuck (tree_view self.old)) }
        ensures refused { (f : TreeFault) → arc_fault (tree_view self.old) node.number ≡ Some f → result ≡ Err f }
        ensures accepted { arc_fault (tree_view self.old) node.number ≡ None → IsOk result }
        ensures unchanged { OnErr result (tree_view self.new ≡ tree_view self.old) }
    {
        self.close(node, TreeArc::Stuck, true)
    }

    /// A terminal rule ended the run in the state of an open node, which isn't covered.
    pub fn terminal(&mut self, node: NodeId) -> Result<(), TreeFault>
        ensures added { OnOk result (tree_view self.new ≡ with_arc node.number terminal (tree_view self.old)) }
        ensures refused { (f : TreeFault) → arc_fault (tree_view self.old) node.number ≡ Some f → result ≡ Err f }
        ensures accepted { arc_fault (tree_view self.old) node.number ≡ None → IsOk result }
        ensures unchanged { OnErr result (tree_view self.new ≡ tree_view self.old) }
    {
        self.close(node, TreeArc::Terminal, true)
    }

    /// An open node gets no arc, and is no longer open.
    pub fn hold(&mut self, node: NodeId, why: Why) -> Result<(), TreeFault>
        ensures held { OnOk result (tree_view self.new ≡ with_hold node.number (why_view why) (tree_view self.old)) }
        ensures refused { (f : TreeFault) → arc_fault (tree_view self.old) node.number ≡ Some f → result ≡ Err f }
        ensures accepted { arc_fault (tree_view self.old) node.number ≡ None → IsOk result }
        ensures unchanged { OnErr result (tree_view self.new ≡ tree_view self.old) }
    {
        let place = open_place(&self.nodes, node)?;
        hold_node(&mut self.nodes, place, why);
        self.closed_before = next_open(&self.nodes, self.closed_before);
        Ok(())
    }

    /// Passed where every leaf is a cover or vacuous, failed where one is stuck or terminal, else pending.
    pub fn status(&self) -> Status
        ensures { result ≡ status_of (tree_view self.now) }
    {
        if self.failed {
            Status::Failed
        } else if self.unsettled == 0 {
            Status::Passed
        } else {
            Status::Pending
        }
    }

    /// The open nodes, rising.
    pub fn pending(&self, alloc: Global) -> Result<Vec<NodeId>, AllocError>
        ensures { IfOk result (λ ids. map (λ n. n.number) ids.items ≡ open_nodes (tree_view self.now)) }
    {
        let mut pending = Vec::new(alloc);
        let mut place = self.closed_before;
        while place < self.nodes.len() {
            if is_open(&self.nodes[place]) {
                pending.push(NodeId { number: place + 1 })?;
            }
            place = row_end(&self.nodes, place) + 1;
        }
        Ok(pending)
    }

    /// The open node of the least number.
    pub fn first_open(&self) -> Option<NodeId>
        ensures least { option_map (λ n. n.number) result ≡ slice_get (open_nodes (tree_view self.now)) 0 }
    {
        if self.closed_before < self.nodes.len() {
            Some(NodeId {
                number: self.closed_before + 1,
            })
        } else {
            None
        }
    }

    /// How many nodes there are.
    pub fn len(&self) -> usize
        ensures count { result ≡ length (tree_view self.now) }
        ensures shape { IsTree (tree_view self.now) }
    {
        self.nodes.len()
    }

    /// Whether the tree has a node of this number.
    pub fn has(&self, node: NodeId) -> bool
        ensures { IsTrue result ↔ IsNode (tree_view self.now) node.number }
    {
        node.number > 0 && node.number <= self.nodes.len()
    }

    /// Whether the path from node 1 to the node has a step that is progress.
    pub fn progress(&self, node: NodeId) -> bool
        requires { IsNode (tree_view self.now) node.number }
        ensures { IsTrue result ↔ HasProgress (tree_view self.now) node.number }
    {
        self.nodes[node.number - 1].progress
    }

    /// The state of a node.
    pub fn state(&self, node: NodeId) -> &Pattern
        requires { IsNode (tree_view self.now) node.number }
        ensures { option_map (λ x. x.state) (node_at (tree_view self.now) node.number) ≡ Some (view result.now) }
    {
        &self.nodes[node.number - 1].state
    }

    /// Whether a node was reached by a terminal rule.
    pub fn flagged(&self, node: NodeId) -> bool
        requires { IsNode (tree_view self.now) node.number }
        ensures { option_map (λ x. x.flagged) (node_at (tree_view self.now) node.number) ≡ Some result }
    {
        self.nodes[node.number - 1].flagged
    }

    /// The node whose arc leads to this one.
    pub fn parent(&self, node: NodeId) -> Option<NodeId>
        requires { IsNode (tree_view self.now) node.number }
        ensures { option_map (λ x. x.parent) (node_at (tree_view self.now) node.number) ≡ Some (option_map (λ p. p.number) result) }
    {
        self.nodes[node.number - 1].parent
    }

    /// The arc of a node.
    pub fn arc(&self, node: NodeId) -> Option<&TreeArc>
        requires { IsNode (tree_view self.now) node.number }
        ensures { option_map (λ x. x.arc) (node_at (tree_view self.now) node.number) ≡ Some (option_map (λ a. arc_view a.now) result) }
    {
        self.nodes[node.number - 1].arc.as_ref()
    }

    /// Why a node is held.
    pub fn held(&self, node: NodeId) -> Option<&Why>
        requires { IsNode (tree_view self.now) node.number }
        ensures { option_map (λ x. x.held) (node_at (tree_view self.now) node.number) ≡ Some (option_map (λ w. why_view w.now) result) }
    {
        self.nodes[node.number - 1].held.as_ref()
    }

    /// An open node becomes a leaf that its arc tells about.
    fn close(&mut self, node: NodeId, arc: TreeArc, fails: bool) -> Result<(), TreeFault>
        requires leaf { (m : ℕ) → leads_to m (Some (arc_view arc)) ≡ false }
        requires still { (m : ℕ) → gives_progress m (Some (arc_view arc)) ≡ false }
        requires settles { is_settled (Some (arc_view arc)) ≡ true }
        requires fails { is_failed (Some (arc_view arc)) ≡ fails }
        ensures added { OnOk result (tree_view self.new ≡ with_arc node.number (arc_view arc) (tree_view self.old)) }
        ensures refused { (f : TreeFault) → arc_fault (tree_view self.old) node.number ≡ Some f → result ≡ Err f }
        ensures accepted { arc_fault (tree_view self.old) node.number ≡ None → IsOk result }
        ensures unchanged { OnErr result (tree_view self.new ≡ tree_view self.old) }
    {
        let place = open_place(&self.nodes, node)?;
        give_arc(&mut self.nodes, place, arc);
        self.unsettled -= 1;
        self.failed = either_failed(self.failed, fails);
        self.closed_before = next_open(&self.nodes, self.closed_before);
        Ok(())
    }
}
