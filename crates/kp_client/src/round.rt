ghost use Rattle.std.specs.Prelude.{◌≡◌, ◌<◌, ◌≤◌, IfOk, OnErr, IsErrOf, Some, false, length};
ghost use Rattle.kp_io.specs.Outside.{Rose};
ghost use Rattle.kp_kore.specs.ClaimView.{claim_view};
ghost use Rattle.kp_kore.specs.View.{view};
ghost use Rattle.kp_graph.specs.Tree.{most_nodes, cover, stuck, nodes, reply, with_arc, with_hold, with_edge};
ghost use Rattle.kp_graph.specs.TreeView.{tree_view};
ghost use Rattle.kp_client.specs.Answers.{BeginsRound, BeginsSteps, PlaysRound, PlaysSteps};
ghost use Rattle.kp_client.specs.Rounds.{least_open, goes_on, ends, failed_at, pending_at};
ghost use Rattle.kp_client.specs.View.{round_end};
ghost use Rattle.kp_client.specs.declared.outcome.ProveFault.TheVariants.{LinkFault};

use crate::cover::{CoverAnswer, ask_cover};
use crate::link::Link;
use crate::outcome::{ProofEnd, ProveFault};
use crate::steps::{StepAnswer, ask_steps};
use kp_graph::{MOST_NODES, NodeId, Tree, Why};
use kp_kore::{Claim, Pattern};
use std::alloc::Global;

/// An edge to a new node, unless there are as many as there may be: then the node is held.
fn grow(
    tree: &mut Tree,
    node: NodeId,
    depth: u64,
    state: Pattern,
) -> Result<Option<ProofEnd>, ProveFault>
    ensures grown { let tree' = tree_view tree.old in let tree'' = tree_view tree.new in length tree' < most_nodes → IfOk result (λ o. round_end tree'' o ≡ goes_on (with_edge node.number depth (view state) false tree')) }
    ensures too_many { let tree' = tree_view tree.old in let tree'' = tree_view tree.new in most_nodes ≤ length tree' → IfOk result (λ o. round_end tree'' o ≡ ends (with_hold node.number nodes tree') (pending_at node.number nodes)) }
    ensures fault { IsErrOf result LinkFault → ⊥ }
{
    if tree.len() < MOST_NODES {
        tree.edge(node, depth, state, false)?;
        return Ok(None);
    }
    tree.hold(node, Why::Nodes)?;
    Ok(Some(ProofEnd::Pending {
        node,
        why: Why::Nodes,
    }))
}

/// The tree where a node is held by a line.
fn hold_by(tree: &mut Tree, node: NodeId, line: Vec<u8>) -> Result<Option<ProofEnd>, ProveFault>
    ensures held { IfOk result (λ o. round_end (tree_view tree.new) o ≡ goes_on (with_hold node.number (reply line.items) (tree_view tree.old))) }
    ensures fault { IsErrOf result LinkFault → ⊥ }
{
    tree.hold(node, Why::Held(line))?;
    Ok(None)
}

/// The tree where a node is stuck: the proof fails there.
fn fail_at(tree: &mut Tree, node: NodeId) -> Result<Option<ProofEnd>, ProveFault>
    ensures fails { IfOk result (λ o. round_end (tree_view tree.new) o ≡ ends (with_arc node.number stuck (tree_view tree.old)) (failed_at node.number)) }
    ensures fault { IsErrOf result LinkFault → ⊥ }
{
    tree.stuck(node)?;
    Ok(Some(ProofEnd::Failed { node }))
}

/// The tree where a node is covered.
fn cover_at(tree: &mut Tree, node: NodeId) -> Result<Option<ProofEnd>, ProveFault>
    ensures covers { IfOk result (λ o. round_end (tree_view tree.new) o ≡ goes_on (with_arc node.number cover (tree_view tree.old))) }
    ensures fault { IsErrOf result LinkFault → ⊥ }
{
    tree.cover(node)?;
    Ok(None)
}

/// Asks for the next steps of an open node, and has the tree say so.
fn play_steps<L: Link>(
    alloc: Global,
    link: &mut L,
    id: u64,
    max_depth: u64,
    tree: &mut Tree,
    node: NodeId,
) -> Result<Option<ProofEnd>, ProveFault>
    requires least { least_open (tree_view tree.old) ≡ Some node.number }
    ensures plays { let tree' = tree_view tree.old in IfOk result (λ o. PlaysSteps (L.told link.old) (L.told link.new) max_depth tree' node.number (round_end (tree_view tree.new) o)) }
    ensures broken { OnErr result (BeginsSteps (L.told link.old) (L.told link.new) max_depth (tree_view tree.old) node.number) }
    ensures link_fault { IsErrOf result LinkFault → Rose (L.told link.old).faults (L.told link.new).faults }
{
    match ask_steps(alloc, link, id, max_depth, tree.state(node))? {
        StepAnswer::Stepped(depth, state) => grow(tree, node, depth, state),
        StepAnswer::Stuck => fail_at(tree, node),
        StepAnswer::Held(line) => hold_by(tree, node, line),
        StepAnswer::Refused(code) => Ok(Some(ProofEnd::Refused { code })),
    }
}

/// A round of an open node: asks whether it is covered, else for its next steps, and has the tree say so.
pub fn play_round<L: Link>(
    alloc: Global,
    link: &mut L,
    id: u64,
    claim: &Claim,
    max_depth: u64,
    tree: &mut Tree,
    node: NodeId,
) -> Result<Option<ProofEnd>, ProveFault>
    requires least { least_open (tree_view tree.old) ≡ Some node.number }
    requires id { id < 10000 }
    ensures plays { let claim' = claim_view claim.now in let tree' = tree_view tree.old in IfOk result (λ o. PlaysRound (L.told link.old) (L.told link.new) claim' max_depth tree' node.number (round_end (tree_view tree.new) o)) }
    ensures broken { OnErr result (BeginsRound (L.told link.old) (L.told link.new) (claim_view claim.now) max_depth (tree_view tree.old) node.number) }
    ensures link_fault { IsErrOf result LinkFault → Rose (L.told link.old).faults (L.told link.new).faults }
{
    match ask_cover(alloc, link, id, claim, tree.state(node))? {
        CoverAnswer::Covered => cover_at(tree, node),
        CoverAnswer::Uncovered => play_steps(alloc, link, id + 1, max_depth, tree, node),
        CoverAnswer::Undecided(line) => hold_by(tree, node, line),
        CoverAnswer::Refused(code) => Ok(Some(ProofEnd::Refused { code })),
    }
}
