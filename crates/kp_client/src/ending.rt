ghost use Rattle.std.specs.Prelude.{◌≡◌, IfOk, IfSome, IfNone};
ghost use Rattle.kp_graph.specs.View.{why_view};
ghost use Rattle.kp_graph.specs.TreeView.{tree_view};
ghost use Rattle.kp_client.specs.Answers.{IsEnding};
ghost use Rattle.kp_client.specs.Rounds.{IsNoneHeld, IsFirstHeld};
ghost use Rattle.kp_client.specs.View.{outcome_view};

use crate::outcome::ProofEnd;
use kp_graph::{NodeId, Tree, Why};
use std::alloc::{AllocError, Global};

/// Why a node is held, once more.
fn copy_why(alloc: Global, why: &Why) -> Result<Why, AllocError>
    ensures { IfOk result (λ w. why_view w ≡ why_view why.now) }
{
    match why {
        Why::Held(line) => Ok(Why::Held(line.to_vec(alloc)?)),
        Why::Rounds => Ok(Why::Rounds),
        Why::Nodes => Ok(Why::Nodes),
    }
}

/// The held node of the least number, and why it is.
fn first_held(alloc: Global, tree: &Tree) -> Result<Option<(NodeId, Why)>, AllocError>
    ensures found { IfOk result (λ o. IfSome o (λ h. IsFirstHeld (tree_view tree.now) h.0.number (why_view h.1))) }
    ensures none { IfOk result (λ o. IfNone o (IsNoneHeld (tree_view tree.now))) }
{
    for number in 1..tree.len() + 1 {
        let node = NodeId { number };
        if let Some(why) = tree.held(node) {
            return Ok(Some((node, copy_why(alloc, why)?)));
        }
    }
    Ok(None)
}

/// The outcome of a proof that has no open node: pending where a node is held, else passed.
pub fn ending(alloc: Global, tree: &Tree) -> Result<ProofEnd, AllocError>
    ensures { IfOk result (λ o. IsEnding (tree_view tree.now) (outcome_view o)) }
{
    match first_held(alloc, tree)? {
        Some((node, why)) => Ok(ProofEnd::Pending { node, why }),
        None => Ok(ProofEnd::Passed),
    }
}
