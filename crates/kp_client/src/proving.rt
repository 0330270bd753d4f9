ghost use Rattle.std.specs.Prelude.{◌≡◌, ◌<◌, ℕ, [], Some, None, IfOk, OnErr, IsErrOf, length, option_map, slice_get};
ghost use Rattle.kp_io.specs.Outside.{Rose};
ghost use Rattle.kp_kore.specs.Parts.{free_variables};
ghost use Rattle.kp_kore.specs.Claims.{Holds};
ghost use Rattle.kp_kore.specs.ClaimView.{claim_view};
ghost use Rattle.kp_claim_sentences.specs.Claims.{StatedClaim};
ghost use Rattle.kp_claim_sentences.specs.Items.{items_view};
ghost use Rattle.kp_graph.specs.Tree.{IsTree, node_at, with_hold, rounds, status_of};
ghost use Rattle.kp_graph.specs.Says.{TreeSays};
ghost use Rattle.kp_graph.specs.TreeView.{tree_view};
ghost use Rattle.kp_graph.specs.declared.status.Status.TheVariants.{Passed};
ghost use Rattle.kp_client.specs.Answers.{IsEnding, IsProved, Made};
ghost use Rattle.kp_client.specs.Links.{Serves, ToldTheory};
ghost use Rattle.kp_client.specs.Rounds.{BreaksOff, least_open, passed, failed_at, pending_at};
ghost use Rattle.kp_client.specs.Sound.{IsGround, IsStuckAt};
ghost use Rattle.kp_client.specs.View.{outcome_view};
ghost use Rattle.kp_client.specs.declared.outcome.ProveFault.TheVariants.{LinkFault};

use crate::ending::ending;
use crate::link::Link;
use crate::outcome::{ProofEnd, ProveFault, ProveOptions};
use crate::round::play_round;
use kp_claim_sentences::FiledClaim;
use kp_graph::{Tree, Why};
use kp_kore::Claim;
use std::alloc::Global;

/// A proof has at most so many rounds.
const MOST_ROUNDS: u64 = 1000;

/// The outcome of a proof, and its tree.
type Proof = (ProofEnd, Tree);

/// The end of a proof without an open node.
fn end_settled(alloc: Global, tree: Tree) -> Result<Proof, ProveFault>
    ensures ending { IfOk result (λ r. IsEnding (tree_view tree) (outcome_view r.0)) }
    ensures kept { IfOk result (λ r. tree_view r.1 ≡ tree_view tree) }
    ensures fault { IsErrOf result LinkFault → ⊥ }
{
    let outcome = ending(alloc, &tree)?;
    Ok((outcome, tree))
}

/// The end of a proof after the last round that may be.
fn end_of_rounds(alloc: Global, mut tree: Tree) -> Result<Proof, ProveFault>
    ensures open { (n : ℕ) → let tree' = tree_view tree in least_open tree' ≡ Some n → IfOk result (λ r. (tree_view r.1 ≡ with_hold n rounds tree') × (outcome_view r.0 ≡ pending_at n rounds)) }
    ensures settled { least_open (tree_view tree) ≡ None → IfOk result (λ r. (tree_view r.1 ≡ tree_view tree) × IsEnding (tree_view tree) (outcome_view r.0)) }
    ensures fault { IsErrOf result LinkFault → ⊥ }
{
    match tree.first_open() {
        Some(node) => {
            tree.hold(node, Why::Rounds)?;
            Ok((
                ProofEnd::Pending {
                    node,
                    why: Why::Rounds,
                },
                tree,
            ))
        }
        None => end_settled(alloc, tree),
    }
}

/// Plays the rounds of a claim's proof to its end.
fn play_rounds<L: Link>(
    alloc: Global,
    link: &mut L,
    claim: &Claim,
    max_depth: u64,
) -> Result<Proof, ProveFault>
    ensures proved { IfOk result (λ r. IsProved (L.told link.old) (L.told link.new) (claim_view claim.now) max_depth (tree_view r.1) (outcome_view r.0)) }
    ensures broken { OnErr result (Made (L.told link.old) (L.told link.new) (BreaksOff (claim_view claim.now) max_depth)) }
    ensures link_fault { IsErrOf result LinkFault → Rose (L.told link.old).faults (L.told link.new).faults }
{
    let mut tree = Tree::new(alloc, claim)?;
    for round in 0..MOST_ROUNDS {
        let Some(node) = tree.first_open() else {
            return end_settled(alloc, tree);
        };
        let id = 2 * round + 1;
        match play_round(alloc, link, id, claim, max_depth, &mut tree, node)? {
            Some(outcome) => return Ok((outcome, tree)),
            None => {}
        }
    }
    end_of_rounds(alloc, tree)
}

/// Proves a claim over a link, by rounds of questions, each of the open node of the least number: whether its state is
/// one of the claim's right side, and else where the next steps lead.
///
/// # Errors
/// Where the link fails, or memory runs out.
pub fn prove_claim<L: Link>(
    alloc: Global,
    link: &mut L,
    claim: &Claim,
    options: &ProveOptions,
) -> Result<(ProofEnd, Tree), ProveFault>
    // the tree, the outcome and the exchanges are what the rounds make of the replies
    ensures proved { let claim' = claim_view claim.now in IfOk result (λ r. IsProved (L.told link.old) (L.told link.new) claim' options.now.max_depth (tree_view r.1) (outcome_view r.0)) }
    ensures shape { IfOk result (λ r. IsTree (tree_view r.1)) }
    ensures first { IfOk result (λ r. option_map (λ x. x.state) (node_at (tree_view r.1) 1) ≡ Some (claim_view claim.now).left) }
    ensures status { IfOk result (λ r. outcome_view r.0 ≡ passed → status_of (tree_view r.1) ≡ Passed) }
    // where the link serves a theory
    ensures says { (t : ToldTheory) → let claim' = claim_view claim.now in Serves (L.told link.old) t → free_variables claim'.right ≡ [] → IfOk result (λ r. TreeSays t.theory [] [] claim' (tree_view r.1)) }
    ensures holds { (t : ToldTheory) → let claim' = claim_view claim.now in Serves (L.told link.old) t → IsGround claim' → IfOk result (λ r. outcome_view r.0 ≡ passed → Holds t.theory claim') }
    ensures stuck { (t : ToldTheory) (n : ℕ) → let claim' = claim_view claim.now in Serves (L.told link.old) t → IfOk result (λ r. outcome_view r.0 ≡ failed_at n → IsStuckAt t.theory claim' (tree_view r.1) n) }
    // where it breaks off, the exchanges are those of some rounds and the first ones of the next
    ensures broken { OnErr result (Made (L.told link.old) (L.told link.new) (BreaksOff (claim_view claim.now) options.now.max_depth)) }
    ensures link_fault { IsErrOf result LinkFault → Rose (L.told link.old).faults (L.told link.new).faults }
{
    Ok(play_rounds(alloc, link, claim, options.max_depth)?)
}

/// Proves the claim at a place of a claims file's list over a link, from nothing.
///
/// # Errors
/// Where the link fails, or memory runs out.
pub fn prove<L: Link>(
    alloc: Global,
    link: &mut L,
    claims: &[FiledClaim],
    place: usize,
    options: &ProveOptions,
) -> Result<(ProofEnd, Tree), ProveFault>
    requires place { place < length claims.now }
    // of the claim at that place, as of each claim that is proved
    ensures proved { (i : StatedClaim) → let claims' = items_view claims.now in slice_get claims' place ≡ Some i → IfOk result (λ r. IsProved (L.told link.old) (L.told link.new) i.claim.claim options.now.max_depth (tree_view r.1) (outcome_view r.0)) }
    ensures shape { IfOk result (λ r. IsTree (tree_view r.1)) }
    ensures first { (i : StatedClaim) → let claims' = items_view claims.now in slice_get claims' place ≡ Some i → IfOk result (λ r. option_map (λ x. x.state) (node_at (tree_view r.1) 1) ≡ Some i.claim.claim.left) }
    ensures status { IfOk result (λ r. outcome_view r.0 ≡ passed → status_of (tree_view r.1) ≡ Passed) }
    ensures says { (i : StatedClaim) (t : ToldTheory) → let claims' = items_view claims.now in slice_get claims' place ≡ Some i → Serves (L.told link.old) t → free_variables i.claim.claim.right ≡ [] → IfOk result (λ r. TreeSays t.theory [] [] i.claim.claim (tree_view r.1)) }
    ensures holds { (i : StatedClaim) (t : ToldTheory) → let claims' = items_view claims.now in slice_get claims' place ≡ Some i → Serves (L.told link.old) t → IsGround i.claim.claim → IfOk result (λ r. outcome_view r.0 ≡ passed → Holds t.theory i.claim.claim) }
    ensures stuck { (i : StatedClaim) (t : ToldTheory) (n : ℕ) → let claims' = items_view claims.now in slice_get claims' place ≡ Some i → Serves (L.told link.old) t → IfOk result (λ r. outcome_view r.0 ≡ failed_at n → IsStuckAt t.theory i.claim.claim (tree_view r.1) n) }
    ensures broken { (i : StatedClaim) → let claims' = items_view claims.now in slice_get claims' place ≡ Some i → OnErr result (Made (L.told link.old) (L.told link.new) (BreaksOff i.claim.claim options.now.max_depth)) }
    ensures link_fault { IsErrOf result LinkFault → Rose (L.told link.old).faults (L.told link.new).faults }
{
    let item = &claims[place];
    prove_claim(alloc, link, &item.claim, options)
}
