// Whether two skeletons stand for one value, and whether a left side meets a state's term.
ghost use Rattle.std.specs.Prelude.{◌≡◌, ◌↔◌, ℕ, IfOk, IsTrue};
ghost use Rattle.kp_kore.specs.View.{sort_view};
ghost use Rattle.kp_signature.specs.View.{signature_view};
ghost use Rattle.kp_heads.specs.Made.{IsHeadTableOf};
ghost use Rattle.kp_symbolic.specs.View.{term_view};
ghost use Rattle.kp_rules.specs.Skeletons.{skeleton_view};
ghost use Rattle.kp_overlap.specs.Graphs.{HasSolution};
ghost use Rattle.kp_overlap.specs.Held.{TellsHolders};
ghost use Rattle.kp_overlap.specs.Labels.{IsGraph, AreLabels, AreSettled, AreHolders};
ghost use Rattle.kp_overlap.specs.Overlaps.{Overlap, MeetsForm};
ghost use Rattle.kp_overlap.specs.Solved.{is_ranked};
ghost use Rattle.kp_overlap.specs.Views.{graph_view};

use crate::graph::Graph;
use crate::label_holders::{Holders, find_holders};
use crate::labels::{are_settled, labels};
use crate::ranks::{Ranks, find_ranks};
use crate::sorts::sorts_fit;
use crate::terms::term_skeleton;
use crate::value_places::place_both;
use kp_heads::HeadTable;
use kp_kore::Sort;
use kp_rules::Skeleton;
use kp_signature::Signature;
use kp_symbolic::Term;
use std::alloc::{AllocError, Global};

/// Whether ranks were found.
fn are_ranked(ranks: &Ranks) -> bool
    ensures { result ≡ is_ranked ranks.now }
{
    match ranks {
        Ranks::Circle => false,
        Ranks::Ranked { .. } => true,
    }
}

/// Whether the graph has a solution, where labels and their holders are found.
fn is_solved(
    alloc: Global,
    table: &HeadTable,
    signature: &Signature,
    graph: &Graph,
    labels: &[usize],
    holders: &[Option<usize>],
) -> Result<bool, AllocError>
    requires { IsHeadTableOf (signature_view signature.now) table.now }
    ensures { let g = signature_view signature.now in let x = graph_view graph.now in let ls = labels.now in
        (i j : ℕ) → IsGraph g x → AreLabels g x i j ls → AreSettled ls i j → AreHolders x ls holders.now → IfOk result (λ b. IsTrue b ↔ HasSolution g x i j) }
{
    if !sorts_fit(alloc, table, signature, graph, labels, holders)? {
        return Ok(false);
    }
    let ranks = find_ranks(alloc, &graph.shapes, labels, holders)?;
    Ok(are_ranked(&ranks))
}

/// The same, where there are holders.
fn is_held(
    alloc: Global,
    table: &HeadTable,
    signature: &Signature,
    graph: &Graph,
    labels: &[usize],
    holders: &Holders,
) -> Result<bool, AllocError>
    requires { IsHeadTableOf (signature_view signature.now) table.now }
    ensures { let g = signature_view signature.now in let x = graph_view graph.now in let ls = labels.now in
        (i j : ℕ) → IsGraph g x → AreLabels g x i j ls → AreSettled ls i j → TellsHolders g x i j ls holders.now → IfOk result (λ b. IsTrue b ↔ HasSolution g x i j) }
{
    match holders {
        Holders::Clash => Ok(false),
        Holders::Held { holders } => is_solved(alloc, table, signature, graph, labels, holders),
    }
}

/// The same, where labels are found. Labels that tell nothing aren't made: want of memory is told.
fn is_labelled(
    alloc: Global,
    table: &HeadTable,
    signature: &Signature,
    graph: &Graph,
    labels: &[usize],
    first: usize,
    second: usize,
) -> Result<bool, AllocError>
    requires { IsHeadTableOf (signature_view signature.now) table.now }
    ensures { let g = signature_view signature.now in let x = graph_view graph.now in IsGraph g x → AreLabels g x first second labels.now → IfOk result (λ b. IsTrue b ↔ HasSolution g x first second) }
{
    if !are_settled(labels, first, second) {
        return Err(AllocError);
    }
    let holders = find_holders(alloc, &graph.shapes, labels)?;
    is_held(alloc, table, signature, graph, labels, &holders)
}

/// Whether the graph has a solution in which these two places have one value.
fn has_solution(
    alloc: Global,
    table: &HeadTable,
    signature: &Signature,
    graph: &Graph,
    first: usize,
    second: usize,
) -> Result<bool, AllocError>
    requires { IsHeadTableOf (signature_view signature.now) table.now }
    ensures { let g = signature_view signature.now in let x = graph_view graph.now in IsGraph g x → IfOk result (λ b. IsTrue b ↔ HasSolution g x first second) }
{
    let labels = labels(alloc, &graph.shapes, first, second)?;
    is_labelled(alloc, table, signature, graph, &labels, first, second)
}

/// Whether some value of the sort may stand for both skeletons, each with variables of its own.
pub fn overlap(
    alloc: Global,
    table: &HeadTable,
    signature: &Signature,
    sort: &Sort,
    first: &Skeleton,
    second: &Skeleton,
) -> Result<bool, AllocError>
    requires { IsHeadTableOf (signature_view signature.now) table.now }
    ensures { let g = signature_view signature.now in IfOk result (λ b. IsTrue b ↔ Overlap g (sort_view sort.now) (skeleton_view first.now) (skeleton_view second.now)) }
{
    let placed = place_both(alloc, signature, sort, first, second)?;
    has_solution(
        alloc,
        table,
        signature,
        &placed.graph,
        placed.first,
        placed.second,
    )
}

/// Whether some value of the sort is an instance of the term, each call standing for any value of its sort, and of the left side.
pub fn meets(
    alloc: Global,
    table: &HeadTable,
    signature: &Signature,
    sort: &Sort,
    term: &Term,
    left: &Skeleton,
) -> Result<bool, AllocError>
    requires { IsHeadTableOf (signature_view signature.now) table.now }
    ensures { let g = signature_view signature.now in IfOk result (λ b. IsTrue b ↔ MeetsForm g (sort_view sort.now) (term_view term.now) (skeleton_view left.now)) }
{
    let term = term_skeleton(alloc, signature, term)?;
    overlap(alloc, table, signature, sort, &term, left)
}
