// Which sorts lie below which.
ghost use Rattle.std.specs.Prelude.{◌≡◌, ◌↔◌, ◌<◌, [], IfOk, IsTrue, List, ℕ, length, map};
ghost use Rattle.kp_kore.specs.Syntax.{KoreSort};
ghost use Rattle.kp_kore.specs.Signature.{IsBelow};
ghost use Rattle.kp_kore.specs.View.{sort_view};
ghost use Rattle.kp_signature.specs.Order.{IsGraphOf, IsOrderOf, Under, sorts_of};
ghost use Rattle.kp_signature.specs.Numbering.{TellsNumber};
ghost use Rattle.kp_signature.specs.Pairs.{subsort_view};

use crate::closures::closures;
use crate::graph::SortGraph;
use crate::ranking::ranking;
use crate::spans::{Span, is_within};
use crate::subsort::Subsort;
use kp_kore::Sort;
use std::alloc::{AllocError, Global};

/// The sorts that subsort pairs name, by number, and of each the numbers of all sorts below it as spans. The numbers go
/// upwards through a tree, so that one span is enough where the sorts are a tree, with pairs that follow from others or
/// without them. Where sorts have several sorts directly above them there may be more; a question takes as many steps
/// as the upper sort has spans.
#[derive(Drop)]
pub struct SortOrder {
    pub graph: SortGraph,
    pub spans: Vec<Vec<Span>>,
}

/// The sorts of the pairs, numbered in the order of `ranking`, with the pairs.
fn ranked_graph(alloc: Global, pairs: &[Subsort]) -> Result<SortGraph, AllocError>
    ensures { IfOk result (IsGraphOf (map subsort_view pairs.now)) }
{
    let mut found = SortGraph::empty(alloc);
    found.add_pairs(alloc, pairs)?;
    let places = ranking(alloc, &found.above)?;
    let mut graph = SortGraph::empty(alloc);
    graph.add_sorts(alloc, &found.numbering.sorts, &places)?;
    graph.add_pairs(alloc, pairs)?;
    Ok(graph)
}

impl SortOrder {
    /// The order that the pairs make.
    pub fn new(alloc: Global, pairs: &[Subsort]) -> Result<SortOrder, AllocError>
        ensures { IfOk result (IsOrderOf (map subsort_view pairs.now)) }
    {
        let graph = ranked_graph(alloc, pairs)?;
        let spans = closures(alloc, &graph.below)?;
        Ok(SortOrder { graph, spans })
    }

    /// The number of a sort that some pair names.
    pub fn number_of(&self, sort: &Sort) -> Option<usize>
        ensures { (pairs : List (KoreSort × KoreSort)) → IsOrderOf pairs self.now → TellsNumber (sorts_of self.now.graph) (sort_view sort.now) result }
    {
        self.graph.numbering.number_of(sort)
    }

    /// Whether the second number is the first or lies below it.
    pub fn is_under(&self, upper: usize, lower: usize) -> bool
        ensures { (pairs : List (KoreSort × KoreSort)) → IsOrderOf pairs self.now → upper < length (sorts_of self.now.graph) → IsTrue result ↔ Under self.now.graph upper lower }
    {
        if upper < self.spans.len() {
            return is_within(&self.spans[upper], lower);
        }
        false
    }

    /// Whether a sort is another or lies below it.
    pub fn is_below(&self, lower: &Sort, upper: &Sort) -> bool
        ensures { (pairs : List (KoreSort × KoreSort)) → IsOrderOf pairs self.now → IsTrue result ↔ IsBelow pairs (sort_view lower.now) (sort_view upper.now) }
    {
        if lower.equal(upper) {
            return true;
        }
        let Some(from) = self.number_of(lower) else {
            return false;
        };
        let Some(to) = self.number_of(upper) else {
            return false;
        };
        self.is_under(to, from)
    }
}
