// What is reached from each number over edges, as spans.
ghost use Rattle.std.specs.Prelude.{◌≡◌, ◌↔◌, ◌⊎◌, ◌<◌, ℕ, [], IfOk, IsTrue, get_or, length};
ghost use Rattle.std.specs.List.{Contains};
ghost use Rattle.kp_signature.specs.Edges.{Reaches, edges_of};
ghost use Rattle.kp_signature.specs.Spans.{IsSpread, IsWithin, spans_of};

use crate::edges::reached_from;
use crate::spans::{Span, add_number, spans_among, with_spans};
use std::alloc::{AllocError, Global};

/// Of each number the spans of all that is reached from it. Where each number stands behind those that it leads to, as
/// far as edges don't go round, this takes one join of lists of spans for each edge, and one search for each number
/// that leads to itself or to a later one.
pub fn closures(alloc: Global, edges: &[Vec<usize>]) -> Result<Vec<Vec<Span>>, AllocError>
    ensures length { IfOk result (λ spans. length spans.items ≡ length edges.now) }
    ensures spread { IfOk result (λ spans. IsSpread (edges_of edges.now) spans.items) }
{
    let mut spans = Vec::new(alloc);
    for number in 0..edges.len() {
        let own = closure_of(alloc, edges, &edges[number], &spans, number)?;
        spans.push(own)?;
    }
    Ok(spans)
}

/// The spans of what is reached from a number that leads to these numbers.
fn closure_of(
    alloc: Global,
    edges: &[Vec<usize>],
    next: &[usize],
    spans: &[Vec<Span>],
    number: usize,
) -> Result<Vec<Span>, AllocError>
    ensures { let edges' = edges_of edges.now in IsSpread edges' spans.now → next.now ≡ get_or edges' number [] → IfOk result (λ own. (j : ℕ) → IsWithin own.items j ↔ Reaches edges' number j) }
{
    if !are_below(next, spans.len()) {
        return Ok(searched(alloc, edges, number)?);
    }
    let ascending = ascending(alloc, next)?;
    let mut own = spans_of_all(alloc, spans, &ascending)?;
    add_number(&mut own, number)?;
    Ok(own)
}

/// The numbers, the smallest first.
fn ascending(alloc: Global, numbers: &[usize]) -> Result<Vec<usize>, AllocError>
    ensures { IfOk result (λ all. (i : ℕ) → Contains all.items i ↔ Contains numbers.now i) }
{
    let mut all = numbers.to_vec(alloc)?;
    all.sort_unstable();
    Ok(all)
}

/// The spans of what a search from the number finds.
fn searched(alloc: Global, edges: &[Vec<usize>], number: usize) -> Result<Vec<Span>, AllocError>
    ensures { IfOk result (λ own. (j : ℕ) → IsWithin own.items j ↔ Reaches (edges_of edges.now) number j) }
{
    let found = reached_from(alloc, edges, number)?;
    Ok(spans_among(alloc, found.as_slice())?)
}

/// Whether all numbers are smaller than another.
fn are_below(numbers: &[usize], limit: usize) -> bool
    ensures { IsTrue result → (i : ℕ) → Contains numbers.now i → i < limit }
{
    for number in numbers {
        if *number >= limit {
            return false;
        }
    }
    true
}

/// The spans of each of these numbers.
fn spans_of_all(
    alloc: Global,
    spans: &[Vec<Span>],
    numbers: &[usize],
) -> Result<Vec<Span>, AllocError>
    ensures { IfOk result (λ all. (j : ℕ) → IsWithin all.items j ↔ ((i : ℕ) × Contains numbers.now i × IsWithin (get_or (spans_of spans.now) i []) j)) }
{
    let mut all = Vec::new(alloc);
    for number in numbers {
        all = with_spans_of(alloc, all, spans, *number)?;
    }
    Ok(all)
}

/// Adds the spans of a number.
fn with_spans_of(
    alloc: Global,
    all: Vec<Span>,
    spans: &[Vec<Span>],
    number: usize,
) -> Result<Vec<Span>, AllocError>
    ensures { IfOk result (λ more. (j : ℕ) → IsWithin more.items j ↔ (IsWithin all.items j ⊎ IsWithin (get_or (spans_of spans.now) number []) j)) }
{
    if number < spans.len() {
        return Ok(with_spans(alloc, all, &spans[number])?);
    }
    Ok(all)
}
