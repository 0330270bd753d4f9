// Sets of numbers as spans.
ghost use Rattle.std.specs.Prelude.{◌+◌, ◌↔◌, ◌⊎◌, ◌≡◌, ◌≤◌, ℕ, IfOk, OnOk, IsTrue, drop};
ghost use Rattle.std.specs.List.{Contains};
ghost use Rattle.kp_signature.specs.Spans.{Holds, IsWithin};

use std::alloc::{AllocError, Global};

/// The numbers from the first to the last, both included.
#[derive(Clone, Copy)]
pub struct Span {
    pub first: usize,
    pub last: usize,
}

/// Whether the number stands in the span.
fn holds(span: Span, number: usize) -> bool
    ensures { IsTrue result ↔ Holds span number }
{
    span.first <= number && number <= span.last
}

/// Whether the number stands in one of the spans.
pub fn is_within(spans: &[Span], number: usize) -> bool
    ensures { IsTrue result ↔ IsWithin spans.now number }
{
    for span in spans {
        if holds(*span, number) {
            return true;
        }
    }
    false
}

/// Whether the second span begins in the first or right behind it.
fn joins(first: Span, second: Span) -> bool
    ensures { IsTrue result → (first.first ≤ second.first) × (second.first ≤ first.last + 1) }
{
    if second.first < first.first {
        return false;
    }
    second.first <= first.last || second.first - 1 == first.last
}

/// The span of both, where the second joins the first.
fn joined(first: Span, second: Span) -> Span
    ensures { (first.first ≤ second.first) → (second.first ≤ first.last + 1) → (j : ℕ) → Holds result j ↔ (Holds first j ⊎ Holds second j) }
{
    if first.last < second.last {
        Span {
            first: first.first,
            last: second.last,
        }
    } else {
        first
    }
}

/// Adds a span; one that joins the last one makes that longer.
pub fn add_span(spans: &mut Vec<Span>, span: Span) -> Result<(), AllocError>
    ensures { OnOk result ((j : ℕ) → IsWithin spans.new.items j ↔ (IsWithin spans.old.items j ⊎ Holds span j)) }
{
    match spans.pop() {
        Some(last) => add_behind(spans, last, span),
        None => Ok(spans.push(span)?),
    }
}

/// Adds two spans, as one where they join.
fn add_behind(spans: &mut Vec<Span>, last: Span, span: Span) -> Result<(), AllocError>
    ensures { OnOk result ((j : ℕ) → IsWithin spans.new.items j ↔ (IsWithin spans.old.items j ⊎ (Holds last j ⊎ Holds span j))) }
{
    if joins(last, span) {
        return Ok(spans.push(joined(last, span))?);
    }
    spans.push(last)?;
    Ok(spans.push(span)?)
}

/// Adds the spans in their order.
fn add_spans(spans: &mut Vec<Span>, more: &[Span]) -> Result<(), AllocError>
    ensures { OnOk result ((j : ℕ) → IsWithin spans.new.items j ↔ (IsWithin spans.old.items j ⊎ IsWithin more.now j)) }
{
    for span in more {
        add_span(spans, *span)?;
    }
    Ok(())
}

/// Adds the spans from a place on that begin before a number. Gives the place of the first that isn't added.
fn add_before(
    spans: &mut Vec<Span>,
    more: &[Span],
    from: usize,
    limit: usize,
) -> Result<usize, AllocError>
    ensures { IfOk result (λ n. (j : ℕ) → (IsWithin spans.new.items j ⊎ IsWithin (drop n more.now) j) ↔ (IsWithin spans.old.items j ⊎ IsWithin (drop from more.now) j)) }
{
    for i in from..more.len() {
        if more[i].first >= limit {
            return Ok(i);
        }
        add_span(spans, more[i])?;
    }
    Ok(more.len())
}

/// Adds the spans from a place on.
fn add_rest(spans: &mut Vec<Span>, more: &[Span], from: usize) -> Result<(), AllocError>
    ensures { OnOk result ((j : ℕ) → IsWithin spans.new.items j ↔ (IsWithin spans.old.items j ⊎ IsWithin (drop from more.now) j)) }
{
    for i in from..more.len() {
        add_span(spans, more[i])?;
    }
    Ok(())
}

/// The spans of both lists, in order where each of the lists is.
fn merged(alloc: Global, left: &[Span], right: &[Span]) -> Result<Vec<Span>, AllocError>
    ensures { IfOk result (λ all. (j : ℕ) → IsWithin all.items j ↔ (IsWithin left.now j ⊎ IsWithin right.now j)) }
{
    let mut all = Vec::new(alloc);
    let mut next: usize = 0;
    for span in right {
        next = add_before(&mut all, left, next, span.first)?;
        add_span(&mut all, *span)?;
    }
    add_rest(&mut all, left, next)?;
    Ok(all)
}

/// Whether all of the second spans begin behind those of the first, where both are in order.
fn stands_behind(spans: &[Span], more: &[Span]) -> bool {
    if spans.is_empty() || more.is_empty() {
        return true;
    }
    spans[spans.len() - 1].first <= more[0].first
}

/// The spans of both, in order where each of them is.
pub fn with_spans(alloc: Global, spans: Vec<Span>, more: &[Span]) -> Result<Vec<Span>, AllocError>
    ensures { IfOk result (λ all. (j : ℕ) → IsWithin all.items j ↔ (IsWithin spans.items j ⊎ IsWithin more.now j)) }
{
    if !stands_behind(&spans, more) {
        return Ok(merged(alloc, &spans, more)?);
    }
    let mut all = spans;
    add_spans(&mut all, more)?;
    Ok(all)
}

/// The numbers as spans.
pub fn spans_among(alloc: Global, numbers: &[usize]) -> Result<Vec<Span>, AllocError>
    ensures { IfOk result (λ spans. (j : ℕ) → IsWithin spans.items j ↔ Contains numbers.now j) }
{
    let mut spans = Vec::new(alloc);
    for number in numbers {
        add_number(&mut spans, *number)?;
    }
    Ok(spans)
}

/// Adds a number.
pub fn add_number(spans: &mut Vec<Span>, number: usize) -> Result<(), AllocError>
    ensures { OnOk result ((j : ℕ) → IsWithin spans.new.items j ↔ (IsWithin spans.old.items j ⊎ (number ≡ j))) }
{
    add_span(
        spans,
        Span {
            first: number,
            last: number,
        },
    )
}
