// Sorts that share lower sorts with comparable ones alone. Such a sort splits by heads under each other.
ghost use Rattle.std.specs.Prelude.{◌≡◌, ◌<◌, [], ℕ, IfOk, IsTrue, List, false, get_or, length};
ghost use Rattle.std.specs.List.{Contains};
ghost use Rattle.kp_kore.specs.Syntax.{KoreSort};
ghost use Rattle.kp_signature.specs.Edges.{edges_of};
ghost use Rattle.kp_signature.specs.Order.{IsOrderOf, Under, sorts_of};
ghost use Rattle.kp_rules.specs.Index.{AreStraightBy, IsAlone, IsNarrow, MarksOnly};

use kp_signature::order::SortOrder;
use std::alloc::{AllocError, Global};

/// Marks numbers whose sorts are alone: below them each sort has one directly above it that lies below the others
/// directly above it. Where sorts are a tree, with pairs that follow from others or without them, all are marked.
pub fn alone_marks(alloc: Global, order: &SortOrder) -> Result<Vec<bool>, AllocError>
    ensures { (pairs : List (KoreSort × KoreSort)) → IsOrderOf pairs order.now → IfOk result (λ marks. MarksOnly (IsAlone order.now.graph) marks.items) }
{
    let narrow = narrow_marks(alloc, order)?;
    Ok(straight_marks(alloc, &order.graph.below, &narrow)?)
}

/// Whether the number is marked.
fn is_marked(marks: &[bool], number: usize) -> bool
    ensures marked { IsTrue result → IsTrue (get_or marks.now number false) }
    ensures among { IsTrue result → number < length marks.now }
{
    if number < marks.len() {
        return marks[number];
    }
    false
}

/// Marks the numbers that have one directly above them that lies below all that are directly above them.
fn narrow_marks(alloc: Global, order: &SortOrder) -> Result<Vec<bool>, AllocError>
    ensures { (pairs : List (KoreSort × KoreSort)) → IsOrderOf pairs order.now → IfOk result (λ marks. MarksOnly (IsNarrow order.now.graph) marks.items) }
{
    let mut marks = Vec::new(alloc);
    for number in 0..order.graph.above.len() {
        marks.push(is_narrow(order, number, &order.graph.above[number]))?;
    }
    Ok(marks)
}

/// Whether one of the numbers above, a greater one, lies below all of them.
fn is_narrow(order: &SortOrder, number: usize, above: &[usize]) -> bool
    ensures { let upwards = edges_of order.now.graph.above.items in (pairs : List (KoreSort × KoreSort)) → IsOrderOf pairs order.now → above.now ≡ get_or upwards number [] → IsTrue result → IsNarrow order.now.graph number }
{
    let least = least_of(above);
    if least <= number {
        return false;
    }
    are_over(order, above, least)
}

/// The least of the numbers; the greatest of all where there are none.
fn least_of(numbers: &[usize]) -> usize {
    let mut least = usize::MAX;
    for number in numbers {
        if *number < least {
            least = *number;
        }
    }
    least
}

/// Whether each of the numbers lies above another.
fn are_over(order: &SortOrder, numbers: &[usize], lower: usize) -> bool
    ensures { let graph = order.now.graph in (pairs : List (KoreSort × KoreSort)) → IsOrderOf pairs order.now → ((i : ℕ) → Contains numbers.now i → i < length (sorts_of graph)) → IsTrue result → (i : ℕ) → Contains numbers.now i → Under graph i lower }
{
    for number in numbers {
        if !order.is_under(*number, lower) {
            return false;
        }
    }
    true
}

/// Marks the numbers below which all are narrow, and smaller.
fn straight_marks(
    alloc: Global,
    below: &[Vec<usize>],
    narrow: &[bool],
) -> Result<Vec<bool>, AllocError>
    ensures { IfOk result (λ marks. AreStraightBy below.now narrow.now marks.items) }
{
    let mut marks = Vec::new(alloc);
    for number in 0..below.len() {
        let passes = are_straight(&below[number], narrow, &marks);
        marks.push(passes)?;
    }
    Ok(marks)
}

/// Whether each of the numbers has both marks.
fn are_straight(numbers: &[usize], narrow: &[bool], marks: &[bool]) -> bool
    ensures { IsTrue result → (i : ℕ) → Contains numbers.now i → (i < length marks.now) × IsTrue (get_or marks.now i false) × IsTrue (get_or narrow.now i false) }
{
    for number in numbers {
        if !is_straight(*number, narrow, marks) {
            return false;
        }
    }
    true
}

/// Whether the number has both marks.
fn is_straight(number: usize, narrow: &[bool], marks: &[bool]) -> bool
    ensures { IsTrue result → (number < length marks.now) × IsTrue (get_or marks.now number false) × IsTrue (get_or narrow.now number false) }
{
    is_marked(marks, number) && is_marked(narrow, number)
}
