// One label for all places of one value.
ghost use Rattle.kp_kore.specs.Signature.{KoreSignature};
ghost use Rattle.kp_kore.specs.Value.{Value};
ghost use Rattle.kp_overlap.specs.Graphs.{IsAt, Graph, HasShape, values_at};
ghost use Rattle.kp_overlap.specs.Joined.{HaveShapes, AreOne, AreClasses, AreJoined, IsOwn, pair_of};
ghost use Rattle.kp_overlap.specs.Labels.{Follows, AreLabels, HaveOneLabel, AreSettled};
ghost use Rattle.kp_overlap.specs.Views.{shape_view};
ghost use Rattle.std.specs.List.{range_with_len};
ghost use Rattle.std.specs.Prelude.{◌≡◌, ℕ, ◌<◌, ◌≤◌, ◌↔◌, IsTrue, IfOk, [], ◌∷◌, length, map};

use crate::graph::PlaceShape;
use std::alloc::{AllocError, Global};

/// Two places of one value.
#[derive(Clone, Copy)]
struct Pair {
    first: usize,
    second: usize,
}

/// The place above this one, or itself.
fn above(parents: &[usize], place: usize) -> usize
    ensures at { place < length parents.now → IsAt parents.now place result }
    ensures past { length parents.now ≤ place → result ≡ place }
    ensures follows { (a : ℕ → Value) → Follows a parents.now → a place ≡ a result }
{
    if place < parents.len() {
        return parents[place];
    }
    place
}

/// The place that stands above all others of this one's.
fn top_of(parents: &[usize], place: usize) -> usize
    ensures { (a : ℕ → Value) → Follows a parents.now → a place ≡ a result }
{
    let mut at = place;
    for _step in 0..parents.len() {
        let next = above(parents, at);
        if next == at {
            return at;
        }
        at = next;
    }
    at
}

/// Sets the number of a place.
fn set(numbers: &mut Vec<usize>, place: usize, number: usize)
    ensures long { length numbers.new.items ≡ length numbers.old.items }
    ensures follow { (a : ℕ → Value) → a place ≡ a number → Follows a numbers.old.items → Follows a numbers.new.items }
{
    if place < numbers.len() {
        numbers[place] = number;
    }
}

/// The one of two places whose shape isn't open, if one is.
fn closed_of(shapes: &[PlaceShape], first: usize, second: usize) -> usize
    ensures { (a : ℕ → Value) → a first ≡ a second → a second ≡ a result }
{
    if first < shapes.len() {
        if let PlaceShape::Open = shapes[first] {
            return second;
        }
        return first;
    }
    second
}

/// Adds the pairs of two lists of members.
fn add_pairs(waiting: &mut Vec<Pair>, members: &[usize], others: &[usize]) -> Result<(), AllocError>
    ensures { (a : ℕ → Value) → values_at a members.now ≡ values_at a others.now → AreOne a waiting.old.items → IfOk result (λ _. AreOne a waiting.new.items) }
{
    if members.len() != others.len() {
        return Ok(());
    }
    for i in 0..members.len() {
        waiting.push(Pair {
            first: members[i],
            second: others[i],
        })?;
    }
    Ok(())
}

/// Adds the pairs of members of two shapes of one value.
fn add_members(
    waiting: &mut Vec<Pair>,
    shape: &PlaceShape,
    other: &PlaceShape,
) -> Result<(), AllocError>
    ensures { let s = shape_view shape.now in let t = shape_view other.now in (a : ℕ → Value) (u : Value) → HasShape a s u → HasShape a t u → AreOne a waiting.old.items → IfOk result (λ _. AreOne a waiting.new.items) }
{
    match shape {
        PlaceShape::Made { members, .. } => match other {
            PlaceShape::Made {
                members: others,
                ..
            } => add_pairs(waiting, members, others),
            PlaceShape::Open | PlaceShape::Never | PlaceShape::Leaf { .. } => Ok(()),
        },
        PlaceShape::Open | PlaceShape::Never | PlaceShape::Leaf { .. } => Ok(()),
    }
}

/// The same of the shapes of two places.
fn add_members_at(
    waiting: &mut Vec<Pair>,
    shapes: &[PlaceShape],
    first: usize,
    second: usize,
) -> Result<(), AllocError>
    ensures { (a : ℕ → Value) → HaveShapes a shapes.now → a first ≡ a second → AreOne a waiting.old.items → IfOk result (λ _. AreOne a waiting.new.items) }
{
    if first < shapes.len() && second < shapes.len() {
        return add_members(waiting, &shapes[first], &shapes[second]);
    }
    Ok(())
}

/// Classes of places of one value: for each place one above it, and one of its class whose shape isn't open, if there is one; and the
/// pairs that are still to be joined.
#[derive(Drop)]
struct Classes {
    parents: Vec<usize>,
    holders: Vec<usize>,
    waiting: Vec<Pair>,
}

/// The numbers below this one, in order.
fn numbers_below(alloc: Global, count: usize) -> Result<Vec<usize>, AllocError>
    ensures { IfOk result (λ made. made.items ≡ range_with_len 0 count) }
{
    let mut numbers = Vec::new(alloc);
    for i in 0..count {
        numbers.push(i)?;
    }
    Ok(numbers)
}

/// Puts the first of two tops below the second, and adds the pairs of their holders' members.
fn put_below(
    classes: &mut Classes,
    shapes: &[PlaceShape],
    low: usize,
    top: usize,
) -> Result<(), AllocError>
    ensures { IfOk result (λ _. AreJoined shapes.now (pair_of low top ∷ []) classes.old classes.new) }
{
    let first = above(&classes.holders, low);
    let second = above(&classes.holders, top);
    set(&mut classes.parents, low, top);
    set(&mut classes.holders, top, closed_of(shapes, first, second));
    add_members_at(&mut classes.waiting, shapes, first, second)
}

/// Joins the classes of two places of one value.
fn join(classes: &mut Classes, shapes: &[PlaceShape], pair: Pair) -> Result<(), AllocError>
    ensures { IfOk result (λ _. AreJoined shapes.now (pair ∷ []) classes.old classes.new) }
{
    let low = top_of(&classes.parents, pair.first);
    let top = top_of(&classes.parents, pair.second);
    set(&mut classes.parents, pair.first, low);
    set(&mut classes.parents, pair.second, top);
    if low == top {
        return Ok(());
    }
    put_below(classes, shapes, low, top)
}

/// How many members a shape has.
fn count_of(shape: &PlaceShape) -> usize {
    match shape {
        PlaceShape::Made { members, .. } => members.len(),
        PlaceShape::Open | PlaceShape::Never | PlaceShape::Leaf { .. } => 0,
    }
}

/// How many members these shapes have.
fn members_in(shapes: &[PlaceShape]) -> usize {
    let mut count: usize = 0;
    for shape in shapes {
        count = count.saturating_add(count_of(shape));
    }
    count
}

/// Joins all pairs that wait. Each joining of two classes adds the members of one shape, which isn't asked again.
fn join_all(classes: &mut Classes, shapes: &[PlaceShape]) -> Result<(), AllocError>
    ensures { IfOk result (λ _. AreJoined shapes.now [] classes.old classes.new) }
{
    for _pair in 0..members_in(shapes).saturating_add(1) {
        match classes.waiting.pop() {
            Some(pair) => join(classes, shapes, pair)?,
            None => return Ok(()),
        }
    }
    Ok(())
}

/// The top of each place.
fn tops(alloc: Global, parents: &[usize]) -> Result<Vec<usize>, AllocError>
    ensures long { IfOk result (λ made. length made.items ≡ length parents.now) }
    ensures follow { IfOk result (λ made. (a : ℕ → Value) → Follows a parents.now → Follows a made.items) }
{
    let mut labels = Vec::new(alloc);
    for place in 0..parents.len() {
        labels.push(top_of(parents, place))?;
    }
    Ok(labels)
}

/// Each place by itself, and these two to be joined.
fn begin(alloc: Global, count: usize, first: usize, second: usize) -> Result<Classes, AllocError>
    ensures long { IfOk result (λ made. length made.parents.items ≡ count) }
    ensures classes { IfOk result (λ made. (a : ℕ → Value) → a first ≡ a second → AreClasses a made) }
{
    let mut waiting = Vec::new(alloc);
    waiting.push(Pair { first, second })?;
    Ok(Classes {
        parents: numbers_below(alloc, count)?,
        holders: numbers_below(alloc, count)?,
        waiting,
    })
}

/// For each place a label, which has the same value, where these two places have one value.
pub fn labels(
    alloc: Global,
    shapes: &[PlaceShape],
    first: usize,
    second: usize,
) -> Result<Vec<usize>, AllocError>
    ensures { (g : KoreSignature) (x : Graph) → x.shapes ≡ map shape_view shapes.now → IfOk result (λ ls. AreLabels g x first second ls.items) }
{
    let mut classes = begin(alloc, shapes.len(), first, second)?;
    join_all(&mut classes, shapes)?;
    tops(alloc, &classes.parents)
}

/// Whether the label at this place is its own.
fn is_own(labels: &[usize], place: usize) -> bool
    ensures { place < length labels.now → IsTrue result ↔ IsOwn labels.now place }
{
    let label = above(labels, place);
    if label < labels.len() {
        return labels[label] == label;
    }
    false
}

/// Whether each label is its own.
fn are_own(labels: &[usize]) -> bool
    ensures { IsTrue result ↔ ((n : ℕ) → IsOwn labels.now n) }
{
    for place in 0..labels.len() {
        if !is_own(labels, place) {
            return false;
        }
    }
    true
}

/// Whether two places have one label.
pub fn have_one_label(labels: &[usize], first: usize, second: usize) -> bool
    ensures { IsTrue result ↔ HaveOneLabel labels.now first second }
{
    if first < labels.len() {
        if second < labels.len() {
            return labels[first] == labels[second];
        }
        return false;
    }
    false
}

/// Whether each label is its own, and these two places have one.
pub fn are_settled(labels: &[usize], first: usize, second: usize) -> bool
    ensures { IsTrue result ↔ AreSettled labels.now first second }
{
    are_own(labels) && have_one_label(labels, first, second)
}
