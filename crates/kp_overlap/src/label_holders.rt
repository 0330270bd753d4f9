// A place for each label that tells the head of its value.
ghost use Rattle.kp_ground.specs.View.{value_view};
ghost use Rattle.kp_kore.specs.Signature.{KoreSignature};
ghost use Rattle.kp_overlap.specs.Graphs.{IsAt, Graph, never, leaf, made};
ghost use Rattle.kp_overlap.specs.Held.{TellsHolders, TellsShapes, TellsShapesAt, IsClosedAt, TellsSet, TellsPlace};
ghost use Rattle.kp_overlap.specs.Labels.{AreLabels, HaveOneLabelEach, IsClosed, IsGraph};
ghost use Rattle.kp_overlap.specs.Views.{shape_view};
ghost use Rattle.std.specs.Prelude.{◌≡◌, ℕ, ◌↔◌, IsTrue, IfOk, List, map, replicate, string_bytes};

use crate::graph::PlaceShape;
use crate::labels::have_one_label;
use kp_ground::Value;
use std::alloc::{AllocError, Global};
use std::sync::Arc;

/// What two shapes of one value say: the same; or what no value is; or it isn't known, since members aren't joined.
#[derive(Clone, Copy)]
enum Agreement {
    Same,
    Clash,
    Apart,
}

/// Places for labels, or that there is no solution.
#[derive(Drop)]
pub enum Holders {
    Clash,
    Held { holders: Vec<Option<usize>> },
}

/// Whether each two members have one label.
fn all_have_one_label(labels: &[usize], members: &[usize], others: &[usize]) -> bool
    ensures { IsTrue result → HaveOneLabelEach labels.now members.now others.now }
{
    if members.len() != others.len() {
        return false;
    }
    for i in 0..members.len() {
        if !have_one_label(labels, members[i], others[i]) {
            return false;
        }
    }
    true
}

/// What is told of two constructors with members.
fn agree_made(
    labels: &[usize],
    constructor: &Arc<String>,
    members: &[usize],
    other: &Arc<String>,
    others: &[usize],
) -> Agreement
    ensures { let f = string_bytes constructor.now.value in let h = string_bytes other.now.value in TellsShapes labels.now (made f members.now) (made h others.now) result }
{
    if **constructor != **other {
        return Agreement::Clash;
    }
    if members.len() != others.len() {
        return Agreement::Clash;
    }
    if all_have_one_label(labels, members, others) {
        return Agreement::Same;
    }
    Agreement::Apart
}

/// What is told of two values.
fn agree_leaf(value: &Value, other: &Value) -> Agreement
    ensures { (ls : List ℕ) → TellsShapes ls (leaf (value_view value.now)) (leaf (value_view other.now)) result }
{
    if value.equal(other) {
        return Agreement::Same;
    }
    Agreement::Clash
}

/// What is told of two shapes that tell heads.
fn agree(labels: &[usize], shape: &PlaceShape, other: &PlaceShape) -> Agreement
    ensures { TellsShapes labels.now (shape_view shape.now) (shape_view other.now) result }
{
    match shape {
        PlaceShape::Open | PlaceShape::Never => Agreement::Apart,
        PlaceShape::Leaf { value } => match other {
            PlaceShape::Open | PlaceShape::Never => Agreement::Apart,
            PlaceShape::Leaf { value: second } => agree_leaf(value, second),
            PlaceShape::Made { .. } => Agreement::Clash,
        },
        PlaceShape::Made {
            constructor,
            members,
        } => match other {
            PlaceShape::Open | PlaceShape::Never => Agreement::Apart,
            PlaceShape::Leaf { .. } => Agreement::Clash,
            PlaceShape::Made {
                constructor: second,
                members: others,
            } => agree_made(labels, constructor, members, second, others),
        },
    }
}

/// What is told of the shapes of two places.
fn agree_at(shapes: &[PlaceShape], labels: &[usize], place: usize, holder: usize) -> Agreement
    ensures { TellsShapesAt (map shape_view shapes.now) labels.now place holder result }
{
    if place < shapes.len() && holder < shapes.len() {
        return agree(labels, &shapes[place], &shapes[holder]);
    }
    Agreement::Apart
}

/// The holder of the label.
pub fn holder_of(holders: &[Option<usize>], label: usize) -> Option<usize>
    ensures { (h : ℕ) → (result ≡ Some h) ↔ IsAt holders.now label (Some h) }
{
    if label < holders.len() {
        return holders[label];
    }
    None
}

/// Makes the place the holder of the label.
fn set_holder(holders: &mut Vec<Option<usize>>, label: usize, place: usize) -> Agreement
    ensures { TellsSet label place holders.old.items holders.new.items result }
{
    if label < holders.len() {
        holders[label] = Some(place);
        return Agreement::Same;
    }
    Agreement::Apart
}

/// What is told of a place that tells a head, and the holder of its label; it becomes the holder, where there is none.
fn hold_by(
    holders: &mut Vec<Option<usize>>,
    shapes: &[PlaceShape],
    labels: &[usize],
    place: usize,
    label: usize,
) -> Agreement
    ensures { let xs = map shape_view shapes.now in IsAt labels.now place label → IsClosedAt xs place → TellsPlace xs labels.now place holders.old.items holders.new.items result }
{
    match holder_of(holders, label) {
        Some(holder) => agree_at(shapes, labels, place, holder),
        None => set_holder(holders, label, place),
    }
}

/// The same with the place's label.
fn hold(
    holders: &mut Vec<Option<usize>>,
    shapes: &[PlaceShape],
    labels: &[usize],
    place: usize,
) -> Agreement
    ensures { let xs = map shape_view shapes.now in IsClosedAt xs place → TellsPlace xs labels.now place holders.old.items holders.new.items result }
{
    if place < labels.len() {
        return hold_by(holders, shapes, labels, place, labels[place]);
    }
    Agreement::Apart
}

/// Whether the shape is that of no value.
fn is_never(shape: &PlaceShape) -> bool
    ensures { IsTrue result ↔ (shape_view shape.now ≡ never) }
{
    match shape {
        PlaceShape::Never => true,
        PlaceShape::Open | PlaceShape::Leaf { .. } | PlaceShape::Made { .. } => false,
    }
}

/// Whether the shape tells a head.
fn is_closed(shape: &PlaceShape) -> bool
    ensures { IsTrue result ↔ IsClosed (shape_view shape.now) }
{
    match shape {
        PlaceShape::Leaf { .. } | PlaceShape::Made { .. } => true,
        PlaceShape::Open | PlaceShape::Never => false,
    }
}

/// The same, where the place's shape tells a head; none is the value of a place that has none.
fn hold_closed(
    holders: &mut Vec<Option<usize>>,
    shapes: &[PlaceShape],
    labels: &[usize],
    place: usize,
) -> Agreement
    ensures { TellsPlace (map shape_view shapes.now) labels.now place holders.old.items holders.new.items result }
{
    if place >= shapes.len() {
        return Agreement::Apart;
    }
    let shape = &shapes[place];
    if is_never(shape) {
        return Agreement::Clash;
    }
    if is_closed(shape) {
        return hold(holders, shapes, labels, place);
    }
    Agreement::Same
}

/// So often nothing.
pub fn nones(alloc: Global, count: usize) -> Result<Vec<Option<usize>>, AllocError>
    ensures { IfOk result (λ made. made.items ≡ replicate count None) }
{
    let mut made = Vec::new(alloc);
    for _i in 0..count {
        made.push(None)?;
    }
    Ok(made)
}

/// The holder of each label under which a place tells a head, where all others there say the same. Labels under which members aren't
/// joined aren't made: want of memory is told.
pub fn find_holders(
    alloc: Global,
    shapes: &[PlaceShape],
    labels: &[usize],
) -> Result<Holders, AllocError>
    ensures { let ls = labels.now in (g : KoreSignature) (x : Graph) (i j : ℕ) → x.shapes ≡ map shape_view shapes.now → IsGraph g x → AreLabels g x i j ls → IfOk result (TellsHolders g x i j ls) }
{
    let mut holders = nones(alloc, labels.len())?;
    for place in 0..shapes.len() {
        match hold_closed(&mut holders, shapes, labels, place) {
            Agreement::Same => {}
            Agreement::Clash => return Ok(Holders::Clash),
            Agreement::Apart => return Err(AllocError),
        }
    }
    Ok(Holders::Held { holders })
}
