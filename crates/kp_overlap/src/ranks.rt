// Ranks of labels: what is made of others stands above them.
ghost use Rattle.std.specs.Prelude.{◌≡◌, ◌↔◌, ℕ, ◌<◌, List, length, map, Some, IsTrue, IfOk};
ghost use Rattle.std.specs.Option.{option_map};
ghost use Rattle.kp_kore.specs.Signature.{KoreSignature};
ghost use Rattle.kp_overlap.specs.Graphs.{Graph};
ghost use Rattle.kp_overlap.specs.Labels.{IsGraph, AreLabels, AreSettled, AreHolders, StandBefore};
ghost use Rattle.kp_overlap.specs.Ranked.{members, IsMadeOf, HasRank, HasLabelRank, IsBefore, IsRanked, SomeWaits, IsRankedOrWaits, TellsRanks};
ghost use Rattle.kp_overlap.specs.Views.{shape_view};

use crate::graph::PlaceShape;
use crate::label_holders::{holder_of, nones};
use std::alloc::{AllocError, Global};

/// What is found: that some labels are made of each other, or each label's rank.
#[derive(Drop)]
pub enum Ranks {
    Circle,
    Ranked { ranks: Vec<Option<usize>> },
}

/// What the labels are made of, as numbers: how many members each still waits for, and whose members it is.
#[derive(Drop)]
struct Uses {
    counts: Vec<usize>,
    users: Vec<Vec<usize>>,
}

/// The members of a label's holder.
fn members_of<'a>(
    shapes: &'a [PlaceShape],
    holders: &[Option<usize>],
    label: usize,
) -> Option<&'a [usize]>
    ensures { (ns : List ℕ) → (option_map (λ m. m.now) result ≡ Some ns) ↔ IsMadeOf (map shape_view shapes.now) holders.now label ns }
{
    let holder = holder_of(holders, label)?;
    if holder < shapes.len() {
        return members_at(&shapes[holder]);
    }
    None
}

/// The members of a shape.
fn members_at(shape: &PlaceShape) -> Option<&[usize]>
    ensures { option_map (λ m. m.now) result ≡ members (shape_view shape.now) }
{
    match shape {
        PlaceShape::Made { members, .. } => Some(members.as_slice()),
        PlaceShape::Open | PlaceShape::Never | PlaceShape::Leaf { .. } => None,
    }
}

/// The label of a place.
fn label_of(labels: &[usize], place: usize) -> usize {
    if place < labels.len() {
        return labels[place];
    }
    place
}

/// Notes that the label is made of another.
fn note_use(uses: &mut Uses, label: usize, other: usize) -> Result<(), AllocError> {
    if label < uses.counts.len() && other < uses.users.len() {
        uses.counts[label] = uses.counts[label].saturating_add(1);
        uses.users[other].push(label)?;
    }
    Ok(())
}

/// The same of each of its holder's members.
fn note_uses(
    uses: &mut Uses,
    labels: &[usize],
    label: usize,
    members: &[usize],
) -> Result<(), AllocError> {
    for member in members {
        note_use(uses, label, label_of(labels, *member))?;
    }
    Ok(())
}

/// What no label is made of.
fn no_uses(alloc: Global, count: usize) -> Result<Uses, AllocError> {
    let mut counts = Vec::new(alloc);
    let mut users = Vec::new(alloc);
    for _label in 0..count {
        counts.push(0)?;
        users.push(Vec::new(alloc))?;
    }
    Ok(Uses { counts, users })
}

/// What the labels are made of.
fn uses_of(
    alloc: Global,
    shapes: &[PlaceShape],
    labels: &[usize],
    holders: &[Option<usize>],
) -> Result<Uses, AllocError> {
    let mut uses = no_uses(alloc, labels.len())?;
    for label in 0..labels.len() {
        if let Some(members) = members_of(shapes, holders, label) {
            note_uses(&mut uses, labels, label, members)?;
        }
    }
    Ok(uses)
}

/// The labels that are made of nothing.
fn first_labels(alloc: Global, counts: &[usize]) -> Result<Vec<usize>, AllocError> {
    let mut found = Vec::new(alloc);
    for label in 0..counts.len() {
        if counts[label] == 0 {
            found.push(label)?;
        }
    }
    Ok(found)
}

/// The label waits for one member less, and stands in the row behind its last.
fn wait_less(counts: &mut [usize], row: &mut Vec<usize>, label: usize) -> Result<(), AllocError> {
    if label < counts.len() {
        counts[label] = counts[label].saturating_sub(1);
        if counts[label] == 0 {
            row.push(label)?;
        }
    }
    Ok(())
}

/// The same of each user of a label.
fn all_wait_less(
    counts: &mut [usize],
    row: &mut Vec<usize>,
    users: &[usize],
) -> Result<(), AllocError> {
    for user in users {
        wait_less(counts, row, *user)?;
    }
    Ok(())
}

/// All labels in a row, each behind those that it is made of.
fn in_row(alloc: Global, uses: &mut Uses) -> Result<Vec<usize>, AllocError> {
    let mut row = first_labels(alloc, &uses.counts)?;
    for i in 0..uses.users.len() {
        if i >= row.len() {
            return Ok(row);
        }
        let label = row[i];
        if label < uses.users.len() {
            all_wait_less(&mut uses.counts, &mut row, &uses.users[label])?;
        }
    }
    Ok(row)
}

/// The place in the row of each label.
fn places_in(alloc: Global, row: &[usize], count: usize) -> Result<Vec<Option<usize>>, AllocError> {
    let mut ranks = nones(alloc, count)?;
    for i in 0..row.len() {
        if row[i] < ranks.len() {
            ranks[row[i]] = Some(i);
        }
    }
    Ok(ranks)
}

/// The rank of a place's label.
fn rank_of(labels: &[usize], ranks: &[Option<usize>], place: usize) -> Option<usize>
    ensures { (p : ℕ) → (result ≡ Some p) ↔ HasLabelRank labels.now ranks.now place p }
{
    if place < labels.len() {
        return holder_of(ranks, labels[place]);
    }
    None
}

/// Whether the member's rank is known and below this one.
fn is_before(labels: &[usize], ranks: &[Option<usize>], rank: usize, member: usize) -> bool
    ensures { IsTrue result ↔ IsBefore labels.now ranks.now rank member }
{
    match rank_of(labels, ranks, member) {
        Some(other) => other < rank,
        None => false,
    }
}

/// Whether the members' ranks are below this one.
fn are_before(labels: &[usize], ranks: &[Option<usize>], rank: usize, members: &[usize]) -> bool
    ensures { IsTrue result ↔ StandBefore labels.now ranks.now rank members.now }
{
    for member in members {
        if !is_before(labels, ranks, rank, *member) {
            return false;
        }
    }
    true
}

/// Whether the label has a rank above those of its holder's members.
fn is_ranked(
    shapes: &[PlaceShape],
    labels: &[usize],
    holders: &[Option<usize>],
    ranks: &[Option<usize>],
    label: usize,
) -> bool
    ensures { IsTrue result ↔ IsRanked (map shape_view shapes.now) labels.now holders.now ranks.now label }
{
    match holder_of(ranks, label) {
        Some(rank) => match members_of(shapes, holders, label) {
            Some(members) => are_before(labels, ranks, rank, members),
            None => true,
        },
        None => false,
    }
}

/// Whether each label has.
fn are_ranked(
    shapes: &[PlaceShape],
    labels: &[usize],
    holders: &[Option<usize>],
    ranks: &[Option<usize>],
) -> bool
    ensures { IsTrue result ↔ ((l : ℕ) → l < length labels.now → IsRanked (map shape_view shapes.now) labels.now holders.now ranks.now l) }
{
    for label in 0..labels.len() {
        if !is_ranked(shapes, labels, holders, ranks, label) {
            return false;
        }
    }
    true
}

/// Whether one of the members has no rank.
fn waits(labels: &[usize], ranks: &[Option<usize>], members: &[usize]) -> bool
    ensures { IsTrue result ↔ SomeWaits labels.now ranks.now members.now }
{
    for member in members {
        if rank_of(labels, ranks, *member).is_none() {
            return true;
        }
    }
    false
}

/// Whether the label has a rank, or is made of one that has none.
fn is_ranked_or_waits(
    shapes: &[PlaceShape],
    labels: &[usize],
    holders: &[Option<usize>],
    ranks: &[Option<usize>],
    label: usize,
) -> bool
    ensures { IsTrue result ↔ IsRankedOrWaits (map shape_view shapes.now) labels.now holders.now ranks.now label }
{
    if holder_of(ranks, label).is_some() {
        return true;
    }
    match members_of(shapes, holders, label) {
        Some(members) => waits(labels, ranks, members),
        None => false,
    }
}

/// Whether each label without a rank is made of one that has none.
fn all_wait(
    shapes: &[PlaceShape],
    labels: &[usize],
    holders: &[Option<usize>],
    ranks: &[Option<usize>],
) -> bool
    ensures { IsTrue result ↔ ((l : ℕ) → l < length labels.now → IsRankedOrWaits (map shape_view shapes.now) labels.now holders.now ranks.now l) }
{
    for label in 0..labels.len() {
        if !is_ranked_or_waits(shapes, labels, holders, ranks, label) {
            return false;
        }
    }
    true
}

/// Whether one of so many labels has no rank.
fn has_unranked(ranks: &[Option<usize>], count: usize) -> bool
    ensures { IsTrue result ↔ ((l : ℕ) × (l < count) × ¬ HasRank ranks.now l) }
{
    for label in 0..count {
        if holder_of(ranks, label).is_none() {
            return true;
        }
    }
    false
}

/// A rank for each label, above those of its holder's members, or that some are made of each other. Ranks that tell neither aren't
/// made: want of memory is told.
pub fn find_ranks(
    alloc: Global,
    shapes: &[PlaceShape],
    labels: &[usize],
    holders: &[Option<usize>],
) -> Result<Ranks, AllocError>
    ensures { let ls = labels.now in let hs = holders.now in (g : KoreSignature) (x : Graph) (i j : ℕ) → x.shapes ≡ map shape_view shapes.now → IsGraph g x → AreLabels g x i j ls → AreSettled ls i j → AreHolders x ls hs → IfOk result (TellsRanks g x i j ls hs) }
{
    let mut uses = uses_of(alloc, shapes, labels, holders)?;
    let row = in_row(alloc, &mut uses)?;
    let ranks = places_in(alloc, &row, labels.len())?;
    if are_ranked(shapes, labels, holders, &ranks) {
        return Ok(Ranks::Ranked { ranks });
    }
    if has_unranked(&ranks, labels.len()) && all_wait(shapes, labels, holders, &ranks) {
        return Ok(Ranks::Circle);
    }
    Err(AllocError)
}
