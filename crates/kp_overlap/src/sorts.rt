// The sorts under one label, which its value has.
ghost use Rattle.std.specs.Prelude.{◌≡◌, ◌↔◌, ℕ, [], IsTrue, IfOk, OnOk, Some, None, get_or, map};
ghost use Rattle.std.specs.List.{AllByRecursion};
ghost use Rattle.kp_kore.specs.Signature as model;
ghost use Rattle.kp_kore.specs.Value.{head_of};
ghost use Rattle.kp_kore.specs.View.{sort_view, symbol_sentence_view};
ghost use Rattle.kp_ground.specs.View.{value_view};
ghost use Rattle.kp_signature.specs.Edges.{Leads, edges_of};
ghost use Rattle.kp_signature.specs.View.{signature_view};
ghost use Rattle.kp_heads.specs.Made.{IsHeadTableOf};
ghost use Rattle.kp_sort_heads.specs.Views.{head_view};
ghost use Rattle.kp_overlap.specs.Graphs as places;
ghost use Rattle.kp_overlap.specs.Labels.{IsGraph, AreLabels, AreHolders, HasHeadOf};
ghost use Rattle.kp_overlap.specs.Sorted.{HasHeadAt, HasHeadTold, HaveValue, HaveValueOf, AreGroups, IsGrouped, IsHolderOf, Fits, AllFit, TellsSorts};
ghost use Rattle.kp_overlap.specs.Views.{shape_view, placed_view, graph_view};

use crate::graph::{Graph, PlaceShape, PlacedSort};
use crate::label_holders::holder_of;
use kp_ground::Value;
use kp_heads::HeadTable;
use kp_kore::{Sort, SymbolSentence};
use kp_literals::value_kinds::{has_numbers, has_tokens_of, has_truths, lies_below};
use kp_signature::Signature;
use kp_signature::edges::add_edge;
use kp_signature::symbols::is_constructor;
use kp_sort_heads::{SortHead, heads, is_head};
use std::alloc::{AllocError, Global};

/// Whether the symbol is a constructor that makes values of the sort.
fn makes_values(signature: &Signature, declaration: &SymbolSentence, sort: &Sort) -> bool
    ensures { result ≡ model.is_own_below (signature_view signature.now) (sort_view sort.now) (model.sort_made (Some (symbol_sentence_view declaration.now))) }
{
    is_constructor(declaration) && lies_below(signature, &declaration.result_sort, sort)
}

/// Whether the symbol of this name is a constructor that makes values of the sort.
fn makes(signature: &Signature, symbol: &str, sort: &Sort) -> bool
    ensures { result ≡ model.is_head (signature_view signature.now) (sort_view sort.now) (model.constructor_of symbol.now) }
{
    match signature.symbol(symbol) {
        Some(declaration) => makes_values(signature, declaration, sort),
        None => false,
    }
}

/// Whether the value's head is one of the sort's.
fn is_value_of(signature: &Signature, value: &Value, sort: &Sort) -> bool
    ensures { result ≡ model.is_head (signature_view signature.now) (sort_view sort.now) (head_of (value_view value.now)) }
{
    match value {
        Value::Whole { .. } => has_numbers(signature, sort),
        Value::Truth { .. } => has_truths(signature, sort),
        Value::Token { sort: own, .. } => has_tokens_of(signature, own, sort),
        Value::Constructed { constructor, .. } => makes(signature, constructor, sort),
    }
}

/// Whether the sort has the head that the shape tells.
fn has_head_of(signature: &Signature, sort: &Sort, shape: &PlaceShape) -> bool
    ensures { IsTrue result ↔ HasHeadOf (signature_view signature.now) (sort_view sort.now) (shape_view shape.now) }
{
    match shape {
        PlaceShape::Open | PlaceShape::Never => false,
        PlaceShape::Leaf { value } => is_value_of(signature, value, sort),
        PlaceShape::Made { constructor, .. } => makes(signature, constructor, sort),
    }
}

/// The holder of the place's label.
fn holder_told(labels: &[usize], holders: &[Option<usize>], place: usize) -> Option<usize>
    ensures { (h : ℕ) → result ≡ Some h ↔ IsHolderOf labels.now holders.now place h }
{
    if place < labels.len() {
        return holder_of(holders, labels[place]);
    }
    None
}

/// Whether the sort has the head that the shape of this place tells, if there is one.
fn has_head_told(signature: &Signature, shapes: &[PlaceShape], sort: &Sort, holder: usize) -> bool
    ensures { IsTrue result ↔ HasHeadTold (signature_view signature.now) (map shape_view shapes.now) (sort_view sort.now) holder }
{
    if holder < shapes.len() {
        return has_head_of(signature, sort, &shapes[holder]);
    }
    true
}

/// Whether the sort of a place has the head that its label's holder tells, if there is one.
fn fits(
    signature: &Signature,
    shapes: &[PlaceShape],
    labels: &[usize],
    holders: &[Option<usize>],
    asked: &PlacedSort,
) -> bool
    ensures { IsTrue result ↔ Fits (signature_view signature.now) (map shape_view shapes.now) labels.now holders.now (placed_view asked.now) }
{
    match holder_told(labels, holders, asked.place) {
        Some(holder) => has_head_told(signature, shapes, &asked.sort, holder),
        None => true,
    }
}

/// Whether the sort of each place does.
fn all_fit(
    signature: &Signature,
    shapes: &[PlaceShape],
    sorts: &[PlacedSort],
    labels: &[usize],
    holders: &[Option<usize>],
) -> bool
    ensures { IsTrue result ↔ AllByRecursion (Fits (signature_view signature.now) (map shape_view shapes.now) labels.now holders.now) (map placed_view sorts.now) }
{
    for asked in sorts {
        if !fits(signature, shapes, labels, holders, asked) {
            return false;
        }
    }
    true
}

/// So many empty groups.
fn no_groups(alloc: Global, count: usize) -> Result<Vec<Vec<usize>>, AllocError>
    ensures { IfOk result (λ gs. (l n : ℕ) → ¬ Leads (edges_of gs.items) l n) }
{
    let mut groups = Vec::new(alloc);
    for _label in 0..count {
        groups.push(Vec::new(alloc))?;
    }
    Ok(groups)
}

/// Adds the number to the group of the place's label. Labels without a group aren't made: want of memory is told.
fn add_to_group(
    groups: &mut Vec<Vec<usize>>,
    labels: &[usize],
    place: usize,
    number: usize,
) -> Result<(), AllocError>
    ensures { OnOk result (IsGrouped labels.now place number (edges_of groups.old.items) (edges_of groups.new.items)) }
{
    if place >= labels.len() {
        return Err(AllocError);
    }
    let label = labels[place];
    if label >= groups.len() {
        return Err(AllocError);
    }
    add_edge(groups, label, number)
}

/// For each label the numbers of the sorts under it.
fn groups(
    alloc: Global,
    labels: &[usize],
    sorts: &[PlacedSort],
) -> Result<Vec<Vec<usize>>, AllocError>
    ensures { IfOk result (λ gs. AreGroups labels.now (map placed_view sorts.now) (edges_of gs.items)) }
{
    let mut groups = no_groups(alloc, labels.len())?;
    for number in 0..sorts.len() {
        add_to_group(&mut groups, labels, sorts[number].place, number)?;
    }
    Ok(groups)
}

/// Whether there is a sort of this number that has the head.
fn has_head(signature: &Signature, sorts: &[PlacedSort], number: usize, head: &SortHead) -> bool
    ensures { IsTrue result ↔ HasHeadAt (signature_view signature.now) (map placed_view sorts.now) (head_view head.now) number }
{
    if number < sorts.len() {
        return is_head(signature, &sorts[number].sort, head);
    }
    false
}

/// Whether the sorts of these numbers have the head.
fn all_have_head(
    signature: &Signature,
    sorts: &[PlacedSort],
    numbers: &[usize],
    head: &SortHead,
) -> bool
    ensures { IsTrue result ↔ AllByRecursion (HasHeadAt (signature_view signature.now) (map placed_view sorts.now) (head_view head.now)) numbers.now }
{
    for number in numbers {
        if !has_head(signature, sorts, *number, head) {
            return false;
        }
    }
    true
}

/// Whether some value of the first sort has the sorts of these numbers.
fn share_value(
    table: &HeadTable,
    signature: &Signature,
    sorts: &[PlacedSort],
    numbers: &[usize],
    first: &Sort,
) -> bool
    requires { IsHeadTableOf (signature_view signature.now) table.now }
    ensures { IsTrue result ↔ HaveValueOf (signature_view signature.now) (sort_view first.now) (map placed_view sorts.now) numbers.now }
{
    let mut left = heads(signature, first);
    while let Some(head) = left.next_live(table) {
        if all_have_head(signature, sorts, numbers, &head) {
            return true;
        }
    }
    false
}

/// Whether some value has the sorts of these numbers.
fn have_value(
    table: &HeadTable,
    signature: &Signature,
    sorts: &[PlacedSort],
    numbers: &[usize],
) -> bool
    requires { IsHeadTableOf (signature_view signature.now) table.now }
    ensures { IsTrue result ↔ HaveValue (signature_view signature.now) (map placed_view sorts.now) numbers.now }
{
    if numbers.len() == 0 {
        return true;
    }
    let first = numbers[0];
    if first < sorts.len() {
        return share_value(table, signature, sorts, numbers, &sorts[first].sort);
    }
    false
}

/// Whether some value has the sorts of this label's group.
fn group_has_value(
    table: &HeadTable,
    signature: &Signature,
    sorts: &[PlacedSort],
    groups: &[Vec<usize>],
    label: usize,
) -> bool
    requires { IsHeadTableOf (signature_view signature.now) table.now }
    ensures { IsTrue result ↔ HaveValue (signature_view signature.now) (map placed_view sorts.now) (get_or (edges_of groups.now) label []) }
{
    if label < groups.len() {
        return have_value(table, signature, sorts, &groups[label]);
    }
    true
}

/// Whether that is so where the label has no holder.
fn label_fits(
    table: &HeadTable,
    signature: &Signature,
    sorts: &[PlacedSort],
    holder: Option<usize>,
    groups: &[Vec<usize>],
    label: usize,
) -> bool
    requires { IsHeadTableOf (signature_view signature.now) table.now }
    ensures { IsTrue result ↔ (holder ≡ None → HaveValue (signature_view signature.now) (map placed_view sorts.now) (get_or (edges_of groups.now) label [])) }
{
    match holder {
        Some(_) => true,
        None => group_has_value(table, signature, sorts, groups, label),
    }
}

/// Whether it is of each label.
fn labels_fit(
    table: &HeadTable,
    signature: &Signature,
    sorts: &[PlacedSort],
    holders: &[Option<usize>],
    groups: &[Vec<usize>],
) -> bool
    requires { IsHeadTableOf (signature_view signature.now) table.now }
    ensures { IsTrue result ↔ AllFit (signature_view signature.now) (map placed_view sorts.now) holders.now (edges_of groups.now) }
{
    for label in 0..holders.len() {
        if !label_fits(table, signature, sorts, holders[label], groups, label) {
            return false;
        }
    }
    true
}

/// The same as `sorts_fit`, of these shapes and sorts.
fn placed_sorts_fit(
    alloc: Global,
    table: &HeadTable,
    signature: &Signature,
    shapes: &[PlaceShape],
    sorts: &[PlacedSort],
    labels: &[usize],
    holders: &[Option<usize>],
) -> Result<bool, AllocError>
    requires { IsHeadTableOf (signature_view signature.now) table.now }
    ensures { let g = signature_view signature.now in let ls = labels.now in let hs = holders.now in
        (x : places.Graph) (i j : ℕ) → x.shapes ≡ map shape_view shapes.now → x.sorts ≡ map placed_view sorts.now → AreLabels g x i j ls → AreHolders x ls hs → IfOk result (TellsSorts g x i j ls hs) }
{
    if !all_fit(signature, shapes, sorts, labels, holders) {
        return Ok(false);
    }
    let groups = groups(alloc, labels, sorts)?;
    Ok(labels_fit(table, signature, sorts, holders, &groups))
}

/// Whether the sorts under each label have its holder's head, or, where it has none, a value in common.
pub fn sorts_fit(
    alloc: Global,
    table: &HeadTable,
    signature: &Signature,
    graph: &Graph,
    labels: &[usize],
    holders: &[Option<usize>],
) -> Result<bool, AllocError>
    requires { IsHeadTableOf (signature_view signature.now) table.now }
    ensures { let g = signature_view signature.now in let x = graph_view graph.now in let ls = labels.now in let hs = holders.now in
        (i j : ℕ) → IsGraph g x → AreLabels g x i j ls → AreHolders x ls hs → IfOk result (TellsSorts g x i j ls hs) }
{
    placed_sorts_fit(
        alloc,
        table,
        signature,
        &graph.shapes,
        &graph.sorts,
        labels,
        holders,
    )
}
