// Values of skeletons, placed in a graph.
ghost use Rattle.std.specs.Prelude.{IfOk, map, string_bytes};
ghost use Rattle.indexmap.specs.IndexMap.{get_by_text};
ghost use Rattle.kp_kore.specs.Signature.{KoreSignature};
ghost use Rattle.kp_kore.specs.View.{sort_view};
ghost use Rattle.kp_ground.specs.View.{value_view, values_of};
ghost use Rattle.kp_rules.specs.Skeletons.{skeleton_view, forms_of};
ghost use Rattle.kp_signature.specs.View.{signature_view};
ghost use Rattle.kp_overlap.specs.Placing.{IsMade, PlacesValue, PlacesValues, PlacesVariable, PlacesSorted, PlacesSortedVariable, PlacesForm, PlacesForms, PlacesBoth};
ghost use Rattle.kp_overlap.specs.Views.{graph_view};

use crate::graph::{Graph, PlaceShape, PlacedSort, VariablePlaces};
use indexmap::IndexMap;
use kp_ground::Value;
use kp_ground::names::share_name;
use kp_kore::Sort;
use kp_rules::Skeleton;
use kp_signature::Signature;
use std::alloc::{AllocError, Global};
use std::sync::Arc;

impl Graph {
    ghost use Rattle.std.specs.Prelude.{◌≡◌, IfOk, OnOk, [], ◌∷◌, length};
    ghost use Rattle.kp_kore.specs.View.{sort_view, sorts_view};
    ghost use Rattle.kp_overlap.specs.Placing.{with_shape, with_sorts, asked};
    ghost use Rattle.kp_overlap.specs.Views.{shape_view, graph_view};

    /// A new place of this shape.
    fn add(&mut self, shape: PlaceShape) -> Result<usize, AllocError>
        ensures place { IfOk result (λ n. n ≡ length (graph_view self.old).shapes) }
        ensures graph { OnOk result (graph_view self.new ≡ with_shape (graph_view self.old) (shape_view shape)) }
    {
        let place = self.shapes.len();
        self.shapes.push(shape)?;
        Ok(place)
    }

    /// Asks that the value of the place has the sort.
    fn ask(&mut self, alloc: Global, place: usize, sort: &Sort) -> Result<(), AllocError>
        ensures { OnOk result (graph_view self.new ≡ with_sorts (graph_view self.old) (record { place = place; sort = sort_view sort.now } ∷ [])) }
    {
        let sort = sort.copy(alloc)?;
        self.sorts.push(PlacedSort { place, sort })?;
        Ok(())
    }

    /// Asks the sorts of their places' values, one by one.
    fn ask_all(&mut self, alloc: Global, places: &[usize], sorts: &[Sort]) -> Result<(), AllocError>
        requires { length places.now ≡ length sorts.now }
        ensures { OnOk result (graph_view self.new ≡ with_sorts (graph_view self.old) (asked (sorts_view sorts.now) places.now)) }
    {
        for i in 0..places.len() {
            self.ask(alloc, places[i], &sorts[i])?;
        }
        Ok(())
    }
}

/// A place for the constructor's value with these members. There is no such value, where it isn't declared with so many arguments.
fn made_place(
    alloc: Global,
    signature: &Signature,
    graph: &mut Graph,
    constructor: &Arc<String>,
    members: Vec<usize>,
) -> Result<usize, AllocError>
    ensures { let f = string_bytes constructor.now.value in IfOk result (λ n. IsMade (signature_view signature.now) f members.items (graph_view graph.old) (graph_view graph.new) n) }
{
    match signature.symbol(constructor) {
        Some(declared) => {
            if declared.arguments.len() != members.len() {
                return graph.add(PlaceShape::Never);
            }
            graph.ask_all(alloc, &members, &declared.arguments)?;
            let constructor = share_name(constructor)?;
            graph.add(PlaceShape::Made {
                constructor,
                members,
            })
        }
        None => graph.add(PlaceShape::Never),
    }
}

/// A place for the value.
#[cycle(value)]
fn value_place(
    alloc: Global,
    signature: &Signature,
    graph: &mut Graph,
    value: &Value,
) -> Result<usize, AllocError>
    ensures { IfOk result (λ n. PlacesValue (signature_view signature.now) (graph_view graph.old) (graph_view graph.new) (value_view value.now) n) }
{
    match value {
        Value::Constructed {
            constructor,
            arguments,
        } => {
            let members = value_places(alloc, signature, graph, arguments)?;
            made_place(alloc, signature, graph, constructor, members)
        }
        Value::Whole { .. } | Value::Truth { .. } | Value::Token { .. } => {
            let value = value.share(alloc)?;
            graph.add(PlaceShape::Leaf { value })
        }
    }
}

/// A place for each of the values.
#[cycle(value)]
fn value_places(
    alloc: Global,
    signature: &Signature,
    graph: &mut Graph,
    values: &[Value],
) -> Result<Vec<usize>, AllocError>
    ensures { let us = values_of (map value_view values.now) in IfOk result (λ ns. PlacesValues (signature_view signature.now) (graph_view graph.old) (graph_view graph.new) us ns.items) }
{
    let mut places = Vec::new(alloc);
    for value in values {
        places.push(value_place(alloc, signature, graph, value)?)?;
    }
    Ok(places)
}

/// The place of the variable of this name, a new one where it has none.
fn variable_place(
    graph: &mut Graph,
    names: &mut VariablePlaces,
    name: &Arc<String>,
) -> Result<usize, AllocError>
    ensures { let before = get_by_text names.old in let after = get_by_text names.new in let x = string_bytes name.now.value in
        IfOk result (λ n. (g : KoreSignature) → PlacesVariable g (graph_view graph.old) before (graph_view graph.new) after x n) }
{
    match names.get(name.as_str()) {
        Some(place) => Ok(*place),
        None => {
            let place = graph.add(PlaceShape::Open)?;
            names.insert((**name).clone()?, place)?;
            Ok(place)
        }
    }
}

/// A place for a value of the sort.
fn sorted_place(alloc: Global, graph: &mut Graph, sort: &Sort) -> Result<usize, AllocError>
    ensures { IfOk result (λ n. (g : KoreSignature) → PlacesSorted g (graph_view graph.old) (graph_view graph.new) (sort_view sort.now) n) }
{
    let place = graph.add(PlaceShape::Open)?;
    graph.ask(alloc, place, sort)?;
    Ok(place)
}

/// The place of a variable, where its value has the sort.
fn sorted_variable_place(
    alloc: Global,
    graph: &mut Graph,
    names: &mut VariablePlaces,
    name: &Arc<String>,
    sort: &Sort,
) -> Result<usize, AllocError>
    ensures { let before = get_by_text names.old in let after = get_by_text names.new in let x = string_bytes name.now.value in let s = sort_view sort.now in
        IfOk result (λ n. (g : KoreSignature) → PlacesSortedVariable g (graph_view graph.old) before (graph_view graph.new) after x s n) }
{
    let place = variable_place(graph, names, name)?;
    graph.ask(alloc, place, sort)?;
    Ok(place)
}

/// A place for the value that the skeleton stands for.
#[cycle(skeleton)]
fn skeleton_place(
    alloc: Global,
    signature: &Signature,
    graph: &mut Graph,
    names: &mut VariablePlaces,
    skeleton: &Skeleton,
) -> Result<usize, AllocError>
    ensures { let g = signature_view signature.now in let before = get_by_text names.old in let after = get_by_text names.new in
        let k = skeleton_view skeleton.now in IfOk result (λ n. PlacesForm g (graph_view graph.old) before (graph_view graph.new) after k n) }
{
    match skeleton {
        Skeleton::Anything => graph.add(PlaceShape::Open),
        Skeleton::Nothing => graph.add(PlaceShape::Never),
        Skeleton::Any { sort } => sorted_place(alloc, graph, sort),
        Skeleton::Variable { name, sort } => sorted_variable_place(alloc, graph, names, name, sort),
        Skeleton::Fixed { value } => value_place(alloc, signature, graph, value),
        Skeleton::Built {
            constructor,
            arguments,
        } => {
            let members = skeleton_places(alloc, signature, graph, names, arguments)?;
            made_place(alloc, signature, graph, constructor, members)
        }
    }
}

/// A place for each of the values that the skeletons stand for.
#[cycle(skeleton)]
fn skeleton_places(
    alloc: Global,
    signature: &Signature,
    graph: &mut Graph,
    names: &mut VariablePlaces,
    skeletons: &[Skeleton],
) -> Result<Vec<usize>, AllocError>
    ensures { let g = signature_view signature.now in let before = get_by_text names.old in let after = get_by_text names.new in
        let ks = forms_of (map skeleton_view skeletons.now) in IfOk result (λ ns. PlacesForms g (graph_view graph.old) before (graph_view graph.new) after ks ns.items) }
{
    let mut places = Vec::new(alloc);
    for skeleton in skeletons {
        places.push(skeleton_place(alloc, signature, graph, names, skeleton)?)?;
    }
    Ok(places)
}

/// A graph in which two skeletons have their places, each with variables of its own.
#[derive(Drop)]
pub struct Placed {
    pub graph: Graph,
    pub first: usize,
    pub second: usize,
}

/// The graph of two skeletons, of which the first stands for a value of the sort.
pub fn place_both(
    alloc: Global,
    signature: &Signature,
    sort: &Sort,
    first: &Skeleton,
    second: &Skeleton,
) -> Result<Placed, AllocError>
    ensures { let g = signature_view signature.now in let first' = skeleton_view first.now in let second' = skeleton_view second.now in
        IfOk result (λ p. PlacesBoth g (sort_view sort.now) first' second' (graph_view p.graph) p.first p.second) }
{
    let mut graph = Graph {
        shapes: Vec::new(alloc),
        sorts: Vec::new(alloc),
    };
    let mut names = IndexMap::new(alloc);
    let first = skeleton_place(alloc, signature, &mut graph, &mut names, first)?;
    graph.ask(alloc, first, sort)?;
    let mut others = IndexMap::new(alloc);
    let second = skeleton_place(alloc, signature, &mut graph, &mut others, second)?;
    Ok(Placed {
        graph,
        first,
        second,
    })
}
