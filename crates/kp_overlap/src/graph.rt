// Graphs of places.
use indexmap::IndexMap;
use kp_ground::Value;
use kp_kore::{Name, Sort};
use std::sync::Arc;

/// What the value of a place is. `shape_view` in specs/Views.antt says which shape it is.
#[derive(Drop)]
pub enum PlaceShape {
    /// Any value.
    Open,
    /// There is none.
    Never,
    /// A value without members.
    Leaf {
        value: Value,
    },
    /// The constructor, with the values of these places.
    Made {
        constructor: Arc<String>,
        members: Vec<usize>,
    },
}

/// A sort that the value of a place has.
#[derive(Drop)]
pub struct PlacedSort {
    pub place: usize,
    pub sort: Sort,
}

/// Places, each with its shape, and the sorts that their values have.
#[derive(Drop)]
pub struct Graph {
    pub shapes: Vec<PlaceShape>,
    pub sorts: Vec<PlacedSort>,
}

/// The place of each variable that was met.
pub type VariablePlaces = IndexMap<Name, usize>;
