// Whether some value is an instance of a state's term, calls standing for any value, and of a left side: by places that have one
// value, as unification on term graphs goes.
#![tactic(auto)]

pub mod graph;
pub mod label_holders;
pub mod labels;
pub mod meeting;
pub mod ranks;
pub mod sorts;
pub mod terms;
pub mod value_places;

pub use meeting::{meets, overlap};
