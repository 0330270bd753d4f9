// Kore JSON: a pattern is read exactly from its tree, or the first fault is told.
#![tactic(auto)]

mod fault;
mod form;
pub mod laws;
mod member;
mod parts;
mod pattern;
mod shape;
mod sort;
mod tree;
mod vecs;
mod wrapper;
mod write;
mod written_sort;

pub use fault::{JsonError, JsonFault};
pub use wrapper::pattern_of;
pub use write::value_of;
