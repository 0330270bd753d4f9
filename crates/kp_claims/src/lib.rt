// What stands in a claims file, and its sentences: the modules that its text spells, the labels and sides of claims, and
// the faults of both. specs/Claims.antt says what sentences count and what a claim's sides are, specs/Faults.antt which
// faults there are.
#![tactic(auto)]

mod fault;
pub mod file;
pub mod label;
pub mod outline;
pub mod sentences;
pub mod sides;

pub use fault::{ClaimError, ClaimFault};
