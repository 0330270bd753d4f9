// The successors of a ground configuration, rule by rule: each rule that has its turn gives one pattern, whose instances
// are exactly the rule's successors.
#![tactic(auto)]

mod chosen;
pub mod error;
pub mod laws;
mod least;
mod left_replacements;
mod member;
mod narrow;
mod next;
mod step;
mod value;

pub use error::GroundError;
pub use step::ground_step;
