// What limits are told of: how much the clauses of a state weigh, and the first limit that they pass; how many whole-number
// variables clauses compare, and how many stand in a state and in left sides; calls of two numbers that folding leaves, since their
// value leaves signed 128 bits. specs/Told.antt says how a weight is told, specs/Compared.antt what is counted, specs/Wide.antt
// which call is the first.
#![tactic(auto)]

pub mod clauses;
pub mod counts;
pub mod places;
pub mod sums;
pub mod weight;
pub mod wide;

pub use clauses::compared;
pub use counts::whole_variables;
pub use places::places_of;
pub use sums::plus;
pub use weight::{Weighed, WeightKind, first_over, weight_of};
pub use wide::{WideCall, first_wide};
