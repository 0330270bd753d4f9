// Bounds `x - y <= c` on differences of whole numbers, in a square matrix. `feasible` eliminates over each place in turn
// (Floyd, Warshall), in place and without memory: Yes leaves values that meet every bound, No says that none do. The sums
// stay in 128 bits because the variables and the bits of the largest constant are together at most 126.
// specs/Bounds.antt says what bounds are and when values meet them.
#![tactic(auto)]

mod elimination;
mod matrix;
mod rows;
mod valuation;
mod weight;

pub use matrix::{Feasibility, Matrix};
