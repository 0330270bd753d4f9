// Whether the clauses of a state can be true.
#![tactic(auto)]

pub mod decide_clauses;
pub mod heads;
pub mod laws;
pub mod verdict;

pub use decide_clauses::decide;
pub use verdict::Verdict;
