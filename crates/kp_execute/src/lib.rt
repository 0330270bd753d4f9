// Runs of a rule set from a symbolic state, one symbolic step after the other, how they end, and what is written for that: what
// execute answers of a pattern.
#![tactic(auto)]

pub mod answer;
pub mod answered;
pub mod end_tests;
pub mod ending;
pub mod executing;
pub mod laws;
pub mod listed_rules;
pub mod lost_variables;
pub mod next_order;
pub mod next_states;
pub mod onward;
pub mod part_tests;
pub mod result;
pub mod runs;
pub mod undecided;
pub mod written;

pub use answer::{Answer, ExecuteError};
pub use ending::{Ending, Run};
pub use executing::execute;
pub use result::{WrittenRun, run_parts};
pub use runs::run;
