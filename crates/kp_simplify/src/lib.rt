// What simplify answers of a pattern: the state that it is read as, where some values of its variables make its clauses true;
// nothing where none do; and what is shown where that isn't decided.
#![tactic(auto)]

pub mod answer;
pub mod depth;
pub mod limits;
mod shallow;
pub mod simplify_pattern;
mod state_answer;

pub use answer::Simplified;
pub use simplify_pattern::{SimplifyError, simplify};
