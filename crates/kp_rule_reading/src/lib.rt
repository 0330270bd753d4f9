// From a rewrite axiom to a rule that runs, or to a foreign rule with what its left side may stand for.
#![tactic(auto)]

mod choice;
mod depth;
mod label;
mod left_side;
mod lone;
mod names;
mod old_parts;
mod parts_read;
pub mod priority;
mod read;
mod rewrite_parts;
mod sides;
mod sort_test;

pub use label::label_of;
pub use priority::{Priority, USUAL_PRIORITY, priority_of};
pub use read::{RuleError, read_rule};
