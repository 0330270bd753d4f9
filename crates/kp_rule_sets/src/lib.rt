// Rule sets: the rules of a definition with their turns, and which of them may rewrite a value of a head.
#![tactic(auto)]

pub mod head;
mod index;
pub mod laws;
pub mod places;
pub mod rule_set;
mod tops;
mod turn;

pub use head::{ValueTop, head_of};
pub use places::Places;
pub use rule_set::RuleSet;
