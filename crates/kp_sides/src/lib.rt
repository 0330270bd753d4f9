// The two sides of an implication, by their form alone: what can't stand in a side, which of the sides' own faults is the first,
// and the names that both use. specs/Sides.antt says what is a fault.
#![tactic(auto)]

mod binders;
mod names;
mod side;
mod sides;
mod unclear;

pub use names::names_of;
pub use side::{SideFault, body_of, side_fault};
pub use sides::{ComparisonFault, sides_fault};
