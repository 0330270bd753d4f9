// Whether some values meet demands on unknowns: bounds of differences of whole numbers, truth values, and equality of
// tokens. Each kind has a table that is filled from the demands; `Tables::meet` asks all three, and `can_be_met`
// walks the choices of one way each. specs/Demands.antt says what demands and values are.
#![tactic(auto)]

mod classes;
mod demand;
mod known_bounds;
mod places;
mod search;
mod sized_demands;
mod tables;
mod truths;

pub use demand::Demand;
pub use search::can_be_met;
pub use sized_demands::Limits;
pub use tables::Tables;
