// Clauses as choices of demands on unknowns: whole numbers, truth values and tokens, each kind numbered apart; kp_demands
// tells whether some values meet them.
#![tactic(auto)]

mod choices;
mod clause_demands;
mod comparing;
mod laws;
mod places;
mod tokens;
mod unknowns;
mod ways;

pub use choices::can_be_met_together;
pub use comparing::{ComparedPart, comparison_ways};
