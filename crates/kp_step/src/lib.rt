// One symbolic step: where a rule fires on a part of a state and the parts where it doesn't (its left side against the part, the
// clauses of its condition, and their opposite), the next states by the rules that have their turn on the state's instances, and
// the remainder where no rule fires. What the calls promise stands by name in specs/Promises and specs/FiringPromises; the
// definitions are to be read in the order Conditions, Opposites, Laws, ReadyParts, Silent, Firings, Remainders, Outcomes.
#![tactic(auto)]

pub mod call_equalities;
pub mod counted_variables;
pub mod excluding;
pub mod firing;
pub mod foreign;
pub mod kept_parts;
pub mod laws;
pub mod left_variables;
pub mod limits;
pub mod lowered_sides;
pub mod met_rules;
pub mod new_variables;
pub mod next_states;
pub mod opposite;
pub mod outcome;
pub mod part_answers;
pub mod placed_variables;
pub mod remainders;
pub mod right_side;
pub mod rules;
pub mod stepping;
pub mod turns;

pub use excluding::exclude;
pub use firing::{Firing, all_clauses, fire, lent};
pub use kept_parts::constrained;
pub use outcome::{Next, StepLimit, StepOutcome};
pub use stepping::step;
