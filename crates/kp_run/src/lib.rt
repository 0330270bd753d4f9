// Runs of a rule set from one ground configuration: one step, and the run up to its bound. A step is the only one of
// the theory that the rule set is; specs/Runs.antt says what a run is. Beside a value stand its depths, a tree of the value's
// own shape that shares what the value shares: how deep the state after a step is written is told by those of the parts that
// the step builds.
#![tactic(auto)]

mod binding_depths;
mod constructor_depths;
mod depths;
mod error;
mod firing;
mod fit;
pub mod laws;
mod right_side;
mod run;
mod step;
mod value_depths;

pub use binding_depths::bound_depths;
pub use constructor_depths::is_shallow_at;
pub use depths::Depths;
pub use error::RunError;
pub use right_side::right_depths;
pub use run::{GroundEnding, GroundRun, execute};
pub use step::{GroundNext, foreign_on, next_state};
pub use value_depths::depths_of;
