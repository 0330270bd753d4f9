// The replies to execute, simplify and implies over the rules of one module, a file each: the line of a right answer, or the
// code of the first fault. What requests ask of a signature is looked up once (`Prepared`). A state that is one ground term goes
// from value to value where that tells its run; all else goes by symbolic steps. specs/ServedTheory.antt says what is served,
// specs/Executed.antt, specs/Simplified.antt and specs/Implied.antt which replies are right.
#![tactic(auto)]

pub mod execute;
pub mod execute_by_steps;
pub mod execute_by_values;
mod failure;
pub mod implies;
pub mod prepared;
mod results;
mod rules;
mod sides;
pub mod simplify;

pub use execute::executed_line;
pub use failure::{PatternFailure, verify_failure};
pub use implies::implied_line;
pub use prepared::Prepared;
pub use results::result_of;
pub use rules::rules_of;
pub use sides::{ImpliesFailure, not_answered};
pub use simplify::{simplified_line, unverified_line};
