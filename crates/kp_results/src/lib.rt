// What execute, implies and simplify find, as plain data over patterns: the engine answers it, the server writes it and
// a client reads it. specs/Results.antt has the parts and says which result of the theory they mean.
#![tactic(auto)]

mod executed;
mod implied;
mod undecided;

pub use executed::{Cause, Executed, NextState, Options, Reason, ReplyState};
pub use implied::Implied;
pub use undecided::{Limit, Undecided, Weight};
