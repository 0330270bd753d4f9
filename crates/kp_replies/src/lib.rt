// Replies with results: the seven results of execute with their next states, a run that is aborted by what isn't decided,
// those of implies, simplify and add-module, and the errors that these find. What is written is specs/Written.antt,
// specs/Aborted.antt and specs/Failures.antt, what a client reads of a line is specs/Read.antt; laws.rt says that what was
// written is read back.
#![tactic(auto)]

mod aborted;
mod executed;
mod failure;
mod implied;
pub mod laws;
mod members;
mod named;
mod patterns;
mod read_states;
mod states;
mod told;
mod written;

pub use aborted::aborted_text;
pub use failure::{AdditionFault, Failure, SidesFault, failure_text};
pub use named::{is_module_id, is_rule_id};
pub use told::{Method, ServerReply, reply_of};
pub use written::{added_text, executed_text, implied_text, simplified_text};
