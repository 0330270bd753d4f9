// What the program does: `run` obeys the words of a command line, which kp_command reads, over a shelf, an input and
// outputs. specs/Served.antt and specs/Proofs.antt say what a command does, specs/Statuses.antt how the program ends
// otherwise.
#![tactic(auto)]

mod claims;
mod definition;
mod local;
mod output;
mod program;
mod prover;
mod trouble;

pub use program::run;
