// The command line: words are read as a command by clap, or refused, for help, for another cause, or for want of memory.
// specs/Described.antt is the command line as clap describes one, specs/Words.antt says which words spell a command.
#![tactic(auto)]

mod command;
mod described;
mod error;
pub mod laws;
mod reading;

pub use command::{Command, Prove, Stdio};
pub use error::WordsError;
pub use reading::command_of;
