// Kore text: exactly the grammar of Kore is read, and a text that isn't of it is answered with its first fault.
#![tactic(auto)]

mod descent;
mod expected;
mod fault;
mod folds;
mod forms;
mod heads;
mod input;
mod keyword;
pub mod laws;
mod level;
mod lexer;
mod modules;
mod names;
mod nesting;
mod parts;
mod patterns;
mod read;
mod sentences;
mod sorts;
mod strings;
mod tail;

pub use fault::{FaultKind, TextFault};
pub use read::{ReadError, read_definition, read_module, read_modules, read_pattern};
