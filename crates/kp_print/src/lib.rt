// Kore text is printed: the other half of `kp_text`, whose definitions of tokens, grammar and spelling its laws cite.
// The text of a pattern or of a module is exactly that of specs/Printed.antt. Where any text spells the argument, the
// printed one does, so reading it gives the argument again.
#![tactic(auto)]

pub mod laws;
mod modules;
mod names;
mod patterns;
mod print;
mod sentences;
mod sorts;
mod strings;

pub use print::{print_module, print_pattern};
