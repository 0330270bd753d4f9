// Which modules a definition's main module reaches, and in what order; what is declared twice.
#![tactic(auto)]

pub mod duplicates;
pub mod fault;
pub mod imports;
pub mod names;
pub mod repeated;
pub mod unknown;
pub mod walk;

pub use fault::{LoadError, ModuleFault};
