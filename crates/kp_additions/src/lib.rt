// What `add-module` does, apart from JSON: a text is read, its imports are looked up, its rule set is made, and it is
// entered in the book. specs/Added.antt says what is added, and why a text isn't.
#![tactic(auto)]

mod adding;
mod error;
mod imports;
pub mod laws;

pub use adding::add_module;
pub use error::AdditionError;
