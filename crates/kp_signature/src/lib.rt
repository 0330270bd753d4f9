// The signature of a definition, and the sort of a pattern over it or its first fault. specs/Verify.antt says which
// fault of which node comes first; the functions of `examples` and `laws` have no body: each carries computed examples
// or a law. Which sorts lie below which: sorts by number, and what lies below each as spans of numbers, asked without
// memory; specs/Order.antt says what the index is.
#![tactic(auto)]

mod alone;
mod applications;
pub mod attributes;
mod closures;
mod declarations;
pub mod edges;
mod error;
pub mod function;
pub mod graph;
mod hooked;
mod hooks;
pub mod instance;
mod kinds;
pub mod laws;
mod literals;
pub mod meaning;
mod meanings;
mod names;
mod nodes;
pub mod numbering;
pub mod order;
mod pattern_sort;
mod ranking;
pub mod rules;
mod scope;
pub mod signature;
pub mod spans;
mod subsort;
mod subsorts;
pub mod symbols;
mod table;
mod text;
mod verification;

pub use error::VerifyError;
pub use function::Function;
pub use meaning::Meaning;
pub use meanings::meaning_of;
pub use pattern_sort::own_sort;
pub use rules::MOST_DEPTH;
pub use signature::Signature;
pub use subsort::Subsort;
pub use text::sort_text;
pub use verification::verify;
