// Claims files whole: claims with variables, predicates, circularities and dependencies. kp_claim_sentences says what a
// claim states and which fault of a file comes first. Claims are written as modules of rules here, which a prover adds
// to a definition.
#![tactic(auto)]

mod circle;
mod ground;
mod labels;
pub mod laws;
mod module;
mod read;
mod used;

pub use ground::read_plain_claims;
pub use module::{claim_axiom, module_text};
pub use read::read_claims;
