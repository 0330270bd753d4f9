// The prover of reachability claims over a link to a server: it builds the tree of a proof by rounds of questions.
// specs/Links.antt says what a link is, specs/Rounds.antt what each round asks and makes of the replies. Where a link serves a theory, its replies are right for it, and a claim that passes holds in it.
#![tactic(auto)]

mod cover;
mod ending;
mod hear;
mod link;
mod outcome;
pub mod proving;
mod round;
mod script;
mod steps;

pub use link::{Link, LinkError};
pub use outcome::{ProofEnd, ProveFault, ProveOptions};
pub use proving::{prove, prove_claim};
pub use script::{ScriptLink, Spoken};
