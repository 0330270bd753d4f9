// What the definitions of the crates below say of the example definition (kp_toys) and of small patterns: each function here has
// no body and carries examples. They stand above these crates, so that none of them stands on an example.
#![tactic(auto)]

pub mod bounds;
pub mod cases;
pub mod causes;
pub mod claims;
pub mod clauses;
pub mod replies;
pub mod requests;
pub mod sources;
pub mod states;
pub mod verifying;
pub mod weights;
