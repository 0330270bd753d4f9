// The example definition examples/toys/toys.kore as data (specs/Toys), the rules that it means (specs/ToysTheory),
// and what the definitions of kp_kore say of it: each function here has no body and carries examples.
#![tactic(auto)]

pub mod implying;
pub mod reading;
pub mod replying;
pub mod running;
pub mod stepping;
