// Laws of symbolic states that need only the definitions of kp_symbolic: what solving keeps from the first state to the
// last, what is written for states, which instances the state has that a pattern is read as, and that no call is left in what
// is written but those whose value leaves 128 bits. They stand above it, so that none of the crates on it waits for them.
#![tactic(auto)]

pub mod computed;
pub mod deciding;
pub mod kept;
pub mod solving;
pub mod writing;
