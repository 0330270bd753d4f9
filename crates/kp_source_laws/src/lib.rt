// What is shown where a step leaves something undecided is sourced in the state and in rules: each of its atoms stands there, or
// becomes of what does, by form. The functions here have no bodies: each carries laws of the definitions in specs/.
#![tactic(auto)]

pub mod laws;
