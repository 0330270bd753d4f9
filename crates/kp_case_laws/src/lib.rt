// One symbolic step as definitions: what a part of a state is, how a variable is narrowed, what a case that is met says, how a
// left side goes against a part, pair by pair; where a rule fires on a part, which rules have their turn and where, what the next
// states are as patterns; runs of such steps, and how they end. To be read in the order Parts, Narrowings, Cases, Courses, Rows,
// Firing, Turns, NextStates, Runs. The functions here have no bodies: each carries laws of those definitions.
#![tactic(auto)]

pub mod cases;
pub mod courses;
pub mod rows;
pub mod turns;
