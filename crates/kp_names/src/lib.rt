// Names that were met, for crates that ask whether one was met before: a map whose keys are the names.
#![tactic(auto)]

pub mod names;
