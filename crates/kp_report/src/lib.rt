// The report of proofs: the line of each claim, in order. specs/Report.antt says what each line is.
#![tactic(auto)]

pub mod report;

pub use report::{Line, report_text};
