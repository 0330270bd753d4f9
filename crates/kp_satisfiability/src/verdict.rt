use kp_limits::Weighed;
use kp_symbolic::Clause;

/// What is answered to the question whether a state's clauses can be true.
#[derive(Drop)]
pub enum Verdict {
    SomeValuation,
    NoValuation,
    /// The clauses that are shown, with the weight that is passed, if one is.
    Undecided {
        shown: Vec<Clause>,
        over: Option<Weighed>,
    },
}
