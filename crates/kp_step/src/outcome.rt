// What one symbolic step finds.

use crate::part_answers::UndecidedClauses;
use kp_symbolic::State;
use kp_unify::Part;
use std::sync::Arc;

/// A part where the rule at this place has its turn, and the state that follows from it. `Fresh` with each number from 1 below
/// the next one is in use.
#[derive(Drop)]
pub struct Next {
    pub rule: usize,
    pub part: Part,
    pub state: State,
    pub next: u64,
}

/// What leaves the bounds of what is computed: a call of two numbers whose number has more than 128 bits, or a term that has more
/// levels than a term may have.
#[derive(Drop)]
pub enum StepLimit {
    Number {
        symbol: Arc<String>,
        first: i128,
        second: i128,
    },
    Depth {
        levels: u64,
    },
}

/// What a step finds of a state: that it has no instance; the next states of each rule that has its turn on some, by turn, and
/// the parts where no rule fires; clauses that aren't decided, with the place of the rule whose part they are of; the place of
/// a foreign rule that may rewrite an instance; or a limit.
#[derive(Drop)]
pub enum StepOutcome {
    Empty,
    Cases {
        nexts: Vec<Next>,
        remainder: Vec<Part>,
    },
    Undecided {
        told: UndecidedClauses,
        rule: Option<usize>,
    },
    Foreign {
        rule: usize,
    },
    Limited {
        limit: StepLimit,
    },
}
