// The end of a run.

use kp_step::{Next, StepOutcome};
use kp_symbolic::State;
use kp_unify::Part;

/// Why a run ends: its last state has no instance; it is as long as its bound; no rule fires, with the parts that remain; there
/// are two cases or more; one rule alone has its turn, and is one to stop before, with the state that follows; the last step was
/// by the rule of this place, which is one to stop behind; or what follows isn't known, with what the step told.
#[derive(Drop)]
pub enum Ending {
    Vacuous,
    DepthBound,
    Stuck {
        remainder: Vec<Part>,
    },
    Branching {
        nexts: Vec<Next>,
        remainder: Vec<Part>,
    },
    CutPoint {
        next: Next,
    },
    Terminal {
        rule: usize,
    },
    Aborted {
        why: StepOutcome,
    },
}

/// The end of a run: the last state, after so many steps, and why it ends. `Fresh` with each number from 1 below the next one is
/// in use.
#[derive(Drop)]
pub struct Run {
    pub state: State,
    pub next: u64,
    pub depth: u64,
    pub ending: Ending,
}
