use kp_kore::Pattern;

/// The bound of a run, and the ids of the rules to stop before and behind.
/// Source: the K Haskell backend's JSON-RPC documentation (execute: max-depth, cut-point-rules, terminal-rules).
#[derive(Drop)]
pub struct Options {
    pub bound: u64,
    pub cut_points: Vec<String>,
    pub terminals: Vec<String>,
}

/// A state: its term, and its predicate where it has one.
#[derive(Drop)]
pub struct ReplyState {
    pub term: Pattern,
    pub predicate: Option<Pattern>,
}

/// A next state: the id of the rule that leads to it (none where no rule fires), when it is this case, and the state.
/// Source: the K Haskell backend's JSON-RPC documentation (execute: next-states, rule-id, rule-predicate).
#[derive(Drop)]
pub struct NextState {
    pub rule: Option<String>,
    pub predicate: Pattern,
    pub state: ReplyState,
}

/// Why a run is aborted.
#[derive(Drop)]
pub enum Cause {
    /// The foreign rule of this id might apply.
    ForeignRule { id: String },
}

/// Why a run ended. A cut point has one next state, a branching state its next states, and the others none.
/// Source: the K Haskell backend's JSON-RPC documentation (execute: the seven reasons).
#[derive(Drop)]
pub enum Reason {
    /// The state has no instance.
    Vacuous,
    /// The run is as long as its bound.
    DepthBound,
    /// No rule fires.
    Stuck,
    /// There are two cases or more.
    Branching,
    /// This rule alone has its turn, and is one to stop before.
    CutPoint { rule: String },
    /// The last step is by this rule, which is one to stop behind.
    Terminal { rule: String },
    /// What follows isn't known.
    Aborted { cause: Cause },
}

/// The result of execute: after `depth` steps the run ended in `state`.
/// Source: the K Haskell backend's JSON-RPC documentation (execute).
#[derive(Drop)]
pub struct Executed {
    pub depth: u64,
    pub state: ReplyState,
    pub reason: Reason,
    pub next_states: Vec<NextState>,
}
