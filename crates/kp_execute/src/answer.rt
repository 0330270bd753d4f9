// What execute answers, and why it refuses.

use kp_results::{Executed, ReplyState, Undecided};
use std::alloc::AllocError;

/// What execute answers: the result of a run; or, after so many steps, in this state, what isn't decided.
/// Source: the K Haskell backend's JSON-RPC documentation (execute: the seven reasons).
#[derive(Drop)]
pub enum Answer {
    Executed {
        executed: Executed,
    },
    UndecidedStep {
        depth: u64,
        state: ReplyState,
        undecided: Undecided,
    },
}

/// Why a pattern isn't executed.
#[derive(Drop)]
pub enum ExecuteError {
    Memory,
    /// T1: a foreign symbol or an alias, by its name.
    ForeignSymbol { name: String },
    /// T2: not one term and predicates.
    OtherShape,
    /// An `inj` would stand in what is written, and the signature has none.
    NoInjection,
    /// A step is refused: a sum can't be written, or a foreign rule's left side has one name at two sorts that share a value, and
    /// no sort has all values that they share.
    NoStep,
}

impl From<AllocError> for ExecuteError {
    ghost use Rattle.std.specs.Prelude.{◌≡◌};
    ghost use Rattle.kp_execute.specs.declared.answer.ExecuteError.TheVariants.{Memory};

    ghost from_gives = { λ _ e. e ≡ Memory };

    fn from(_error: AllocError) -> Self {
        ExecuteError::Memory
    }
}
