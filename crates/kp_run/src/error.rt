use kp_ground::EvaluationError;
use std::alloc::{AllocError, AllocFailed};

/// Why a run isn't answered.
#[derive(Clone, Copy)]
pub enum RunError {
    Memory,
    /// T2: two rules with their turn, a rule that chooses, a number of more than 128 bits, a term deeper than 48, or a
    /// signature over which nothing is run. specs/Causes.antt says each.
    NotAnswered,
}

impl From<AllocError> for RunError {
    ghost use Rattle.std.specs.Prelude.{◌≡◌};
    ghost use Rattle.kp_run.specs.declared.error.RunError.TheVariants as running;

    ghost from_gives = { λ _ e. e ≡ running.Memory };

    fn from(_error: AllocError) -> Self {
        RunError::Memory
    }
}

impl From<EvaluationError> for RunError {
    ghost use Rattle.std.specs.Prelude.{◌≡◌};
    ghost use Rattle.kp_ground.specs.declared.evaluate.EvaluationError.TheVariants as evaluating;
    ghost use Rattle.kp_run.specs.declared.error.RunError.TheVariants as running;

    ghost from_gives = { λ x e. e ≡ running.NotAnswered → x ≡ evaluating.Number };

    fn from(error: EvaluationError) -> Self {
        match error {
            EvaluationError::Memory => RunError::Memory,
            EvaluationError::Number => RunError::NotAnswered,
        }
    }
}
