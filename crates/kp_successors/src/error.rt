use kp_compile::SpellingError;
use kp_ground::EvaluationError;
use std::alloc::AllocError;

/// Why the successors of a configuration aren't told.
#[derive(Drop)]
pub enum GroundError {
    Memory,
    /// G1: a number of more than 128 bits.
    Number,
    /// G2: the foreign rule of this id might rewrite the configuration.
    Foreign { id: String },
    /// The pattern isn't a closed term of symbols with a meaning, or the signature doesn't keep values apart.
    Unread,
    /// A successor has an `inj`, and the signature has none.
    NoInjection,
}

impl From<AllocError> for GroundError {
    ghost use Rattle.std.specs.Prelude.{◌≡◌};
    ghost use Rattle.kp_successors.specs.declared.error.GroundError.TheVariants as ground;

    ghost from_gives = { λ _ e. e ≡ ground.Memory };

    fn from(_error: AllocError) -> Self {
        GroundError::Memory
    }
}

impl From<EvaluationError> for GroundError {
    ghost use Rattle.kp_successors.specs.Errors.{IsFromEvaluation};

    ghost from_gives = { λ x e. IsFromEvaluation x e };

    fn from(error: EvaluationError) -> Self {
        match error {
            EvaluationError::Memory => GroundError::Memory,
            EvaluationError::Number => GroundError::Number,
        }
    }
}

impl From<SpellingError> for GroundError {
    ghost use Rattle.kp_successors.specs.Errors.{IsFromSpelling};

    ghost from_gives = { λ x e. IsFromSpelling x e };

    fn from(error: SpellingError) -> Self {
        match error {
            SpellingError::Memory => GroundError::Memory,
            SpellingError::NoInjection => GroundError::NoInjection,
        }
    }
}
