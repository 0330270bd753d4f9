// Why a state isn't written.
use kp_compile::CompileError;
use std::alloc::AllocError;

/// Why a state, or its predicate, isn't written.
#[derive(Clone, Copy)]
pub enum WritingError {
    Memory,
    /// An `inj` would stand in it, and the signature has none.
    NoInjection,
    /// A number in a predicate that isn't opened can't be read.
    Shape,
}

impl From<AllocError> for WritingError {
    ghost use Rattle.std.specs.Prelude.{◌≡◌};
    ghost use Rattle.kp_outward.specs.declared.error.WritingError.TheVariants.{Memory};

    ghost from_gives = { λ _ e. e ≡ Memory };

    fn from(_error: AllocError) -> Self {
        WritingError::Memory
    }
}

impl From<CompileError> for WritingError {
    ghost use Rattle.std.specs.Prelude.{◌≡◌};
    ghost use Rattle.kp_compile.specs.declared.error.CompileError.TheVariants.{Memory as no_memory};
    ghost use Rattle.kp_outward.specs.declared.error.WritingError.TheVariants.{Memory};
    ghost use Rattle.kp_outward.specs.Errors.{IsNoInjection};

    ghost from_gives = { λ error e. (error ≡ no_memory → e ≡ Memory) × ¬ IsNoInjection e };

    fn from(error: CompileError) -> Self {
        match error {
            CompileError::Memory => WritingError::Memory,
            CompileError::Shape => WritingError::Shape,
        }
    }
}
