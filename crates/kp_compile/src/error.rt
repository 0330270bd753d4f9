use std::alloc::{AllocError, AllocFailed};

/// Why a pattern isn't compiled.
#[derive(Clone, Copy)]
pub enum CompileError {
    Memory,
    /// It isn't verified, or not of the form that is wanted, or has a foreign symbol.
    Shape,
}

impl From<AllocError> for CompileError {
    ghost use Rattle.std.specs.Prelude.{◌≡◌};
    ghost use Rattle.kp_compile.specs.declared.error.CompileError.TheVariants.{Memory};

    ghost from_gives = { λ _ e. e ≡ Memory };

    fn from(_error: AllocError) -> Self {
        CompileError::Memory
    }
}

impl<T: Drop> From<AllocFailed<T>> for CompileError {
    ghost use Rattle.std.specs.Prelude.{◌≡◌};
    ghost use Rattle.kp_compile.specs.declared.error.CompileError.TheVariants.{Memory};

    ghost from_gives = { λ _ e. e ≡ Memory };

    fn from(_error: AllocFailed<T>) -> Self {
        CompileError::Memory
    }
}
