use std::alloc::{AllocError, AllocFailed};

/// Why a module can't be added. Of several faults M6 comes first, then the least number.
#[derive(Drop)]
pub enum ExtendError {
    Memory,
    /// M6: a rewrite axiom has a verify fault, foreign or not; its number among the module's axioms, from 1.
    RuleFault(usize),
    /// M7: a sort, a symbol, an alias or a claim; its number among the module's sentences, from 1.
    Declaration(usize),
}

impl From<AllocError> for ExtendError {
    ghost use Rattle.std.specs.Prelude.{◌≡◌};
    ghost use Rattle.kp_modules.specs.declared.extend_error.ExtendError.TheVariants.{Memory};

    ghost from_gives = { λ _ e. e ≡ Memory };

    fn from(_error: AllocError) -> Self {
        ExtendError::Memory
    }
}

impl<T: Drop> From<AllocFailed<T>> for ExtendError {
    ghost use Rattle.std.specs.Prelude.{◌≡◌};
    ghost use Rattle.kp_modules.specs.declared.extend_error.ExtendError.TheVariants.{Memory};

    ghost from_gives = { λ _ e. e ≡ Memory };

    fn from(_error: AllocFailed<T>) -> Self {
        ExtendError::Memory
    }
}
