// Why a state isn't read, or a value isn't spelled.
use std::alloc::AllocError;

/// Why a pattern isn't read as a ground state.
#[derive(Drop)]
pub enum StateError {
    Memory,
    /// T1: a foreign symbol or an alias, by its name.
    ForeignSymbol { name: String },
    /// T2: not one ground term, or a number in it leaves signed 128 bits.
    OtherShape,
}

/// Why a value isn't spelled.
#[derive(Clone, Copy)]
pub enum SpellingError {
    Memory,
    /// An `inj` would stand in it, and the signature has none.
    NoInjection,
}

impl From<AllocError> for StateError {
    ghost use Rattle.std.specs.Prelude.{◌≡◌};
    ghost use Rattle.kp_compile.specs.declared.state_error.StateError.TheVariants as state;

    ghost from_gives = { λ _ e. e ≡ state.Memory };

    fn from(_error: AllocError) -> Self {
        StateError::Memory
    }
}

impl From<AllocError> for SpellingError {
    ghost use Rattle.std.specs.Prelude.{◌≡◌};
    ghost use Rattle.kp_compile.specs.declared.state_error.SpellingError.TheVariants as spelling;

    ghost from_gives = { λ _ e. e ≡ spelling.Memory };

    fn from(_error: AllocError) -> Self {
        SpellingError::Memory
    }
}
