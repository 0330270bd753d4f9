use kp_kore::Name;
use kp_replies::AdditionFault;
use std::alloc::{AllocError, AllocFailed};

/// Why a module isn't added.
#[derive(Drop)]
pub enum AdditionError {
    Memory,
    /// Code 8: no module that can be added.
    Bad(AdditionFault),
    /// Code 9: the entry of this number, counted from 1, binds the name to another text; 0 is the definition.
    Duplicate { entry: u64, name: Name },
}

impl From<AllocError> for AdditionError {
    ghost use Rattle.std.specs.Prelude.{◌≡◌};
    ghost use Rattle.kp_additions.specs.declared.error.AdditionError.TheVariants.{Memory};

    ghost from_gives = { λ _ e. e ≡ Memory };

    fn from(_error: AllocError) -> Self {
        AdditionError::Memory
    }
}

impl<T: Drop> From<AllocFailed<T>> for AdditionError {
    ghost use Rattle.std.specs.Prelude.{◌≡◌};
    ghost use Rattle.kp_additions.specs.declared.error.AdditionError.TheVariants.{Memory};

    ghost from_gives = { λ _ e. e ≡ Memory };

    fn from(_error: AllocFailed<T>) -> Self {
        AdditionError::Memory
    }
}
