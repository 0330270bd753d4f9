use kp_kore::{Name, Sort};
use std::alloc::AllocError;

/// Why a pattern has no sort: its first fault, or no memory. `fault_view` in specs/Faults.antt says which fault.
#[derive(Drop)]
pub enum VerifyError {
    Memory,
    /// V1: the sort isn't declared, or takes another number of arguments.
    UnknownSort { sort: Sort },
    /// V2.
    UnknownSymbol { name: Name },
    /// V3: the symbol takes another number of sorts or of arguments.
    WrongNumber { name: Name },
    /// V4.
    SortDiffers { expected: Sort, found: Sort },
    /// V5.
    NumberTooWide { text: Name },
    /// V6.
    TermTooDeep,
    /// V7.
    NoLiteral { text: Name },
}

impl From<AllocError> for VerifyError {
    ghost use Rattle.std.specs.Prelude.{◌≡◌};
    ghost use Rattle.kp_signature.specs.declared.error.VerifyError.TheVariants as error;

    ghost from_gives = { λ _ e. e ≡ error.Memory };

    fn from(_: AllocError) -> Self {
        VerifyError::Memory
    }
}
