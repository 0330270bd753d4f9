ghost use Rattle.std.specs.Prelude.{◌≡◌};
ghost use Rattle.kp_text.specs.Kinds.{kind_number};
ghost use Rattle.kp_text.specs.declared.fault.TextFailure.TheVariants.{Memory};

use std::alloc::{AllocError, AllocFailed};

/// What is wrong with a text.
#[derive(Clone, Copy, Debug, PartialEq, Eq)]
pub enum FaultKind {
    /// A byte that is no UTF-8, or with which no token begins.
    Byte,
    /// A token where another is needed.
    Token,
    /// A string with a bad escape, with no character's number, or with a bare line feed.
    String,
    /// A pattern or a sort that is nested too deep.
    Deep,
    /// The text ends too early.
    End,
}

impl FaultKind {
    /// The number by which the kind is told outside.
    pub fn number(self) -> u8
        ensures { result ≡ kind_number self }
    {
        match self {
            FaultKind::Byte => 1,
            FaultKind::Token => 2,
            FaultKind::String => 3,
            FaultKind::Deep => 4,
            FaultKind::End => 5,
        }
    }
}

/// The first fault of a text, and the offset of the byte where it stands.
#[derive(Clone, Copy, Debug, PartialEq, Eq)]
pub struct TextFault {
    pub at: usize,
    pub kind: FaultKind,
}

/// Why a part of a text wasn't read: for want of memory, or for a fault where so many bytes are left.
#[derive(Clone, Copy)]
pub enum TextFailure {
    Memory,
    Fault { left: usize, kind: FaultKind },
}

impl From<AllocError> for TextFailure {
    ghost from_gives = { λ _ e. e ≡ Memory };

    fn from(_e: AllocError) -> TextFailure {
        TextFailure::Memory
    }
}

impl<T: Drop> From<AllocFailed<T>> for TextFailure {
    ghost from_gives = { λ _ e. e ≡ Memory };

    fn from(_e: AllocFailed<T>) -> TextFailure {
        TextFailure::Memory
    }
}
