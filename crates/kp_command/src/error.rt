ghost use Rattle.std.specs.Prelude.{◌≡◌};
ghost use Rattle.clap.specs.Kinds.{HasKind, Kinds};
ghost use Rattle.kp_command.specs.Commands.{HasCause};

use clap::Error;
use clap::error::ErrorKind;
use std::alloc::{AllocError, Global};

/// Why words are no command.
#[derive(Drop)]
pub enum WordsError {
    /// They ask for help, of the program or of a command, which is this text.
    Help(String),
    /// They spell none.
    Usage,
    Memory,
}

impl From<AllocError> for WordsError {
    ghost use Rattle.std.specs.Prelude.{◌≡◌};
    ghost use Rattle.kp_command.specs.declared.error.WordsError.TheVariants as error;

    ghost from_gives = { λ _ e. e ≡ error.Memory };

    fn from(_error: AllocError) -> Self {
        WordsError::Memory
    }
}

/// What clap's error tells.
pub fn error_of(alloc: Global, error: &Error) -> WordsError
    ensures { (kinds : Kinds) → HasKind kinds error.now → HasCause kinds result }
{
    match error.kind() {
        ErrorKind::OutOfMemory => WordsError::Memory,
        ErrorKind::DisplayHelp => match error.to_string(alloc) {
            Ok(text) => WordsError::Help(text),
            Err(_) => WordsError::Memory,
        },
        _ => WordsError::Usage,
    }
}
