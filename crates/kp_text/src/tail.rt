ghost use Rattle.std.specs.Prelude.{◌≡◌};
ghost use Rattle.kp_text.specs.Tokens.{tail_kind};

use crate::fault::FaultKind;

/// What follows the longest front of a text that is UTF-8.
#[derive(Clone, Copy)]
pub enum Tail {
    /// Nothing: the text is UTF-8.
    Whole,
    /// A sequence that no further bytes make good.
    Bad,
    /// The beginning of a character, which the end cuts.
    Cut,
}

impl Tail {
    /// The fault in a string or a comment that reaches the tail.
    pub fn kind(self) -> FaultKind
        ensures { result ≡ tail_kind self }
    {
        match self {
            Tail::Bad => FaultKind::Byte,
            Tail::Whole | Tail::Cut => FaultKind::End,
        }
    }
}
