use crate::form::LiteralForm;
use kp_symbolic::Literal;

/// A literal with what it says, where it is decided. `read_view` in specs/Readings.antt says which read literal of
/// kp_symbolic it is.
#[derive(Clone, Copy)]
pub struct ReadLiteral<'a> {
    pub literal: &'a Literal,
    pub form: Option<LiteralForm<'a>>,
}
