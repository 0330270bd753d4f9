use kp_kore::Pattern;
use kp_results::Undecided;

/// What simplify finds of a state: one with the same instances and no open call; that it has no instance; or what isn't decided.
#[derive(Drop)]
pub enum Simplified {
    State { pattern: Box<Pattern> },
    Nothing,
    UndecidedStep { undecided: Undecided },
}
