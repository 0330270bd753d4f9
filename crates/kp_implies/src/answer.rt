// What implies finds of two sides, and why it finds nothing.
use kp_clauses::TermFault;
use kp_compile::CompileError;
use kp_kore::Pattern;
use kp_outward::WritingError;
use kp_results::Undecided;
use std::alloc::AllocError;

/// What implies finds of two sides.
#[derive(Drop)]
pub enum Implication {
    /// Some instance of the antecedent isn't one of the consequent.
    NotValid,
    /// Each is one, where the consequent's variables are as the substitution says.
    Valid { substitution: Box<Pattern> },
    /// The antecedent has no instance.
    Vacuous,
    Undecided { undecided: Undecided },
}

/// Why two sides aren't compared.
#[derive(Drop)]
pub enum ImpliesError {
    Memory,
    /// An `inj` would stand in what is written, and the signature has none.
    NoInjection,
}

impl From<AllocError> for ImpliesError {
    ghost use Rattle.std.specs.Prelude.{◌≡◌};
    ghost use Rattle.kp_implies.specs.declared.answer.ImpliesError.TheVariants.{Memory};

    ghost from_gives = { λ _ e. e ≡ Memory };

    fn from(_error: AllocError) -> Self {
        ImpliesError::Memory
    }
}

impl From<WritingError> for ImpliesError {
    ghost use Rattle.std.specs.Prelude.{◌≡◌};
    ghost use Rattle.kp_outward.specs.Errors.{IsNoInjection};
    ghost use Rattle.kp_implies.specs.declared.answer.ImpliesError.TheVariants.{NoInjection};

    ghost from_gives = { λ w e. e ≡ NoInjection → IsNoInjection w };

    fn from(error: WritingError) -> Self {
        match error {
            WritingError::Memory | WritingError::Shape => ImpliesError::Memory,
            WritingError::NoInjection => ImpliesError::NoInjection,
        }
    }
}

impl From<CompileError> for ImpliesError {
    ghost use Rattle.std.specs.Prelude.{◌≡◌};
    ghost use Rattle.kp_implies.specs.declared.answer.ImpliesError.TheVariants.{Memory};

    ghost from_gives = { λ _ e. e ≡ Memory };

    fn from(_error: CompileError) -> Self {
        ImpliesError::Memory
    }
}

impl From<TermFault> for ImpliesError {
    ghost use Rattle.std.specs.Prelude.{◌≡◌};
    ghost use Rattle.kp_implies.specs.declared.answer.ImpliesError.TheVariants.{Memory};

    ghost from_gives = { λ _ e. e ≡ Memory };

    fn from(_error: TermFault) -> Self {
        ImpliesError::Memory
    }
}
