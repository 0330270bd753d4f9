use kp_kore::Name;
use kp_signature::VerifyError;
use kp_text::TextFault;
use std::alloc::{AllocError, AllocFailed};

/// Why a claims file isn't read.
#[derive(Drop)]
pub enum ClaimFault {
    /// C1: the claim speaks of one path.
    OnePath,
    /// C2: a claim of another shape than is read, or a sort, a symbol or a rewrite axiom in the file.
    OtherShape,
    /// C6: a claim without a label.
    NoLabel,
    /// C7: the label of an earlier claim.
    RepeatedLabel(Name),
    /// C9: a side doesn't verify; never for want of memory.
    Unverified(VerifyError),
    /// C9: a foreign symbol or an alias stands in a side, by its name.
    ForeignSymbol(Name),
    /// C9: a side isn't one term and predicates.
    OtherSide,
    /// C3: a variable has a name that new variables may have.
    FreshName(Name),
    /// C8: the claim is used as a rule, and can't be one.
    NoRule,
    /// C4: the claim depends on a label that no claim of the file has.
    UnknownLabel(Name),
    /// C5: the claim of this label depends on itself, at once or over others.
    Circle(Name),
}

impl ClaimFault {
    ghost use Rattle.std.specs.Prelude.{◌≡◌};
    ghost use Rattle.kp_claims.specs.Faults.{fault_code};

    /// The code of the fault, as `C1`.
    pub fn code(&self) -> &'static str
        ensures { result.now ≡ fault_code self.now }
    {
        match self {
            ClaimFault::OnePath => "C1",
            ClaimFault::OtherShape => "C2",
            ClaimFault::NoLabel => "C6",
            ClaimFault::RepeatedLabel(_) => "C7",
            ClaimFault::Unverified(_) => "C9",
            ClaimFault::ForeignSymbol(_) => "C9",
            ClaimFault::OtherSide => "C9",
            ClaimFault::FreshName(_) => "C3",
            ClaimFault::NoRule => "C8",
            ClaimFault::UnknownLabel(_) => "C4",
            ClaimFault::Circle(_) => "C5",
        }
    }
}

/// Why no claims were read: the bytes are no claims file, or a sentence in them has a fault.
#[derive(Drop)]
pub enum ClaimError {
    Memory,
    Text(TextFault),
    Fault(ClaimFault),
}

impl From<AllocError> for ClaimError {
    ghost use Rattle.std.specs.Prelude.{◌≡◌};
    ghost use Rattle.kp_claims.specs.declared.fault.ClaimError.TheVariants.{Memory};

    ghost from_gives = { λ _ e. e ≡ Memory };

    fn from(_error: AllocError) -> Self {
        ClaimError::Memory
    }
}

impl<T: Drop> From<AllocFailed<T>> for ClaimError {
    ghost use Rattle.std.specs.Prelude.{◌≡◌};
    ghost use Rattle.kp_claims.specs.declared.fault.ClaimError.TheVariants.{Memory};

    ghost from_gives = { λ _ e. e ≡ Memory };

    fn from(_error: AllocFailed<T>) -> Self {
        ClaimError::Memory
    }
}
