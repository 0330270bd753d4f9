// Why two sides of an implication have no answer.
ghost use Rattle.std.specs.Prelude.{◌≡◌};
ghost use Rattle.kp_rpc.specs.Reply.{not_verified, other_shape};
ghost use Rattle.kp_rpc.specs.View.{state_fault_view};

use crate::failure::PatternFailure;
use kp_rpc::{PatternFault, StateFault};
use kp_sides::ComparisonFault;
use std::alloc::AllocError;

/// Why two sides have no answer.
#[derive(Drop)]
pub enum ImpliesFailure {
    /// Codes 1 and 2, or want of memory.
    Side(PatternFailure),
    /// Code 4.
    Sides(ComparisonFault),
}

impl From<AllocError> for ImpliesFailure {
    ghost use Rattle.std.specs.Prelude.{◌≡◌};
    ghost use Rattle.kp_methods.specs.declared.failure.PatternFailure.TheVariants as failure;
    ghost use Rattle.kp_methods.specs.declared.sides.ImpliesFailure.TheVariants as sides;

    ghost from_gives = { λ _ e. e ≡ sides.Side failure.Memory };

    fn from(_error: AllocError) -> Self {
        ImpliesFailure::Side(PatternFailure::Memory)
    }
}

/// T2.
pub fn not_answered() -> StateFault
    ensures { state_fault_view result ≡ not_verified other_shape }
{
    StateFault::Verify(PatternFault::OtherShape)
}
