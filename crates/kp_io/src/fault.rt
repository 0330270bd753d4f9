use std::alloc::AllocError;

/// The outside failed: the count of faults of what was called rose.
#[derive(Clone, Copy, Debug, PartialEq, Eq)]
pub struct Failed;

/// Why a call on the outside gave nothing.
#[derive(Clone, Copy, Debug, PartialEq, Eq)]
pub enum OutsideFault {
    Failed,
    Memory,
}

/// Why bytes were not loaded.
#[derive(Clone, Copy, Debug, PartialEq, Eq)]
pub enum LoadFault {
    Failed,
    TooLong,
    Memory,
}

impl From<AllocError> for OutsideFault {
    ghost use Rattle.std.specs.Prelude.{◌≡◌};
    ghost use Rattle.kp_io.specs.declared.fault.OutsideFault.TheVariants as outside;

    ghost from_gives = { λ _ e. e ≡ outside.Memory };

    fn from(_: AllocError) -> Self {
        OutsideFault::Memory
    }
}

impl From<AllocError> for LoadFault {
    ghost use Rattle.std.specs.Prelude.{◌≡◌};
    ghost use Rattle.kp_io.specs.declared.fault.LoadFault.TheVariants as load;

    ghost from_gives = { λ _ e. e ≡ load.Memory };

    fn from(_: AllocError) -> Self {
        LoadFault::Memory
    }
}

impl From<Failed> for LoadFault {
    ghost use Rattle.std.specs.Prelude.{◌≡◌};
    ghost use Rattle.kp_io.specs.declared.fault.LoadFault.TheVariants as load;

    ghost from_gives = { λ _ e. e ≡ load.Failed };

    fn from(_: Failed) -> Self {
        LoadFault::Failed
    }
}
