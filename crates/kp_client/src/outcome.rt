use crate::link::LinkError;
use kp_graph::{NodeId, TreeFault, Why};
use std::alloc::AllocError;

/// How a proof ended.
#[derive(Drop)]
pub enum ProofEnd {
    /// Every leaf is covered.
    Passed,
    /// The node is stuck, and isn't covered.
    Failed { node: NodeId },
    /// The node of the least number that gets no arc, and why.
    Pending { node: NodeId, why: Why },
    /// The server refuses a question with this code.
    Refused { code: i64 },
}

/// How a claim is proved: by edges of one step, where nothing else is said.
#[derive(Clone, Copy)]
pub struct ProveOptions {
    /// How many steps an edge may have, from 1 to 10,000.
    pub max_depth: u64,
}

impl Default for ProveOptions {
    ghost use Rattle.std.specs.Prelude.{◌≡◌};

    ghost is_default = { λ o. o.max_depth ≡ 1 };

    fn default() -> Self {
        ProveOptions { max_depth: 1 }
    }
}

/// Why a proof was broken off.
#[derive(Clone, Copy, Debug)]
pub enum ProveFault {
    /// The link failed: its count of faults rose.
    LinkFault,
    Memory,
}

impl From<AllocError> for ProveFault {
    ghost use Rattle.std.specs.Prelude.{◌≡◌};
    ghost use Rattle.kp_client.specs.declared.outcome.ProveFault.TheVariants as faults;

    ghost from_gives = { λ _ e. e ≡ faults.Memory };

    fn from(_error: AllocError) -> Self {
        ProveFault::Memory
    }
}

impl From<TreeFault> for ProveFault {
    ghost use Rattle.std.specs.Prelude.{◌≡◌};
    ghost use Rattle.kp_client.specs.declared.outcome.ProveFault.TheVariants as faults;

    ghost from_gives = { λ _ e. e ≡ faults.Memory };

    fn from(_fault: TreeFault) -> Self {
        ProveFault::Memory
    }
}

impl From<LinkError> for ProveFault {
    ghost use Rattle.std.specs.Prelude.{◌≡◌};
    ghost use Rattle.kp_client.specs.Faults.{fault_of};

    ghost from_gives = { λ e f. f ≡ fault_of e };

    fn from(error: LinkError) -> Self {
        match error {
            LinkError::Failed => ProveFault::LinkFault,
            LinkError::Memory => ProveFault::Memory,
        }
    }
}
