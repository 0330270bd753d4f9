ghost use Rattle.std.specs.Prelude.{◌≡◌, ℕ, List, [], ◌∷◌, Some, IfOk, OnErr, IsErrOf};
ghost use Rattle.kp_io.specs.Outside.{Rose};
ghost use Rattle.kp_client.specs.Links.{LinkState, Makes};

use std::alloc::{AllocError, Global};

/// Why a link gave no reply.
#[derive(Clone, Copy)]
pub enum LinkError {
    /// The link failed: its count of faults rose.
    Failed,
    Memory,
}

impl From<AllocError> for LinkError {
    ghost use Rattle.std.specs.Prelude.{◌≡◌};
    ghost use Rattle.kp_client.specs.declared.link.LinkError.TheVariants as errors;

    ghost from_gives = { λ _ e. e ≡ errors.Memory };

    fn from(_error: AllocError) -> Self {
        LinkError::Memory
    }
}

/// A link to a server.
pub trait Link {
    /// The theories that its replies are right for, the exchanges so far and the replies to come, where they are told,
    /// and how often it failed.
    ghost told: { Self → LinkState };

    /// How often the link has failed.
    fn faults(&self) -> u64
        ensures { result ≡ (told self.now).faults };

    /// Sends a frame, and gives the line that replies to it.
    fn ask(&mut self, alloc: Global, frame: &[u8]) -> Result<Vec<u8>, LinkError>
        ensures asked { IfOk result (λ reply. Makes (told self.old) (told self.new) (record { frame = frame.now; reply = reply.items } ∷ [])) }
        ensures nothing_asked { OnErr result (Makes (told self.old) (told self.new) []) }
        ensures failed { IsErrOf result LinkError.Failed → Rose (told self.old).faults (told self.new).faults }
        // a link that knows its replies fails only where none is left
        ensures at_end { (later : List (List ℕ)) → (told self.old).replies ≡ Some later → IsErrOf result LinkError.Failed → later ≡ [] };
}
