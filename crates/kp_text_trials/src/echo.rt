ghost use Rattle.std.specs.Prelude.{◌≡◌, ⊤, []};

use kp_conn::Answerer;
use std::alloc::{AllocError, Global};
use std::sync::Wait;

/// Answers each frame with itself, and `[]` not at all.
#[derive(Drop)]
pub(crate) struct Echo {}

impl Answerer for Echo {
    type Pass = u64;

    ghost has_seen = { λ e p o seen. seen.book ≡ [] };

    ghost is_pass = { λ e p. ⊤ };

    ghost answers = { λ e o before frame reply after. ⊤ };

    ghost begins = { λ e o before frame after. ⊤ };

    fn answer<R: Wait>(
        &self,
        _rt: &R,
        alloc: Global,
        pass: &mut u64,
        frame: &[u8],
    ) -> Result<Option<Vec<u8>>, AllocError> {
        *pass = pass.saturating_add(1);
        if frame == b"[]".as_slice() {
            return Ok(None);
        }
        Ok(Some(Vec::from_slice(alloc, frame)?))
    }
}
