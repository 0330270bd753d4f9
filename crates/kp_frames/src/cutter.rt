ghost use Rattle.std.specs.Prelude.{◌≡◌, ◌==◌, ◌||◌, ℕ, List, [], ◌++◌, length, false, is_err, IfOk, OnErr, IsErr, IsTrue};
ghost use Rattle.kp_frames.specs.Held.{Cutting, HasCut, IsHeld, frames_of};

use crate::held::Held;
use std::alloc::{AllocError, Global};
use std::marker::Model;

/// The longest frame, in bytes.
pub const MOST_FRAME: usize = 4_194_304;

/// Cuts a stream of bytes, piece by piece, into frames of at most `limit` bytes.
#[derive(Drop)]
pub struct Cutter {
    limit: usize,
    held: Held,
    is_out_of_memory: bool,
}

impl Model for Cutter {
    ghost Value = { Cutting };

    ghost view = { λ c. record { limit = c.limit; rest = c.held.rest.items; is_full = length c.held.rest.items == c.limit; is_out_of_memory = c.is_out_of_memory } };

    ghost invariant = { λ c. IsHeld c.limit c.held.rest.items c.held.nest };
}

impl Cutter {
    /// A cutter of which no byte was fed.
    pub fn new(alloc: Global, limit: usize) -> Cutter
        ensures limit { result.limit ≡ limit }
        ensures cut { HasCut result [] [] }
        ensures memory { result.is_out_of_memory ≡ false }
    {
        Cutter {
            limit,
            held: Held::new(alloc),
            is_out_of_memory: false,
        }
    }

    /// The frames that the piece ends. Once memory ran out, nothing is held any more and each call fails.
    pub fn feed(&mut self, alloc: Global, piece: &[u8]) -> Result<Vec<Vec<u8>>, AllocError>
        ensures limit { self.new.limit ≡ self.old.limit }
        ensures cut { IfOk result (λ ended. let ended' = frames_of ended.items in (bytes : List ℕ) → (frames : List (List ℕ)) → HasCut self.old bytes frames → HasCut self.new (bytes ++ piece.now) (frames ++ ended')) }
        ensures nothing { OnErr result (self.new.rest ≡ []) }
        ensures memory { self.new.is_out_of_memory ≡ (self.old.is_out_of_memory || is_err result) }
        ensures stays { IsTrue self.old.is_out_of_memory → IsErr result }
    {
        if self.is_out_of_memory {
            self.held = Held::new(alloc);
            return Err(AllocError);
        }
        match self.held.take_piece(alloc, self.limit, piece) {
            Ok(frames) => Ok(frames),
            Err(error) => {
                self.held = Held::new(alloc);
                self.is_out_of_memory = true;
                Err(error)
            }
        }
    }

    /// Whether the rest has `limit` bytes: nothing more is kept.
    pub fn is_full(&self) -> bool
        ensures full { result ≡ self.now.is_full }
        ensures length { result ≡ (length self.now.rest == self.now.limit) }
    {
        self.held.rest.len() == self.limit
    }

    /// The rest: the bytes of the frame that isn't ended.
    pub fn finish(self) -> Vec<u8>
        ensures { result.items ≡ self.rest }
    {
        self.held.rest
    }
}
