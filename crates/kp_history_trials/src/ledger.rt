ghost use Rattle.std.specs.Prelude.{◌≡◌, ◌≤◌, [], IfOk};
ghost use Rattle.std.specs.Vec.{vec_capacity};

use kp_history::Archive;
use std::alloc::{AllocError, Global};

/// The most numbers.
pub const MOST: usize = 4096;

/// Numbers in the order in which they came.
#[derive(Drop)]
pub struct Ledger {
    pub numbers: Vec<u64>,
}

/// What a ledger is about.
#[derive(Drop)]
pub struct Anything;

impl Archive<u64, Anything> for Ledger {
    ghost use Rattle.std.specs.Prelude.{⊤, ◌≤◌};
    ghost use Rattle.std.specs.Vec.{vec_capacity};

    ghost entries = { λ ledger. ledger.numbers.items };

    ghost sound = { λ ledger. 4096 ≤ vec_capacity ledger.numbers };

    ghost legal = { λ about numbers. ⊤ };
}

impl Ledger {
    /// No numbers, and room for all.
    pub fn empty(alloc: Global) -> Result<Ledger, AllocError>
        ensures { IfOk result (λ ledger. (ledger.numbers.items ≡ []) × (4096 ≤ vec_capacity ledger.numbers)) }
    {
        Ok(Ledger {
            numbers: Vec::with_capacity(alloc, MOST)?,
        })
    }
}
