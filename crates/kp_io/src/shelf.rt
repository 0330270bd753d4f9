ghost use Rattle.std.specs.Prelude.{◌≡◌, ◌≤◌, ℕ, Option, IfOk, IfSome, IsErrOf, OnOk, option_map, length};
ghost use Rattle.kp_io.specs.Outside.{CountsFault, Names, HoldsMore, Stores, OthersStay, load_limit};

use crate::fault::{LoadFault, OutsideFault};
use std::alloc::Global;

/// The most bytes that `load` gives.
pub const LOAD_LIMIT: usize = 16_777_216;

/// Names, each with bytes.
pub trait Shelf {
    /// The names with what they hold, where they are told.
    ghost names: { Self → Option Names };

    /// How often the shelf has failed.
    ghost fault_count: { Self → ℕ };

    /// How often the shelf has failed.
    fn faults(&self) -> u64
        ensures { result ≡ fault_count self.now };

    /// What the name holds, and None exactly where it isn't there; TooLong exactly where that is more than the limit.
    fn load(&mut self, alloc: Global, name: &str) -> Result<Option<Vec<u8>>, LoadFault>
        ensures found { IfSome (names self.old) (λ held. IfOk result (λ bytes. option_map (λ v. v.items) bytes ≡ held name.now)) }
        ensures too_long { IsErrOf result LoadFault.TooLong → IfSome (names self.old) (λ held. HoldsMore load_limit (held name.now)) }
        ensures within { IfOk result (λ bytes. IfSome bytes (λ v. length v.items ≤ load_limit)) }
        ensures kept { names self.new ≡ names self.old }
        ensures faults { CountsFault (fault_count self.old) (fault_count self.new) (IsErrOf result LoadFault.Failed) };

    /// Has the name hold the bytes. The others stay, also where it fails: then this one may hold anything.
    fn store(&mut self, name: &str, bytes: &[u8]) -> Result<(), OutsideFault>
        ensures stored { OnOk result (Stores (names self.old) (names self.new) name.now bytes.now) }
        ensures others { OthersStay (names self.old) (names self.new) name.now }
        ensures faults { CountsFault (fault_count self.old) (fault_count self.new) (IsErrOf result OutsideFault.Failed) };
}
