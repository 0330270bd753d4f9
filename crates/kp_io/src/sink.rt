ghost use Rattle.std.specs.Prelude.{◌≡◌, ◌<◌, ℕ, List, Option, IfOk, IsErr, length};
ghost use Rattle.std.specs.Io.{WritesAtMost};
ghost use Rattle.std.specs.Io.KnownBytes.{WriteAppends};
ghost use Rattle.kp_io.specs.Outside.{CountsFault};

use crate::fault::OutsideFault;

/// What bytes are put behind one another in.
pub trait Sink {
    /// The bytes that were put, where they are told.
    ghost held: { Self → Option (List ℕ) };

    /// How often the sink has failed, also for want of memory.
    ghost fault_count: { Self → ℕ };

    /// How often the sink has failed, also for want of memory.
    fn faults(&self) -> u64
        ensures { result ≡ fault_count self.now };

    /// Appends a front of the bytes, and says how many: at least one where there is one.
    fn put(&mut self, bytes: &[u8]) -> Result<usize, OutsideFault>
        ensures bound { WritesAtMost result bytes.now }
        ensures some { 0 < length bytes.now → IfOk result (λ n. 0 < n) }
        ensures bytes { WriteAppends (held self.old) (held self.new) result bytes.now }
        ensures faults { CountsFault (fault_count self.old) (fault_count self.new) (IsErr result) };
}
