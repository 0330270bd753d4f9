ghost use Rattle.std.specs.Prelude.{◌≡◌, ◌<◌, ℕ, List, Option, IsErr, length};
ghost use Rattle.std.specs.Io.{ReadsAtMost};
ghost use Rattle.std.specs.Io.KnownBytes.{ReadConsumes};
ghost use Rattle.kp_io.specs.Outside.{CountsFault};

use crate::fault::Failed;

/// Bytes that are taken from their front.
pub trait Source {
    /// The bytes that are left, where they are told.
    ghost left: { Self → Option (List ℕ) };

    /// How often the source has failed.
    ghost fault_count: { Self → ℕ };

    /// How often the source has failed.
    fn faults(&self) -> u64
        ensures { result ≡ fault_count self.now };

    /// Takes the next bytes of what is left into `buf`, and says how many: none exactly where nothing is left.
    fn take(&mut self, buf: &mut [u8]) -> Result<usize, Failed>
        requires { 0 < length buf.old }
        ensures bound { ReadsAtMost result buf.new }
        ensures bytes { ReadConsumes (left self.old) (left self.new) result buf.new }
        ensures faults { CountsFault (fault_count self.old) (fault_count self.new) (IsErr result) };
}
