ghost use Rattle.std.specs.Prelude.{◌≡◌, ◌↔◌, ◌<◌, ◌+◌, ◌-◌, ◌^◌, Some, IsErr, IsOk, Contains, length, min};
ghost use Rattle.std.specs.Io.{ReadsAtMost};
ghost use Rattle.std.specs.Io.KnownBytes.{ReadConsumes};
ghost use Rattle.kp_io.specs.Outside.{CountsFault};

use crate::calls::Calls;
use crate::fault::Failed;
use crate::source::Source;
use std::collections::VecDeque;
use std::io::Read;

/// A source in memory, of which the calls that a list names fail.
#[derive(Drop)]
pub struct Bytes {
    left: VecDeque<u8>,
    calls: Calls,
}

impl Bytes {
    /// A source of these bytes whose failing calls have these numbers, from 1.
    pub fn new(bytes: Vec<u8>, failing: Vec<u64>) -> Bytes
        ensures left { result.left.items ≡ bytes.items }
        ensures failing { result.calls.failing.items ≡ failing.items }
        ensures made { result.calls.made ≡ 0 }
        ensures faults { result.calls.faults ≡ 0 }
    {
        Bytes {
            left: VecDeque::from(bytes),
            calls: Calls::new(failing),
        }
    }
}

impl Source for Bytes {
    ghost left = { λ s. Some s.left.items };

    ghost fault_count = { λ s. s.calls.faults };

    fn faults(&self) -> u64 {
        self.calls.faults()
    }

    fn take(&mut self, buf: &mut [u8]) -> Result<usize, Failed>
        ensures bound { ReadsAtMost result buf.new }
        ensures bytes { ReadConsumes (Some self.old.left.items) (Some self.new.left.items) result buf.new }
        ensures faults { CountsFault self.old.calls.faults self.new.calls.faults (IsErr result) }
        ensures fails { IsErr result ↔ Contains self.old.calls.failing.items self.new.calls.made }
        ensures made { self.new.calls.made ≡ min (self.old.calls.made + 1) (2 ^ 64 - 1) }
        ensures failing { self.new.calls.failing ≡ self.old.calls.failing }
    {
        if self.calls.next_fails() {
            return Err(Failed);
        }
        match self.left.read(buf) {
            Ok(count) => Ok(count),
            Err(_) => Err(Failed),
        }
    }
}

/// A source in memory that never fails.
#[derive(Drop)]
pub struct SureBytes {
    left: VecDeque<u8>,
}

impl SureBytes {
    /// A source of these bytes.
    pub fn new(bytes: Vec<u8>) -> SureBytes
        ensures { result.left.items ≡ bytes.items }
    {
        SureBytes {
            left: VecDeque::from(bytes),
        }
    }
}

impl Source for SureBytes {
    ghost left = { λ s. Some s.left.items };

    ghost fault_count = { λ s. 0 };

    fn faults(&self) -> u64 {
        0
    }

    fn take(&mut self, buf: &mut [u8]) -> Result<usize, Failed>
        ensures bound { ReadsAtMost result buf.new }
        ensures bytes { ReadConsumes (Some self.old.left.items) (Some self.new.left.items) result buf.new }
        ensures faults { CountsFault 0 0 (IsErr result) }
        ensures sure { IsOk result }
    {
        match self.left.read(buf) {
            Ok(count) => Ok(count),
            Err(_) => Err(Failed),
        }
    }
}
