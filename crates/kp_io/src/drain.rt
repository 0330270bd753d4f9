ghost use Rattle.std.specs.Prelude.{◌≡◌, ◌↔◌, ◌<◌, ◌+◌, ◌-◌, ◌^◌, [], Some, IfOk, IsErr, IsErrOf, Contains, length, min};
ghost use Rattle.std.specs.Io.{WritesAtMost};
ghost use Rattle.std.specs.Io.KnownBytes.{WriteAppends};
ghost use Rattle.kp_io.specs.Outside.{CountsFault};

use crate::calls::Calls;
use crate::fault::OutsideFault;
use crate::sink::Sink;
use std::alloc::Global;

/// A sink in memory, of which the calls that a list names fail.
#[derive(Drop)]
pub struct Drain {
    held: Vec<u8>,
    calls: Calls,
}

impl Drain {
    /// An empty sink whose failing calls have these numbers, from 1.
    pub fn new(alloc: Global, failing: Vec<u64>) -> Drain
        ensures held { result.held.items ≡ [] }
        ensures failing { result.calls.failing.items ≡ failing.items }
        ensures made { result.calls.made ≡ 0 }
        ensures faults { result.calls.faults ≡ 0 }
    {
        Drain {
            held: Vec::new(alloc),
            calls: Calls::new(failing),
        }
    }

    /// What was put.
    pub fn bytes(&self) -> &[u8]
        ensures { result.now ≡ self.now.held.items }
    {
        &self.held
    }
}

impl Sink for Drain {
    ghost held = { λ s. Some s.held.items };

    ghost fault_count = { λ s. s.calls.faults };

    fn faults(&self) -> u64 {
        self.calls.faults()
    }

    fn put(&mut self, bytes: &[u8]) -> Result<usize, OutsideFault>
        ensures bound { WritesAtMost result bytes.now }
        ensures some { 0 < length bytes.now → IfOk result (λ n. 0 < n) }
        ensures bytes { WriteAppends (Some self.old.held.items) (Some self.new.held.items) result bytes.now }
        ensures faults { CountsFault self.old.calls.faults self.new.calls.faults (IsErr result) }
        ensures fails { IsErrOf result OutsideFault.Failed ↔ Contains self.old.calls.failing.items self.new.calls.made }
        ensures made { self.new.calls.made ≡ min (self.old.calls.made + 1) (2 ^ 64 - 1) }
        ensures failing { self.new.calls.failing ≡ self.old.calls.failing }
    {
        if self.calls.next_fails() {
            return Err(OutsideFault::Failed);
        }
        if self.held.extend_from_slice(bytes).is_err() {
            self.calls.count_fault();
            return Err(OutsideFault::Memory);
        }
        Ok(bytes.len())
    }
}

/// A sink in memory that never fails, but for want of memory.
#[derive(Drop)]
pub struct SureDrain {
    held: Vec<u8>,
    faults: u64,
}

impl SureDrain {
    /// An empty sink.
    pub fn new(alloc: Global) -> SureDrain
        ensures held { result.held.items ≡ [] }
        ensures faults { result.faults ≡ 0 }
    {
        SureDrain {
            held: Vec::new(alloc),
            faults: 0,
        }
    }

    /// What was put.
    pub fn bytes(&self) -> &[u8]
        ensures { result.now ≡ self.now.held.items }
    {
        &self.held
    }
}

impl Sink for SureDrain {
    ghost held = { λ s. Some s.held.items };

    ghost fault_count = { λ s. s.faults };

    fn faults(&self) -> u64 {
        self.faults
    }

    fn put(&mut self, bytes: &[u8]) -> Result<usize, OutsideFault>
        ensures bound { WritesAtMost result bytes.now }
        ensures some { 0 < length bytes.now → IfOk result (λ n. 0 < n) }
        ensures bytes { WriteAppends (Some self.old.held.items) (Some self.new.held.items) result bytes.now }
        ensures faults { CountsFault self.old.faults self.new.faults (IsErr result) }
        ensures sure { IsErrOf result OutsideFault.Failed → ⊥ }
    {
        if self.held.extend_from_slice(bytes).is_err() {
            self.faults = self.faults.saturating_add(1);
            return Err(OutsideFault::Memory);
        }
        Ok(bytes.len())
    }
}
