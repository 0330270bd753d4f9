// Loops over a source and a sink: all that is left, and all of a text.
ghost use Rattle.std.specs.Prelude.{◌≡◌, ◌<◌, ◌≤◌, ℕ, IfOk, IfSome, IsErr, IsErrOf, OnOk, OnErr, length, take};
ghost use Rattle.std.specs.Io.KnownBytes.{Appends, IsAtEnd};
ghost use Rattle.kp_io.specs.Outside.{CountsFault};

use crate::fault::{LoadFault, OutsideFault};
use crate::sink::Sink;
use crate::source::Source;
use std::alloc::Global;

/// Takes all that is left; TooLong where that is more than `limit` bytes.
pub fn read_all<S: Source>(
    alloc: Global,
    source: &mut S,
    limit: usize,
) -> Result<Vec<u8>, LoadFault>
    ensures whole { IfOk result (λ bytes. IfSome (S.left source.old) (λ left. bytes.items ≡ left)) }
    ensures within { IfOk result (λ bytes. length bytes.items ≤ limit) }
    ensures at_end { OnOk result (IsAtEnd (S.left source.new)) }
    ensures too_long { IsErrOf result LoadFault.TooLong → IfSome (S.left source.old) (λ left. limit < length left) }
    ensures faults { CountsFault (S.fault_count source.old) (S.fault_count source.new) (IsErrOf result LoadFault.Failed) }
{
    let mut bytes = Vec::new(alloc);
    let mut piece = [0u8; 4096];
    loop {
        let count = source.take(&mut piece)?;
        if count == 0 {
            return Ok(bytes);
        }
        if count > limit - bytes.len() {
            return Err(LoadFault::TooLong);
        }
        bytes.extend_from_slice(&piece[..count])?;
    }
}

/// Puts all the bytes; at `Err` a front of them may have been put.
pub fn put_all<K: Sink>(sink: &mut K, bytes: &[u8]) -> Result<(), OutsideFault>
    ensures whole { OnOk result (Appends (K.held sink.old) (K.held sink.new) bytes.now) }
    ensures front { OnErr result ((n : ℕ) × Appends (K.held sink.old) (K.held sink.new) (take n bytes.now)) }
    ensures faults { CountsFault (K.fault_count sink.old) (K.fault_count sink.new) (IsErr result) }
{
    let mut at = 0;
    while at < bytes.len() {
        at += sink.put(&bytes[at..])?;
    }
    Ok(())
}
