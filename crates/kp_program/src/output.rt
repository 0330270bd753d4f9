// What is written on the output.
ghost use Rattle.std.specs.Prelude.{◌≤◌, IfErr, OnErr, OnOk};
ghost use Rattle.std.specs.Io.KnownBytes.{Appends};
ghost use Rattle.kp_io.specs.Outside.{Rose};
ghost use Rattle.kp_program.specs.Served.{GainsFront};
ghost use Rattle.kp_program.specs.Troubles.{IsLate};

use crate::trouble::Trouble;
use kp_io::{OutsideFault, Sink, put_all};

/// Writes a line.
pub fn put_line<O: Sink>(out: &mut O, line: &[u8]) -> Result<(), Trouble>
    ensures gained { OnOk result (Appends (O.held out.old) (O.held out.new) line.now) }
    ensures front { OnErr result (GainsFront (O.held out.old) (O.held out.new) line.now) }
    ensures late { IfErr result (IsLate (Rose (O.fault_count out.old) (O.fault_count out.new))) }
    ensures count { O.fault_count out.old ≤ O.fault_count out.new }
{
    match put_all(out, line) {
        Ok(()) => Ok(()),
        Err(OutsideFault::Failed) => Err(Trouble::Outside),
        Err(OutsideFault::Memory) => Err(Trouble::Memory),
    }
}
