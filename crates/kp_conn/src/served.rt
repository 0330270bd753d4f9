ghost use Rattle.std.specs.Prelude.{◌≡◌, ◌↔◌};
ghost use Rattle.kp_io.specs.declared.fault.OutsideFault.TheVariants.{Failed, Memory as OutOfMemory};
ghost use Rattle.kp_conn.specs.declared.served.Served.TheVariants.{WriteFault, Memory};

use kp_io::OutsideFault;

/// How a connection ended.
#[derive(Clone, Copy, Debug, PartialEq, Eq)]
pub enum Served {
    /// The source is at its end, and no bracketed frame is open: so many frames were read.
    Ended { frames: u64 },
    /// The source ended within a bracketed frame, which was answered as one that can't be read.
    Truncated,
    /// A frame isn't ended after 4,194,304 bytes; it was answered as one that can't be read.
    TooLong,
    /// 1,099,511,627,776 bytes were taken.
    Spent,
    /// The source failed.
    ReadFault,
    /// The sink failed.
    WriteFault,
    Memory,
}

/// What ends a connection that can't write.
pub fn broken_by(fault: OutsideFault) -> Served
    ensures failed { (result ≡ WriteFault) ↔ (fault ≡ Failed) }
    ensures memory { (result ≡ Memory) ↔ (fault ≡ OutOfMemory) }
{
    match fault {
        OutsideFault::Failed => Served::WriteFault,
        OutsideFault::Memory => Served::Memory,
    }
}
