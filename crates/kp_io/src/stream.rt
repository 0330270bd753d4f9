// Adapters over std's readers and writers, as standard input and output, files and connections.
ghost use Rattle.std.specs.Prelude.{◌≡◌};

use crate::fault::{Failed, OutsideFault};
use crate::sink::Sink;
use crate::source::Source;
use std::io::{Read, Write};

/// A reader of std as a source. It tells what is left where the reader does, as none of the system's does.
#[derive(Drop)]
pub struct Incoming<R: Read + Drop> {
    reader: R,
    faults: u64,
}

impl<R: Read + Drop> Incoming<R> {
    /// A source over the reader, with no fault so far.
    pub fn new(reader: R) -> Incoming<R>
        ensures reader { result.reader ≡ reader }
        ensures faults { result.faults ≡ 0 }
    {
        Incoming { reader, faults: 0 }
    }
}

impl<R: Read + Drop> Source for Incoming<R> {
    ghost left = { λ s. R.remaining s.reader };

    ghost fault_count = { λ s. s.faults };

    fn faults(&self) -> u64 {
        self.faults
    }

    fn take(&mut self, buf: &mut [u8]) -> Result<usize, Failed> {
        match self.reader.read(buf) {
            Ok(count) => Ok(count),
            Err(_) => {
                self.faults = self.faults.saturating_add(1);
                Err(Failed)
            }
        }
    }
}

/// A writer of std as a sink. It tells what was put where the writer does, as none of the system's does.
#[derive(Drop)]
pub struct Outgoing<W: Write + Drop> {
    writer: W,
    faults: u64,
}

impl<W: Write + Drop> Outgoing<W> {
    /// A sink over the writer, with no fault so far.
    pub fn new(writer: W) -> Outgoing<W>
        ensures writer { result.writer ≡ writer }
        ensures faults { result.faults ≡ 0 }
    {
        Outgoing { writer, faults: 0 }
    }
}

impl<W: Write + Drop> Sink for Outgoing<W> {
    ghost held = { λ s. W.contents s.writer };

    ghost fault_count = { λ s. s.faults };

    fn faults(&self) -> u64 {
        self.faults
    }

    fn put(&mut self, bytes: &[u8]) -> Result<usize, OutsideFault> {
        match self.writer.write(bytes) {
            Ok(count) if count > 0 || bytes.is_empty() => Ok(count),
            _ => {
                self.faults = self.faults.saturating_add(1);
                Err(OutsideFault::Failed)
            }
        }
    }
}
