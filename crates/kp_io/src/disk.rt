// A shelf over std's files: a name is a path.
ghost use Rattle.std.specs.Prelude.{◌≡◌, None, ⊤};
ghost use Rattle.kp_io.specs.Outside.{CountsFault};

use crate::fault::{LoadFault, OutsideFault};
use crate::shelf::{LOAD_LIMIT, Shelf};
use crate::stream::{Incoming, Outgoing};
use crate::whole::{put_all, read_all};
use std::alloc::Global;
use std::fs;
use std::io::ErrorKind;
use std::rt::Files;

/// The files of a runtime as a shelf. It tells nothing of what they hold.
#[derive(Drop)]
pub struct Disk<'a, R: Files> {
    files: &'a R,
    faults: u64,
}

impl<'a, R: Files> Disk<'a, R> {
    /// A shelf over these files, with no fault so far.
    pub fn new(files: &'a R) -> Disk<'a, R>
        ensures { result.faults ≡ 0 }
    {
        Disk { files, faults: 0 }
    }

    /// Counts one more fault.
    fn count_fault(&mut self)
        ensures { CountsFault self.old.faults self.new.faults ⊤ }
    {
        self.faults = self.faults.saturating_add(1);
    }
}

impl<'a, R: Files> Shelf for Disk<'a, R> {
    ghost names = { λ s. None };

    ghost fault_count = { λ s. s.faults };

    fn faults(&self) -> u64 {
        self.faults
    }

    fn load(&mut self, alloc: Global, name: &str) -> Result<Option<Vec<u8>>, LoadFault> {
        let file = match fs::open(self.files, name) {
            Ok(file) => file,
            Err(fault) if fault.kind() == ErrorKind::NotFound => return Ok(None),
            Err(_) => {
                self.count_fault();
                return Err(LoadFault::Failed);
            }
        };
        let mut source = Incoming::new(file);
        match read_all(alloc, &mut source, LOAD_LIMIT) {
            Ok(bytes) => Ok(Some(bytes)),
            Err(LoadFault::Failed) => {
                self.count_fault();
                Err(LoadFault::Failed)
            }
            Err(fault) => Err(fault),
        }
    }

    fn store(&mut self, name: &str, bytes: &[u8]) -> Result<(), OutsideFault> {
        let file = match fs::create(self.files, name) {
            Ok(file) => file,
            Err(_) => {
                self.count_fault();
                return Err(OutsideFault::Failed);
            }
        };
        let mut sink = Outgoing::new(file);
        match put_all(&mut sink, bytes) {
            Err(OutsideFault::Failed) => {
                self.count_fault();
                Err(OutsideFault::Failed)
            }
            stored => stored,
        }
    }
}
