ghost use Rattle.std.specs.Prelude.{◌≡◌, ◌↔◌, ◌≤◌, ◌+◌, ◌-◌, ◌^◌, [], None, Some, IfOk, IfSome, IsErrOf, OnOk, Contains, List, ℕ, min, option_map, length};
ghost use Rattle.kp_io.specs.Outside.{CountsFault, HoldsMore, Stores, OthersStay, load_limit};
ghost use Rattle.kp_io.specs.Files.{map_names};

use crate::calls::Calls;
use crate::fault::{LoadFault, OutsideFault};
use crate::shelf::{LOAD_LIMIT, Shelf};
use std::alloc::Global;
use std::collections::BTreeMap;

/// Files in memory, of whose loads and stores those that a list names fail.
#[derive(Drop)]
pub struct Files {
    alloc: Global,
    files: BTreeMap<String, Vec<u8>>,
    calls: Calls,
}

impl Files {
    /// No files yet; the failing calls have these numbers, from 1.
    pub fn new(alloc: Global, failing: Vec<u64>) -> Files
        ensures empty { (name : List ℕ) → map_names result.files name ≡ None }
        ensures failing { result.calls.failing.items ≡ failing.items }
        ensures made { result.calls.made ≡ 0 }
        ensures faults { result.calls.faults ≡ 0 }
    {
        Files {
            alloc,
            files: BTreeMap::new(alloc),
            calls: Calls::new(failing),
        }
    }
}

impl Shelf for Files {
    ghost names = { λ s. Some (map_names s.files) };

    ghost fault_count = { λ s. s.calls.faults };

    fn faults(&self) -> u64 {
        self.calls.faults()
    }

    fn load(&mut self, alloc: Global, name: &str) -> Result<Option<Vec<u8>>, LoadFault>
        ensures found { IfOk result (λ bytes. option_map (λ v. v.items) bytes ≡ map_names self.old.files name.now) }
        ensures too_long { IsErrOf result LoadFault.TooLong → HoldsMore load_limit (map_names self.old.files name.now) }
        ensures within { IfOk result (λ bytes. IfSome bytes (λ v. length v.items ≤ load_limit)) }
        ensures kept { self.new.files ≡ self.old.files }
        ensures faults { CountsFault self.old.calls.faults self.new.calls.faults (IsErrOf result LoadFault.Failed) }
        ensures fails { IsErrOf result LoadFault.Failed ↔ Contains self.old.calls.failing.items self.new.calls.made }
        ensures made { self.new.calls.made ≡ min (self.old.calls.made + 1) (2 ^ 64 - 1) }
        ensures failing { self.new.calls.failing ≡ self.old.calls.failing }
    {
        if self.calls.next_fails() {
            return Err(LoadFault::Failed);
        }
        match self.files.get(name) {
            None => Ok(None),
            Some(bytes) if bytes.len() > LOAD_LIMIT => Err(LoadFault::TooLong),
            Some(bytes) => Ok(Some(bytes.to_vec(alloc)?)),
        }
    }

    fn store(&mut self, name: &str, bytes: &[u8]) -> Result<(), OutsideFault>
        ensures stored { OnOk result (Stores (Some (map_names self.old.files)) (Some (map_names self.new.files)) name.now bytes.now) }
        ensures others { OthersStay (Some (map_names self.old.files)) (Some (map_names self.new.files)) name.now }
        ensures faults { CountsFault self.old.calls.faults self.new.calls.faults (IsErrOf result OutsideFault.Failed) }
        ensures fails { IsErrOf result OutsideFault.Failed ↔ Contains self.old.calls.failing.items self.new.calls.made }
        ensures made { self.new.calls.made ≡ min (self.old.calls.made + 1) (2 ^ 64 - 1) }
        ensures failing { self.new.calls.failing ≡ self.old.calls.failing }
    {
        if self.calls.next_fails() {
            return Err(OutsideFault::Failed);
        }
        let name = String::from_str(self.alloc, name)?;
        let bytes = bytes.to_vec(self.alloc)?;
        match self.files.insert(name, bytes) {
            Ok(_) => Ok(()),
            Err(_) => Err(OutsideFault::Memory),
        }
    }
}
