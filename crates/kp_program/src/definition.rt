ghost use Rattle.std.specs.Prelude.{◌≡◌, ◌≤◌, ℕ, IfErr, IfOk, IfSome, List, Some, length};
ghost use Rattle.kp_io.specs.Outside.{Rose, load_limit};
ghost use Rattle.kp_program.specs.Inputs.{IsTableOf};
ghost use Rattle.kp_program.specs.Statuses.{IsCause};
ghost use Rattle.kp_program.specs.Troubles.{IsFaulty, ending_of};
ghost use Rattle.kp_command.specs.Words.{NamesDefinition};

use crate::trouble::{FileFault, Trouble, file_trouble, module_trouble, no_file, read_trouble};
use kp_io::{LoadFault, Shelf};
use kp_modules::{ModuleTable, load};
use kp_text::read_definition;
use std::alloc::Global;

/// The table of the definition in the file of this name, for this main module.
pub fn load_table<H: Shelf>(
    alloc: Global,
    shelf: &mut H,
    name: &str,
    main: &str,
) -> Result<ModuleTable, Trouble>
    ensures loaded { IfOk result (λ table. (file : List ℕ) × IfSome (H.names shelf.old) (λ held. held name.now ≡ Some file) × IsTableOf file main.now table) }
    ensures cause { let Failed = Rose (H.fault_count shelf.old) (H.fault_count shelf.new) in
        (words : List (List ℕ)) → NamesDefinition words name.now main.now → IfErr result (λ trouble. IsCause (H.names shelf.old) words Failed (ending_of trouble)) }
    ensures kept { H.names shelf.new ≡ H.names shelf.old }
    ensures never_falls { H.fault_count shelf.old ≤ H.fault_count shelf.new }
{
    match shelf.load(alloc, name) {
        Ok(Some(bytes)) => table_of(alloc, name, &bytes, main),
        Ok(None) => Err(no_file(alloc, name)),
        Err(LoadFault::TooLong) => Err(file_trouble(alloc, name, FileFault::TooLong)),
        Err(LoadFault::Failed) => Err(Trouble::Outside),
        Err(LoadFault::Memory) => Err(Trouble::Memory),
    }
}

/// The table of the definition in a file, of this name, with these bytes.
fn table_of(alloc: Global, name: &str, bytes: &[u8], main: &str) -> Result<ModuleTable, Trouble>
    ensures table { length bytes.now ≤ load_limit → IfOk result (IsTableOf bytes.now main.now) }
    ensures fault { length bytes.now ≤ load_limit → IfErr result (IsFaulty bytes.now name.now main.now) }
{
    let definition = match read_definition(alloc, bytes) {
        Ok(definition) => definition,
        Err(error) => return Err(read_trouble(alloc, name, error)),
    };
    match load(alloc, &definition, main) {
        Ok(table) => Ok(table),
        Err(error) => Err(module_trouble(alloc, name, error)),
    }
}
