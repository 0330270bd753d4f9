// The modules of a claims file.
ghost use Rattle.std.specs.Prelude.{◌≡◌, map, IfOk, IfErr};
ghost use Rattle.kp_kore.specs.View.{module_view};
ghost use Rattle.kp_text.specs.Spelling.{IsFaultOf, IsModulesText};
ghost use Rattle.kp_claims.specs.Files.{SpellsFile, further_fault};
ghost use Rattle.kp_claims.specs.Faults.{IsTextError};

use crate::fault::ClaimError;
use kp_kore::Module;
use kp_text::{ReadError, TextFault, read_definition, read_modules};
use std::alloc::Global;

/// The modules that the bytes spell, alone or in a definition.
pub fn modules_in(alloc: Global, bytes: &[u8]) -> Result<Vec<Module>, ClaimError>
    ensures found { IfOk result (λ ms. SpellsFile bytes.now (map module_view ms.items)) }
    ensures fault { IfErr result (IsTextError bytes.now) }
{
    match read_modules(alloc, bytes) {
        Ok(modules) => Ok(modules),
        Err(ReadError::Memory) => Err(ClaimError::Memory),
        Err(ReadError::Fault(fault)) => modules_in_definition(alloc, bytes, fault),
    }
}

/// The same of bytes that have this fault as modules alone.
fn modules_in_definition(
    alloc: Global,
    bytes: &[u8],
    fault: TextFault,
) -> Result<Vec<Module>, ClaimError>
    ensures found { IfOk result (λ ms. SpellsFile bytes.now (map module_view ms.items)) }
    ensures fault { IsFaultOf IsModulesText bytes.now fault → IfErr result (IsTextError bytes.now) }
{
    match read_definition(alloc, bytes) {
        Ok(definition) => Ok(definition.modules),
        Err(ReadError::Memory) => Err(ClaimError::Memory),
        Err(ReadError::Fault(other)) => Err(ClaimError::Text(further(fault, other))),
    }
}

/// The fault that stands further: the text goes on up to it.
fn further(modules: TextFault, definition: TextFault) -> TextFault
    ensures { result ≡ further_fault modules definition }
{
    if modules.at < definition.at {
        definition
    } else {
        modules
    }
}
