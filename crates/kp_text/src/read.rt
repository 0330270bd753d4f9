ghost use Rattle.std.specs.Prelude.{◌≡◌, map, IfOk, IfErr};
ghost use Rattle.kp_kore.specs.View.{view, module_view, definition_view};
ghost use Rattle.kp_text.specs.Tokens.{utf8_front};
ghost use Rattle.kp_text.specs.Spelling.{SpellsPattern, SpellsModule, SpellsModules, SpellsDefinition, IsPatternText, IsModuleText, IsModulesText, IsDefinitionText};
ghost use Rattle.kp_text.specs.Errors.{IsErrorOf, read_error_of};

use crate::fault::{FaultKind, TextFailure, TextFault};
use crate::input::front_and_tail;
use crate::modules::{whole_definition, whole_module, whole_modules, whole_pattern};
use kp_kore::{Definition, Module, Pattern};
use std::alloc::Global;

/// Why a text wasn't read: for want of memory, or for its first fault.
#[derive(Clone, Copy)]
pub enum ReadError {
    Memory,
    Fault(TextFault),
}

/// The error of a failure in bytes whose longest front of UTF-8 is so long.
fn read_error(bytes: &[u8], front: &str, failure: TextFailure) -> ReadError
    requires { front.now ≡ utf8_front bytes.now }
    ensures { result ≡ read_error_of bytes.now failure }
{
    match failure {
        TextFailure::Memory => ReadError::Memory,
        TextFailure::Fault { left, kind } => {
            let at = match kind {
                FaultKind::End => bytes.len(),
                FaultKind::Byte | FaultKind::Token | FaultKind::String | FaultKind::Deep => {
                    front.len().saturating_sub(left)
                }
            };
            ReadError::Fault(TextFault { at, kind })
        }
    }
}

/// The pattern that the bytes spell.
pub fn read_pattern(alloc: Global, bytes: &[u8]) -> Result<Pattern, ReadError>
    ensures found { IfOk result (λ x. SpellsPattern bytes.now (view x)) }
    ensures fault { IfErr result (IsErrorOf IsPatternText bytes.now) }
{
    let (text, tail) = front_and_tail(bytes);
    match whole_pattern(alloc, text, tail) {
        Ok(pattern) => Ok(pattern),
        Err(failure) => Err(read_error(bytes, text, failure)),
    }
}

/// The module that the bytes spell.
pub fn read_module(alloc: Global, bytes: &[u8]) -> Result<Module, ReadError>
    ensures found { IfOk result (λ x. SpellsModule bytes.now (module_view x)) }
    ensures fault { IfErr result (IsErrorOf IsModuleText bytes.now) }
{
    let (text, tail) = front_and_tail(bytes);
    match whole_module(alloc, text, tail) {
        Ok(module) => Ok(module),
        Err(failure) => Err(read_error(bytes, text, failure)),
    }
}

/// The modules that the bytes spell, one or more.
pub fn read_modules(alloc: Global, bytes: &[u8]) -> Result<Vec<Module>, ReadError>
    ensures found { IfOk result (λ x. SpellsModules bytes.now (map module_view x.items)) }
    ensures fault { IfErr result (IsErrorOf IsModulesText bytes.now) }
{
    let (text, tail) = front_and_tail(bytes);
    match whole_modules(alloc, text, tail) {
        Ok(modules) => Ok(modules),
        Err(failure) => Err(read_error(bytes, text, failure)),
    }
}

/// The definition that the bytes spell.
pub fn read_definition(alloc: Global, bytes: &[u8]) -> Result<Definition, ReadError>
    ensures found { IfOk result (λ x. SpellsDefinition bytes.now (definition_view x)) }
    ensures fault { IfErr result (IsErrorOf IsDefinitionText bytes.now) }
{
    let (text, tail) = front_and_tail(bytes);
    match whole_definition(alloc, text, tail) {
        Ok(definition) => Ok(definition),
        Err(failure) => Err(read_error(bytes, text, failure)),
    }
}
