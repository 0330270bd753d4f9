ghost use Rattle.std.specs.Prelude.{◌≡◌, ℕ, List, IfOk};
ghost use Rattle.kp_kore.specs.View.{view, module_view};
ghost use Rattle.kp_text.specs.Spelling.{SpellsPattern, SpellsModule};
ghost use Rattle.kp_print.specs.Printed.{pattern_text, module_text};

use crate::modules::push_module;
use crate::patterns::push_pattern;
use kp_kore::{Module, Pattern};
use std::alloc::{AllocError, Global};

/// The text of a pattern. Where any text spells the pattern, this one does.
pub fn print_pattern(alloc: Global, pattern: &Pattern) -> Result<Vec<u8>, AllocError>
    ensures text { IfOk result (λ printed. printed.items ≡ pattern_text (view pattern.now)) }
    ensures spelled { (bytes : List ℕ) → SpellsPattern bytes (view pattern.now) → IfOk result (λ printed. SpellsPattern printed.items (view pattern.now)) }
{
    let mut text = String::new(alloc);
    push_pattern(pattern, &mut text)?;
    Ok(text.into_bytes())
}

/// The text of a module. Where any text spells the module, this one does.
pub fn print_module(alloc: Global, module: &Module) -> Result<Vec<u8>, AllocError>
    ensures text { IfOk result (λ printed. printed.items ≡ module_text (module_view «module».now)) }
    ensures spelled { (bytes : List ℕ) → SpellsModule bytes (module_view «module».now) → IfOk result (λ printed. SpellsModule printed.items (module_view «module».now)) }
{
    let mut text = String::new(alloc);
    push_module(module, &mut text)?;
    Ok(text.into_bytes())
}
