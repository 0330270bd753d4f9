// A definition without sentences, and modules without sentences that are added to it.
ghost use Rattle.std.specs.Prelude.{◌≡◌, [], List, IfOk};
ghost use Rattle.kp_kore.specs.View.{module_view};
ghost use Rattle.kp_text.specs.Spelling.{SpellsModule};
ghost use Rattle.kp_signature.specs.View.{signature_view};
ghost use Rattle.kp_book.specs.Books.{extended};
ghost use Rattle.kp_modules.specs.Made.{IsSetOf};
ghost use Rattle.kp_modules.specs.Tables.{rule_set_of};
ghost use Rattle.kp_registry.specs.Passes.{Extends, IsReady};
ghost use Rattle.kp_registry.specs.Registries.{table_of};
ghost use Rattle.kp_registry.specs.declared.seen.Entry.{Entry};

use kp_kore::Module;
use kp_modules::{ModuleTable, extend, load};
use kp_registry::{Id, Ready, Registry, id_of, prepare};
use kp_rule_sets::RuleSet;
use kp_text::{read_definition, read_module};
use std::alloc::{AllocError, Global};
use std::sync::Arc;

/// The definition.
const EMPTY: &str = "[] module MAIN endmodule []";

/// The table of the definition.
pub(crate) fn table(alloc: Global) -> Result<ModuleTable, AllocError> {
    match read_definition(alloc, EMPTY.as_bytes()) {
        Ok(definition) => match load(alloc, &definition, "MAIN") {
            Ok(table) => Ok(table),
            Err(_) => Err(AllocError),
        },
        Err(_) => Err(AllocError),
    }
}

/// The text of the module of this number.
pub(crate) fn text_of(alloc: Global, number: u64) -> Result<Vec<u8>, AllocError> {
    Ok(format!(in alloc; "module M{number} endmodule []")?.into_bytes())
}

/// The module of this number, ready to be entered.
pub fn ready_of(alloc: Global, registry: &Registry, number: u64) -> Result<Ready, AllocError>
    ensures ready { IfOk result IsReady }
    ensures extends { IfOk result (λ ready. (es : List Entry) → Extends (table_of registry.now) es ready.entry) }
{
    let text = text_of(alloc, number)?;
    let module = module_of(alloc, &text)?;
    let rules = rules_of(alloc, registry.table(), &id_of(&text), &module)?;
    prepare(alloc, text, &module, rules, false)
}

/// The module that the text spells, where that has no sentences.
fn module_of(alloc: Global, text: &[u8]) -> Result<Module, AllocError>
    ensures spells { IfOk result (λ m. SpellsModule text.now (module_view m)) }
    ensures alone { IfOk result (λ m. m.sentences.items ≡ []) }
{
    match read_module(alloc, text) {
        Ok(module) => {
            if module.sentences.is_empty() {
                Ok(module)
            } else {
                Err(AllocError)
            }
        }
        Err(_) => Err(AllocError),
    }
}

/// The rule set of a module that imports none.
fn rules_of(
    alloc: Global,
    table: &ModuleTable,
    id: &Id,
    added: &Module,
) -> Result<Arc<RuleSet>, AllocError>
    ensures { let g = signature_view (rule_set_of table.now).signature.value in IfOk result (λ rules. IsSetOf g (extended [] id.now (module_view added.now)) rules.value) }
{
    match std::str::from_utf8(id) {
        Ok(name) => match extend(alloc, table, &[], name, added) {
            Ok(rules) => Ok(Arc::new(alloc, rules)?),
            Err(_) => Err(AllocError),
        },
        Err(_) => Err(AllocError),
    }
}
