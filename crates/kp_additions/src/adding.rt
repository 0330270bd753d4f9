// A text is added to the book.
ghost use Rattle.std.specs.Prelude.{◌≡◌, IfOk, IfErr, OnErr, List, ℕ, Bool, Some, true, false, string_bytes};
ghost use Rattle.std.specs.Option.{option_map};
ghost use Rattle.std.specs.Str.{IsUtf8};
ghost use Rattle.kp_kore.specs.Syntax.{Text};
ghost use Rattle.kp_kore.specs.View.{module_view};
ghost use Rattle.kp_kore.specs.Theory.{NumberedAxiom};
ghost use Rattle.kp_signature.specs.View.{signature_view};
ghost use Rattle.kp_text.specs.Spelling.{SpellsModule};
ghost use Rattle.kp_book.specs.Books.{Opening, Registration, Seen, extended as extended_by};
ghost use Rattle.kp_modules.specs.Extending.{AreSetsOf, ExtendFault, IsAddable, extend_fault};
ghost use Rattle.kp_modules.specs.Made.{IsSetOf};
ghost use Rattle.kp_modules.specs.Tables.{rule_set_of};
ghost use Rattle.kp_registry.specs.Legal.{id_of as stated_id};
ghost use Rattle.kp_registry.specs.Passes.{IsReady};
ghost use Rattle.kp_registry.specs.Registries.{IsPassOf};
ghost use Rattle.kp_registry.specs.Refusals.{IsRefused};
ghost use Rattle.kp_replies.specs.Failures.{Failure, bad_module};
ghost use Rattle.kp_additions.specs.Served.{AtEachBookSeen, HasLooked, HasSeenAt};
ghost use Rattle.kp_additions.specs.Told.{IsEntered, IsReadied, TellsRefusal, TellsText, TellsUnsound, failure_told, sentence_fault};

use crate::error::AdditionError;
use crate::imports::imports_of;
use kp_kore::{Module, Name};
use kp_modules::{ExtendError, ModuleTable, extend};
use kp_registry::{Id, Pass, Ready, RegisterFault, Registry, id_of, prepare};
use kp_replies::AdditionFault;
use kp_rule_sets::RuleSet;
use kp_text::{ReadError, read_module};
use std::alloc::Global;
use std::sync::{Arc, Wait};

/// Adds the module that the text spells at the end of the book, and gives its id; its own name is bound too where that is
/// asked for. Refused in this order: the text's fault, M1, M6, M7, a name that is bound to another text, M9. Behind a refusal, or
/// want of memory, the pass has entered nothing.
/// Source: the K Haskell backend's JSON-RPC documentation (add-module, name-as-id).
pub fn add_module<R: Wait>(
    rt: &R,
    alloc: Global,
    registry: &Registry,
    pass: &mut Pass,
    text: Vec<u8>,
    name_as_id: bool,
) -> Result<Id, AdditionError>
    requires pass { IsPassOf registry.now pass.old }
    ensures pass { IsPassOf registry.now pass.new }
    ensures left { OnErr result (HasLooked pass.old pass.new) }
    ensures id { IfOk result (λ id. id ≡ stated_id text.items) }
    ensures added { IfOk result (λ id. (o : Opening) (before : Seen) → HasSeenAt registry.now pass.old o before → IsEntered o before text.items name_as_id id registry.now pass.new) }
    ensures refused { IfErr result (λ e. AtEachBookSeen registry.now pass.new (λ o book. TellsRefusal o book text.items name_as_id e)) }
{
    let ready = ready_of(rt, alloc, registry, pass, text, name_as_id)?;
    match registry.register(rt, pass, ready) {
        Ok(id) => Ok(id),
        Err((fault, back)) => Err(fault_told(fault, back)),
    }
}

/// What a refused entry tells.
fn fault_told(fault: RegisterFault, ready: Ready) -> AdditionError
    requires ready { IsReady ready }
    ensures { let entry = ready.entry in (o : Opening) (book : List Registration) (text : List ℕ) (also : Bool) → IsReadied o book text also entry → IsRefused o book entry fault → TellsRefusal o book text also result }
{
    match fault {
        RegisterFault::Duplicate { entry, of_id } => AdditionError::Duplicate {
            entry: entry as u64,
            name: name_of(ready, of_id),
        },
        RegisterFault::Many => AdditionError::Bad(AdditionFault::FullBook),
    }
}

/// The own name where that is meant and there is one, else the id.
fn name_of(ready: Ready, of_id: bool) -> Name
    ensures id { of_id ≡ true → string_bytes result ≡ string_bytes ready.id_name }
    ensures own { of_id ≡ false → (n : Text) → option_map string_bytes ready.own_name ≡ Some n → string_bytes result ≡ n }
{
    let Ready {
        entry: _entry,
        id_name,
        own_name,
    } = ready;
    if of_id {
        return id_name;
    }
    match own_name {
        Some(name) => name,
        None => id_name,
    }
}

/// The entry for the module that the text spells.
fn ready_of<R: Wait>(
    rt: &R,
    alloc: Global,
    registry: &Registry,
    pass: &mut Pass,
    text: Vec<u8>,
    name_as_id: bool,
) -> Result<Ready, AdditionError>
    requires pass { IsPassOf registry.now pass.old }
    ensures pass { IsPassOf registry.now pass.new }
    ensures looked { HasLooked pass.old pass.new }
    ensures ready { IfOk result IsReady }
    ensures id { IfOk result (λ ready. ready.entry.id ≡ stated_id text.items) }
    ensures entry { IfOk result (λ ready. AtEachBookSeen registry.now pass.new (λ o book. IsReadied o book text.items name_as_id ready.entry)) }
    ensures err { IfErr result (λ e. AtEachBookSeen registry.now pass.new (λ o book. TellsRefusal o book text.items name_as_id e)) }
{
    let module = module_of(alloc, &text)?;
    let imports = imports_of(rt, alloc, registry, pass, &module.sentences)?;
    let rules = rules_of(alloc, registry.table(), &imports, &id_of(&text), &module)?;
    Ok(prepare(alloc, text, &module, rules, name_as_id)?)
}

/// The module that the text spells.
fn module_of(alloc: Global, text: &[u8]) -> Result<Module, AdditionError>
    ensures spells { IfOk result (λ m. SpellsModule text.now (module_view m)) }
    ensures err { IfErr result (TellsText text.now) }
{
    match read_module(alloc, text) {
        Ok(module) => Ok(module),
        Err(ReadError::Memory) => Err(AdditionError::Memory),
        Err(ReadError::Fault(fault)) => Err(AdditionError::Bad(AdditionFault::BadText {
            at: fault.at as u64,
            kind: fault.kind.number() as u64,
        })),
    }
}

/// The rule set of a module that is added with this id; M6, else M7.
fn rules_of(
    alloc: Global,
    table: &ModuleTable,
    imports: &[Arc<RuleSet>],
    id: &Id,
    added: &Module,
) -> Result<Arc<RuleSet>, AdditionError>
    requires id { IsUtf8 id.now }
    ensures set { let g = signature_view (rule_set_of table.now).signature.value in (lists : List (List NumberedAxiom)) → AreSetsOf g lists imports.now →
        IfOk result (λ rules. IsSetOf g (extended_by lists id.now (module_view added.now)) rules.value) }
    ensures addable { IfOk result (λ rules. IsAddable (signature_view (rule_set_of table.now).signature.value) id.now (module_view added.now)) }
    ensures err { IfErr result (TellsUnsound (signature_view (rule_set_of table.now).signature.value) id.now (module_view added.now)) }
{
    match std::str::from_utf8(id) {
        Ok(name) => match extend(alloc, table, imports, name, added) {
            Ok(rules) => Ok(Arc::new(alloc, rules)?),
            Err(error) => Err(extension_fault(&error)),
        },
        Err(_) => unreachable!(),
    }
}

/// What the error of an extension tells.
fn extension_fault(error: &ExtendError) -> AdditionError
    ensures { (f : Failure) → failure_told result ≡ Some f → (x : ExtendFault) × (f ≡ bad_module (sentence_fault x)) × (extend_fault error.now ≡ Some x) }
{
    match error {
        ExtendError::Memory => AdditionError::Memory,
        ExtendError::RuleFault(axiom) => AdditionError::Bad(AdditionFault::BadAxiom {
            number: *axiom as u64,
        }),
        ExtendError::Declaration(sentence) => AdditionError::Bad(AdditionFault::BadSentence {
            number: *sentence as u64,
        }),
    }
}
