// The modules that a module of a table reaches, in the order of its own walk, and their rules.
ghost use Rattle.std.specs.Prelude.{◌≡◌, ◌<◌, IfOk, MatchOption, None, Some, length, map, true};
ghost use Rattle.std.specs.Option.{is_some};
ghost use Rattle.kp_kore.specs.Syntax.{Text};
ghost use Rattle.kp_kore.specs.View.{module_view};
ghost use Rattle.kp_signature.specs.Names.{Indexes, first_place};
ghost use Rattle.kp_imports.specs.Faults.{fault_view};
ghost use Rattle.kp_imports.specs.Names.{PlacesAreBelow, module_names};
ghost use Rattle.kp_imports.specs.Walks.{IsOver};
ghost use Rattle.kp_modules.specs.Keeping.{HasNoImportFault};

use crate::table::ModuleTable;
use kp_imports::fault::LoadError;
use kp_imports::names::{NamePlaces, module_places};
use kp_imports::walk::places_in_order;
use kp_kore::Module;
use kp_rules::Rule;
use std::alloc::{AllocError, Global};

impl ModuleTable {
    ghost use Rattle.std.specs.Prelude.{◌≡◌, IfOk, MatchOption, false, true, length};
    ghost use Rattle.kp_kore.specs.Syntax.{Text, KoreDefinition};
    ghost use Rattle.kp_kore.specs.Theory.{modules_reached};
    ghost use Rattle.kp_imports.specs.Faults.{axioms_reached};
    ghost use Rattle.kp_modules.specs.Keeping.{AtModuleKept, KeepsReached, StandsAt, is_reached, own_rules};
    ghost use Rattle.kp_modules.specs.Tables.{rule_set_of};

    /// The places, among the modules that main reaches, of those that the module of this name reaches, in the order of
    /// its own walk; none of a name that main doesn't reach.
    pub fn places_of(&self, alloc: Global, name: &str) -> Result<Option<Vec<usize>>, AllocError>
        ensures { (d : KoreDefinition) (main : Text) → let found = is_reached d main name.now in KeepsReached d main self.now →
            IfOk result (λ o. MatchOption o (found ≡ false) (λ places. (found ≡ true) × StandsAt d main name.now places.items)) }
    {
        let modules = self.modules.as_slice();
        let places = module_places(alloc, modules)?;
        match places.get(name) {
            Some(place) => order_from(alloc, modules, &places, *place),
            None => Ok(None),
        }
    }

    /// The rules of the module at this place, among main's.
    pub fn rules_at(&self, place: usize) -> Option<&[Rule]>
        ensures { let rules = (rule_set_of self.now).rules.items in
            AtModuleKept self.now place (λ d main m. length rules ≡ length (axioms_reached d main) → MatchOption result ⊥ (λ own. own.now ≡ own_rules (modules_reached d main) place m rules)) }
    {
        match self.spans.get(place) {
            Some(span) => self.rule_set.rules.get(span.from..span.to),
            None => None,
        }
    }
}

/// The places of the modules that the one at `start` reaches, in order; none where a fault of imports is told.
fn order_from(
    alloc: Global,
    modules: &[Module],
    places: &NamePlaces,
    start: usize,
) -> Result<Option<Vec<usize>>, AllocError>
    requires places { PlacesAreBelow places.now (length modules.now) }
    requires start { start < length modules.now }
    ensures { (name : Text) → let names = module_names modules.now in Indexes names places.now → first_place name names ≡ Some start → HasNoImportFault (map module_view modules.now) name →
        IfOk result (λ o. MatchOption o ⊥ (λ order. IsOver modules.now name order.items)) }
{
    match places_in_order(alloc, modules, places, start) {
        Ok(order) => Ok(Some(order)),
        Err(error) => none_told(&error),
    }
}

/// None where a fault is told; want of memory is handed on.
fn none_told(error: &LoadError) -> Result<Option<Vec<usize>>, AllocError>
    ensures { IfOk result (λ o. is_some (fault_view error.now) ≡ true) }
{
    match error {
        LoadError::Memory => Err(AllocError),
        LoadError::Fault(_) => Ok(None),
    }
}
