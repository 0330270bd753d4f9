// The modules that main reaches, in order.
ghost use Rattle.std.specs.Prelude.{◌≡◌, ◌<◌, IfOk, IfErr, OnOk, None, Some, length, map, slice_get};
ghost use Rattle.std.specs.List.{AllByRecursion};
ghost use Rattle.kp_kore.specs.View.{module_view, definition_view};
ghost use Rattle.kp_kore.specs.Theory.{modules_reached, module_named, names_reached};
ghost use Rattle.kp_imports.specs.Faults.{Fault, TellsFirst, IsImportFault};
ghost use Rattle.kp_imports.specs.Names.{AreOnce, names_of};
ghost use Rattle.kp_imports.specs.Walks.{IsLaidOut};

use kp_imports::fault::{LoadError, ModuleFault};
use kp_imports::names::{check_names, module_places};
use kp_imports::unknown::check_imports;
use kp_imports::walk::places_in_order;
use kp_kore::{Definition, Module};
use std::alloc::{AllocError, Global};

/// The modules that the main one reaches: imports first, in order and each once, and then the module itself.
///
/// M5, M8, M1 and M2 are told, the first of these that there is.
pub fn reached<'a>(
    alloc: Global,
    definition: &'a Definition,
    main: &str,
) -> Result<Vec<&'a Module>, LoadError>
    ensures ok { IfOk result (λ found. map (λ m. module_view m.now) found.items ≡ modules_reached (definition_view definition.now) main.now) }
    ensures once { OnOk result (AreOnce (names_of (definition_view definition.now).modules)) }
    ensures main { OnOk result (module_named (definition_view definition.now).modules main.now ≡ None → ⊥) }
    ensures none { OnOk result ((f : Fault) → IsImportFault (definition_view definition.now).modules main.now f → ⊥) }
    ensures laid { let definition' = definition_view definition.now in OnOk result (IsLaidOut definition'.modules (names_reached (length definition'.modules) definition'.modules main.now)) }
    ensures err { IfErr result (TellsFirst (definition_view definition.now) main.now) }
{
    let modules = definition.modules.as_slice();
    check_names(alloc, modules)?;
    let places = module_places(alloc, modules)?;
    let start = match places.get(main) {
        Some(place) => *place,
        None => return Err(LoadError::Fault(ModuleFault::NoMainModule)),
    };
    check_imports(alloc, modules, &places, start)?;
    let order = places_in_order(alloc, modules, &places, start)?;
    Ok(modules_at(alloc, modules, order.as_slice())?)
}

/// The modules at these places.
fn modules_at<'a>(
    alloc: Global,
    modules: &'a [Module],
    order: &[usize],
) -> Result<Vec<&'a Module>, AllocError>
    requires { AllByRecursion (λ p. p < length modules.now) order.now }
    ensures { IfOk result (λ found. map (λ m. Some m.now) found.items ≡ map (λ p. slice_get modules.now p) order.now) }
{
    let mut found = Vec::new(alloc);
    for i in 0..order.len() {
        found.push(module_at(modules, order[i]))?;
    }
    Ok(found)
}

/// The module at this place.
fn module_at(modules: &[Module], place: usize) -> &Module
    requires { place < length modules.now }
    ensures { slice_get modules.now place ≡ Some result.now }
{
    &modules[place]
}
