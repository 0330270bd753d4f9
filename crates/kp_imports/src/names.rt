// The place of each module by its name.
ghost use Rattle.std.specs.Prelude.{◌≡◌, ◌<◌, ◌+◌, Some, take, OnOk, IfOk, IfErr, length, string_bytes, ◌++◌, ◌∷◌, [], List};
ghost use Rattle.kp_kore.specs.Syntax.{Text};
ghost use Rattle.kp_signature.specs.Names.{Indexes};
ghost use Rattle.kp_imports.specs.Names.{module_names, texts_of, AreOnce, IsFirstRepeated, PlacesAreBelow};
ghost use Rattle.kp_imports.specs.Faults.{Fault, fault_view, duplicate_module};

use crate::fault::{LoadError, ModuleFault};
use crate::repeated::repeated_name;
use indexmap::IndexMap;
use kp_kore::{Module, Name};
use std::alloc::{AllocError, Global};

/// The place of each name.
pub type NamePlaces = IndexMap<Name, usize>;

/// M5 of the first name that two modules have.
pub fn check_names(alloc: Global, modules: &[Module]) -> Result<(), LoadError>
    ensures ok { OnOk result (AreOnce (module_names modules.now)) }
    ensures err { IfErr result (λ e. (f : Fault) → fault_view e ≡ Some f → (n : Text) × (f ≡ duplicate_module n) × IsFirstRepeated n (module_names modules.now)) }
{
    let names = names_in(alloc, modules)?;
    match repeated_name(alloc, names.as_slice())? {
        Some(name) => Err(LoadError::Fault(ModuleFault::DuplicateModule(name))),
        None => Ok(()),
    }
}

/// The modules' names, in order.
fn names_in<'a>(alloc: Global, modules: &'a [Module]) -> Result<Vec<&'a Name>, AllocError>
    ensures { IfOk result (λ names. texts_of names.items ≡ module_names modules.now) }
{
    let mut names = Vec::new(alloc);
    for i in 0..modules.len() {
        names.push(name_at(modules, i))?;
    }
    Ok(names)
}

/// The name of the module at this place.
fn name_at(modules: &[Module], place: usize) -> &Name
    requires { place < length modules.now }
    ensures { module_names (take (place + 1) modules.now) ≡ module_names (take place modules.now) ++ string_bytes result.now ∷ [] }
{
    &modules[place].name
}

/// The first place of each name of a module.
pub fn module_places(alloc: Global, modules: &[Module]) -> Result<NamePlaces, AllocError>
    ensures index { IfOk result (λ places. Indexes (module_names modules.now) places) }
    ensures below { IfOk result (λ places. PlacesAreBelow places (length modules.now)) }
{
    let mut places = IndexMap::new(alloc);
    for place in 0..modules.len() {
        add_name(&mut places, &modules[place].name, place)?;
    }
    Ok(places)
}

/// Notes a module's place, unless its name has one.
fn add_name(places: &mut NamePlaces, name: &Name, place: usize) -> Result<(), AllocError>
    ensures { (names : List Text) → Indexes names places.old → place ≡ length names → OnOk result (Indexes (names ++ string_bytes name.now ∷ []) places.new) }
{
    if places.contains_key(name.as_str()) {
        return Ok(());
    }
    places.insert(name.clone()?, place)?;
    Ok(())
}
