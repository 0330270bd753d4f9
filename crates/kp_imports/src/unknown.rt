// Whether each import in a module that main reaches names a module.
ghost use Rattle.std.specs.Prelude.{◌≡◌, ◌+◌, ◌<◌, List, OnOk, IfErr, Some, length, map};
ghost use Rattle.std.specs.List.{AllByRecursion, Contains};
ghost use Rattle.kp_kore.specs.Syntax.{Text};
ghost use Rattle.kp_kore.specs.View.{module_view};
ghost use Rattle.kp_kore.specs.declared.sentence.Module.{Module};
ghost use Rattle.kp_signature.specs.Names.{Indexes, first_place};
ghost use Rattle.kp_imports.specs.Faults.{IsUnknown, TellsUnknown, TellsUnplaced};
ghost use Rattle.kp_imports.specs.Names.{PlacesAreBelow, module_names};
ghost use Rattle.kp_imports.specs.Walks.{unseen_in, import_names, AreNoted, IsNameNoted, IsReachedPlace, NotedMore, Stands};

use crate::fault::LoadError;
use crate::imports::{Mark, import_of, place_of, unseen};
use crate::names::NamePlaces;
use kp_kore::{Module, Sentence};
use std::alloc::{AllocError, Global};

/// M1 of the first import that names no module, from the module at `start` on, nearest first.
pub fn check_imports(
    alloc: Global,
    modules: &[Module],
    places: &NamePlaces,
    start: usize,
) -> Result<(), LoadError>
    requires places { PlacesAreBelow places.now (length modules.now) }
    requires start { start < length modules.now }
    ensures err { (main : Text) → let the_module_names = module_names modules.now in Indexes the_module_names places.now → first_place main the_module_names ≡ Some start → IfErr result (TellsUnknown (map module_view modules.now) main) }
    ensures known { (main : Text) → let the_module_names = module_names modules.now in Indexes the_module_names places.now → first_place main the_module_names ≡ Some start → OnOk result ((n : Text) → ¬ IsUnknown (map module_view modules.now) main n) }
{
    let mut marks = unseen(alloc, modules.len())?;
    let mut found = Vec::new(alloc);
    note_place(&mut marks, &mut found, start)?;
    let mut read = 0;
    while read < found.len() {
        let module = &modules[found[read]];
        note_imports(&mut marks, &mut found, places, &module.sentences)?;
        read += 1;
    }
    Ok(())
}

/// Notes the places of the modules that these sentences import.
fn note_imports(
    marks: &mut Vec<Mark>,
    found: &mut Vec<usize>,
    places: &NamePlaces,
    sentences: &[Sentence],
) -> Result<(), LoadError>
    requires places { PlacesAreBelow places.now (length marks.old.items) }
    requires found { AllByRecursion (λ p. p < length marks.old.items) found.old.items }
    ensures len { length marks.new.items ≡ length marks.old.items }
    ensures found { AllByRecursion (λ p. p < length marks.old.items) found.new.items }
    ensures count { OnOk result (unseen_in marks.new.items + length found.new.items ≡ unseen_in marks.old.items + length found.old.items) }
    ensures reached { (rows : List Module) (main : Text) → let AreReached = AllByRecursion (IsReachedPlace rows main) in Stands rows main places.now sentences.now → AreReached found.old.items → OnOk result (AreReached found.new.items) }
    ensures noted { let found' = found.old.items in let found'' = found.new.items in AreNoted marks.old.items found' → OnOk result (NotedMore marks.new.items found' found'' × AllByRecursion (IsNameNoted places.now found'') (import_names sentences.now)) }
    ensures err { IfErr result (TellsUnplaced places.now (import_names sentences.now)) }
{
    for i in 0..sentences.len() {
        if let Some(name) = import_of(&sentences[i]) {
            note_place(marks, found, place_of(places, name)?)?;
        }
    }
    Ok(())
}

/// Notes a module's place, unless it was seen before.
fn note_place(marks: &mut Vec<Mark>, found: &mut Vec<usize>, place: usize) -> Result<(), AllocError>
    requires place { place < length marks.old.items }
    requires found { AllByRecursion (λ p. p < length marks.old.items) found.old.items }
    ensures len { length marks.new.items ≡ length marks.old.items }
    ensures found { AllByRecursion (λ p. p < length marks.old.items) found.new.items }
    ensures count { OnOk result (unseen_in marks.new.items + length found.new.items ≡ unseen_in marks.old.items + length found.old.items) }
    ensures reached { (rows : List Module) (main : Text) → let AreReached = AllByRecursion (IsReachedPlace rows main) in IsReachedPlace rows main place → AreReached found.old.items → OnOk result (AreReached found.new.items) }
    ensures noted { AreNoted marks.old.items found.old.items → OnOk result (NotedMore marks.new.items found.old.items found.new.items × Contains found.new.items place) }
{
    if marks[place] == Mark::Unseen {
        found.push(place)?;
        marks[place] = Mark::Done;
    }
    Ok(())
}
