// The walk over the modules that main reaches, depth first, imports before the module itself.
ghost use Rattle.std.specs.Prelude.{◌≡◌, ◌<◌, IfOk, IfErr, Some, length, map};
ghost use Rattle.std.specs.List.{AllByRecursion};
ghost use Rattle.kp_kore.specs.Syntax.{Text};
ghost use Rattle.kp_kore.specs.View.{module_view};
ghost use Rattle.kp_signature.specs.Names.{Indexes, first_place};
ghost use Rattle.kp_imports.specs.Faults.{TellsImport};
ghost use Rattle.kp_imports.specs.Names.{PlacesAreBelow, module_names};
ghost use Rattle.kp_imports.specs.Walks.{IsOver};

use crate::fault::{LoadError, ModuleFault};
use crate::imports::{Import, Mark, is_entered, next_import, unseen};
use crate::names::NamePlaces;
use kp_kore::Module;
use std::alloc::{AllocError, Global};

/// A module that is open above another, and the number of its sentences up to the import of that one.
#[derive(Clone, Copy)]
pub struct Parent {
    pub place: usize,
    pub from: usize,
}

/// Where a walk stands: the open module and the sentence to go on from, those above it, and the places that are done.
#[derive(Drop)]
pub struct ImportWalk {
    pub marks: Vec<Mark>,
    pub parents: Vec<Parent>,
    pub current: usize,
    pub from: usize,
    pub done: Vec<usize>,
}

impl ImportWalk {
    ghost use Rattle.std.specs.Prelude.{◌≡◌, ◌<◌, OnOk, IfOk, IfErr, map, IsTrue, MatchBool, List, Some, length, false, slice_index_or};
    ghost use Rattle.kp_imports.specs.declared.imports.Mark.{Mark};
    ghost use Rattle.kp_imports.specs.Walks.{IsWithin, IsWalkOf, ComesTo, ComesToEnd, IsOver, work_left, is_done};
    ghost use Rattle.kp_kore.specs.View.{module_view};
    ghost use Rattle.kp_imports.specs.Faults.{TellsImport};
    ghost use Rattle.kp_imports.specs.Names.{module_names};
    ghost use Rattle.kp_signature.specs.Names.{first_place};
    ghost use Rattle.kp_kore.specs.Syntax.{Text};
    ghost use Rattle.kp_kore.specs.declared.sentence.Module.{Module};

    /// At the first sentence of one of so many modules.
    pub fn start(alloc: Global, modules: usize, start: usize) -> Result<ImportWalk, AllocError>
        requires { start < modules }
        ensures within { IfOk result IsWithin }
        ensures len { IfOk result (λ w. length w.marks.items ≡ modules) }
        ensures way { (rows : List Module) (main : Text) → length rows ≡ modules → first_place main (module_names rows) ≡ Some start → IfOk result (IsWalkOf rows main) }
    {
        let mut marks = unseen(alloc, modules)?;
        marks[start] = Mark::Open;
        Ok(ImportWalk {
            marks,
            parents: Vec::new(alloc),
            current: start,
            from: 0,
            done: Vec::new(alloc),
        })
    }

    /// Goes on in the module of an import of the open one; M2 where that is open already.
    pub fn enter(&mut self, import: Import) -> Result<(), LoadError>
        requires within { IsWithin self.old }
        requires place { import.place < length self.old.marks.items }
        requires mark { (d : Mark) → is_done (slice_index_or self.old.marks.items import.place d) ≡ false }
        ensures within { OnOk result (IsWithin self.new) }
        ensures len { OnOk result (length self.new.marks.items ≡ length self.old.marks.items) }
        ensures nearer { OnOk result (work_left self.new < work_left self.old) }
        ensures way { (rows : List Module) (main : Text) → ComesTo rows main self.old import → OnOk result (IsWalkOf rows main self.new) }
        ensures err { (rows : List Module) (main : Text) → ComesTo rows main self.old import → IfErr result (TellsImport (map module_view rows) main) }
    {
        if is_entered(&self.marks, import.place) {
            return Err(LoadError::Fault(ModuleFault::ImportCycle));
        }
        self.parents.push(Parent {
            place: self.current,
            from: import.from,
        })?;
        self.marks[import.place] = Mark::Open;
        self.current = import.place;
        self.from = 0;
        Ok(())
    }

    /// Leaves the open module; tells whether one above it is open now.
    pub fn leave(&mut self) -> Result<bool, AllocError>
        requires within { IsWithin self.old }
        ensures within { OnOk result (IsWithin self.new) }
        ensures len { OnOk result (length self.new.marks.items ≡ length self.old.marks.items) }
        ensures nearer { IfOk result (λ more. IsTrue more → work_left self.new < work_left self.old) }
        ensures way { let done = self.new.done.items in (rows : List Module) (main : Text) → ComesToEnd rows main self.old → IfOk result (λ more. MatchBool more (IsWalkOf rows main self.new) (IsOver rows main done)) }
    {
        self.done.push(self.current)?;
        self.marks[self.current] = Mark::Done;
        match self.parents.pop() {
            Some(parent) => {
                self.current = parent.place;
                self.from = parent.from;
                Ok(true)
            }
            None => Ok(false),
        }
    }
}

/// The places of the modules that the one at `start` reaches, in order, or M2.
pub fn places_in_order(
    alloc: Global,
    modules: &[Module],
    places: &NamePlaces,
    start: usize,
) -> Result<Vec<usize>, LoadError>
    requires places { PlacesAreBelow places.now (length modules.now) }
    requires start { start < length modules.now }
    ensures within { IfOk result (λ order. AllByRecursion (λ p. p < length modules.now) order.items) }
    ensures order { (main : Text) → let the_module_names = module_names modules.now in Indexes the_module_names places.now → first_place main the_module_names ≡ Some start → IfOk result (λ order. IsOver modules.now main order.items) }
    ensures err { (main : Text) → let the_module_names = module_names modules.now in Indexes the_module_names places.now → first_place main the_module_names ≡ Some start → IfErr result (TellsImport (map module_view modules.now) main) }
{
    let mut walk = ImportWalk::start(alloc, modules.len(), start)?;
    loop {
        let module = &modules[walk.current];
        match next_import(places, &walk.marks, &module.sentences, walk.from)? {
            Some(import) => walk.enter(import)?,
            None => {
                if !walk.leave()? {
                    break;
                }
            }
        }
    }
    Ok(walk.done)
}
