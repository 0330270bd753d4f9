// The imports of a module, each as the place of the module that it names.
ghost use Rattle.std.specs.Prelude.{◌≡◌, ◌<◌, ◌∷◌, [], take, option_to_list, MatchOption, IfOk, IfErr, IfSome, Some, None, length, string_bytes, replicate, false, slice_index_or};
ghost use Rattle.std.specs.Option.{option_map};
ghost use Rattle.kp_kore.specs.View.{sentence_view};
ghost use Rattle.kp_kore.specs.Theory.{imports_in};
ghost use Rattle.indexmap.specs.IndexMap.{get_by_text};
ghost use Rattle.kp_imports.specs.Faults.{Fault, fault_view, unknown_import, TellsUnplaced};
ghost use Rattle.kp_imports.specs.Names.{PlacesAreBelow};
ghost use Rattle.kp_imports.specs.declared.imports.Mark.{Mark};
ghost use Rattle.kp_imports.specs.declared.imports.Mark.TheVariants as mark;
ghost use Rattle.kp_imports.specs.Walks.{is_done, is_open, import_names, ArePassed, IsNext};

use crate::fault::{LoadError, ModuleFault};
use crate::names::NamePlaces;
use kp_kore::{Name, Sentence};
use std::alloc::{AllocError, Global};

/// The place of the module of this name, or M1.
pub fn place_of(places: &NamePlaces, name: &Name) -> Result<usize, LoadError>
    ensures ok { IfOk result (λ p. get_by_text places.now (string_bytes name.now) ≡ Some p) }
    ensures err { let the_string_bytes = string_bytes name.now in IfErr result (λ e. (f : Fault) → fault_view e ≡ Some f → (f ≡ unknown_import the_string_bytes) × (get_by_text places.now the_string_bytes ≡ None)) }
{
    match places.get(name.as_str()) {
        Some(place) => Ok(*place),
        None => Err(LoadError::Fault(ModuleFault::UnknownImport(name.clone()?))),
    }
}

/// Whether the walk over modules has come to a module, and has left it.
#[derive(Clone, Copy)]
pub enum Mark {
    Unseen,
    Open,
    Done,
}

/// No module is seen yet.
pub fn unseen(alloc: Global, modules: usize) -> Result<Vec<Mark>, AllocError>
    ensures len { IfOk result (λ marks. length marks.items ≡ modules) }
    ensures items { IfOk result (λ marks. marks.items ≡ replicate modules mark.Unseen) }
{
    let mut marks = Vec::new(alloc);
    marks.resize(modules, Mark::Unseen)?;
    Ok(marks)
}

/// The place of the module that an import names, and the number of the sentences up to the import.
#[derive(Clone, Copy)]
pub struct Import {
    pub place: usize,
    pub from: usize,
}

/// The name that a sentence imports.
pub fn import_of(sentence: &Sentence) -> Option<&Name>
    ensures { imports_in (sentence_view sentence.now ∷ []) ≡ option_to_list (option_map (λ n. string_bytes n.now) result) }
{
    match sentence {
        Sentence::Import { name, .. } => Some(name),
        _ => None,
    }
}

/// Whether the module at a place is done.
fn has_left(marks: &[Mark], place: usize) -> bool
    requires { place < length marks.now }
    ensures { (d : Mark) → result ≡ is_done (slice_index_or marks.now place d) }
{
    match marks[place] {
        Mark::Done => true,
        _ => false,
    }
}

/// Whether the module at a place is open.
pub fn is_entered(marks: &[Mark], place: usize) -> bool
    requires { place < length marks.now }
    ensures { (d : Mark) → result ≡ is_open (slice_index_or marks.now place d) }
{
    match marks[place] {
        Mark::Open => true,
        _ => false,
    }
}

/// The first import among the sentences from one on whose module isn't done.
pub fn next_import(
    places: &NamePlaces,
    marks: &[Mark],
    sentences: &[Sentence],
    from: usize,
) -> Result<Option<Import>, LoadError>
    requires { PlacesAreBelow places.now (length marks.now) }
    ensures place { IfOk result (λ o. IfSome o (λ i. i.place < length marks.now)) }
    ensures mark { (d : Mark) → IfOk result (λ o. IfSome o (λ i. is_done (slice_index_or marks.now i.place d) ≡ false)) }
    ensures err { IfErr result (TellsUnplaced places.now (import_names sentences.now)) }
    ensures next { let the_import_names = import_names (take from sentences.now) in IfOk result (λ o. MatchOption o (ArePassed places.now marks.now the_import_names (import_names sentences.now)) (IsNext places.now marks.now sentences.now from)) }
{
    for sentence in from..sentences.len() {
        if let Some(name) = import_of(&sentences[sentence]) {
            let place = place_of(places, name)?;
            if !has_left(marks, place) {
                return Ok(Some(Import {
                    place,
                    from: sentence + 1,
                }));
            }
        }
    }
    Ok(None)
}
