// Sorts and symbols that are declared twice.
ghost use Rattle.std.specs.Prelude.{◌≡◌, ◌++◌, ◌∷◌, [], Some, OnOk, IfOk, IfErr, map, string_bytes, option_to_list};
ghost use Rattle.std.specs.Option.{option_map};
ghost use Rattle.kp_kore.specs.Syntax.{Text};
ghost use Rattle.kp_kore.specs.Signature.{sorts_in, symbols_in};
ghost use Rattle.kp_kore.specs.View.{sentence_view};
ghost use Rattle.kp_signature.specs.Table.{sort_names as sorts_named, symbol_names as symbols_named};
ghost use Rattle.kp_signature.specs.View.{sentences_of};
ghost use Rattle.kp_imports.specs.Names.{texts_of, AreOnce, IsFirstRepeated};
ghost use Rattle.kp_imports.specs.Faults.{Fault, fault_view, duplicate_sort, duplicate_symbol};

use crate::fault::{LoadError, ModuleFault};
use crate::repeated::repeated_name;
use kp_kore::{Module, Name, Sentence};
use std::alloc::{AllocError, Global};

/// M3 of the first sort that is declared again.
pub fn check_sorts(alloc: Global, modules: &[&Module]) -> Result<(), LoadError>
    ensures ok { OnOk result (AreOnce (sorts_named (sorts_in (sentences_of modules.now)))) }
    ensures err { let the_sorts_named = sorts_named (sorts_in (sentences_of modules.now)) in IfErr result (λ e. (f : Fault) → fault_view e ≡ Some f → (n : Text) × (f ≡ duplicate_sort n) × IsFirstRepeated n the_sorts_named) }
{
    let names = sort_names(alloc, modules)?;
    match repeated_name(alloc, names.as_slice())? {
        Some(name) => Err(LoadError::Fault(ModuleFault::DuplicateSort(name))),
        None => Ok(()),
    }
}

/// M4 of the first symbol that is declared again.
pub fn check_symbols(alloc: Global, modules: &[&Module]) -> Result<(), LoadError>
    ensures ok { OnOk result (AreOnce (symbols_named (symbols_in (sentences_of modules.now)))) }
    ensures err { let the_symbols_named = symbols_named (symbols_in (sentences_of modules.now)) in IfErr result (λ e. (f : Fault) → fault_view e ≡ Some f → (n : Text) × (f ≡ duplicate_symbol n) × IsFirstRepeated n the_symbols_named) }
{
    let names = symbol_names(alloc, modules)?;
    match repeated_name(alloc, names.as_slice())? {
        Some(name) => Err(LoadError::Fault(ModuleFault::DuplicateSymbol(name))),
        None => Ok(()),
    }
}

/// The names of the sorts that the modules declare.
fn sort_names<'a>(alloc: Global, modules: &[&'a Module]) -> Result<Vec<&'a Name>, AllocError>
    ensures { IfOk result (λ names. texts_of names.items ≡ sorts_named (sorts_in (sentences_of modules.now))) }
{
    let mut names = Vec::new(alloc);
    for i in 0..modules.len() {
        let module = modules[i];
        add_sort_names(&mut names, &module.sentences)?;
    }
    Ok(names)
}

/// Adds the names of the sorts that these sentences declare.
fn add_sort_names<'a>(
    names: &mut Vec<&'a Name>,
    sentences: &'a [Sentence],
) -> Result<(), AllocError>
    ensures { OnOk result (texts_of names.new.items ≡ texts_of names.old.items ++ sorts_named (sorts_in (map sentence_view sentences.now))) }
{
    for i in 0..sentences.len() {
        if let Some(name) = sort_of(&sentences[i]) {
            names.push(name)?;
        }
    }
    Ok(())
}

/// The name of the sort that a sentence declares, if it does.
fn sort_of(sentence: &Sentence) -> Option<&Name>
    ensures { sorts_named (sorts_in (sentence_view sentence.now ∷ [])) ≡ option_to_list (option_map (λ n. string_bytes n.now) result) }
{
    match sentence {
        Sentence::Sort(sort) => Some(&sort.name),
        _ => None,
    }
}

/// The names of the symbols that the modules declare.
fn symbol_names<'a>(alloc: Global, modules: &[&'a Module]) -> Result<Vec<&'a Name>, AllocError>
    ensures { IfOk result (λ names. texts_of names.items ≡ symbols_named (symbols_in (sentences_of modules.now))) }
{
    let mut names = Vec::new(alloc);
    for i in 0..modules.len() {
        let module = modules[i];
        add_symbol_names(&mut names, &module.sentences)?;
    }
    Ok(names)
}

/// Adds the names of the symbols that these sentences declare.
fn add_symbol_names<'a>(
    names: &mut Vec<&'a Name>,
    sentences: &'a [Sentence],
) -> Result<(), AllocError>
    ensures { OnOk result (texts_of names.new.items ≡ texts_of names.old.items ++ symbols_named (symbols_in (map sentence_view sentences.now))) }
{
    for i in 0..sentences.len() {
        if let Some(name) = symbol_of(&sentences[i]) {
            names.push(name)?;
        }
    }
    Ok(())
}

/// The name of the symbol that a sentence declares, if it does.
fn symbol_of(sentence: &Sentence) -> Option<&Name>
    ensures { symbols_named (symbols_in (sentence_view sentence.now ∷ [])) ≡ option_to_list (option_map (λ n. string_bytes n.now) result) }
{
    match sentence {
        Sentence::Symbol(symbol) => Some(&symbol.name),
        _ => None,
    }
}
