// What declared symbols mean.
ghost use Rattle.std.specs.Prelude.{◌≡◌, IfOk, map, true};
ghost use Rattle.std.specs.Option.{option_map};
ghost use Rattle.kp_kore.specs.Signature.{is_number_sort, is_truth_sort, are_two, are_one, fits_hook, fitting_hook, symbol_meaning as meaning_declared, meaning_of as meaning_named};
ghost use Rattle.kp_kore.specs.View.{sort_view, sorts_view, symbol_sentence_view};
ghost use Rattle.kp_signature.specs.Meanings.{function_view, meaning_view};
ghost use Rattle.kp_signature.specs.Table.{table_view};
ghost use Rattle.kp_signature.specs.View.{signature_view};

use crate::attributes::text_of;
use crate::function::Function;
use crate::hooks::function_named;
use crate::kinds::Kinds;
use crate::meaning::Meaning;
use crate::signature::Signature;
use crate::symbols::{is_constructor, is_identity, is_plain};
use kp_kore::{Hook, Sort, SymbolSentence};
use std::alloc::{AllocError, Global};

/// Whether these are two sorts of whole numbers.
fn are_two_numbers(kinds: &Kinds, sorts: &[Sort]) -> bool
    ensures { result ≡ are_two (is_number_sort (table_view kinds.now.declarations.table)) (sorts_view sorts.now) }
{
    match sorts {
        [first, second] => kinds.is_number_sort(first) && kinds.is_number_sort(second),
        _ => false,
    }
}

/// Whether these are two sorts of truth values.
fn are_two_truths(kinds: &Kinds, sorts: &[Sort]) -> bool
    ensures { result ≡ are_two (is_truth_sort (table_view kinds.now.declarations.table)) (sorts_view sorts.now) }
{
    match sorts {
        [first, second] => kinds.is_truth_sort(first) && kinds.is_truth_sort(second),
        _ => false,
    }
}

/// Whether this is one sort of truth values.
fn is_one_truth(kinds: &Kinds, sorts: &[Sort]) -> bool
    ensures { result ≡ are_one (is_truth_sort (table_view kinds.now.declarations.table)) (sorts_view sorts.now) }
{
    match sorts {
        [only] => kinds.is_truth_sort(only),
        _ => false,
    }
}

/// Whether these are two sorts.
fn are_two_of_any(sorts: &[Sort]) -> bool
    ensures { result ≡ are_two (λ s. true) (sorts_view sorts.now) }
{
    sorts.len() == 2
}

/// Whether the arguments' sorts and the result's are of the function's kinds, and have values of these kinds alone.
fn fits_function(kinds: &Kinds, function: Function, arguments: &[Sort], result_sort: &Sort) -> bool
    ensures { result ≡ fits_hook (table_view kinds.now.declarations.table) (function_view function) (sorts_view arguments.now) (sort_view result_sort.now) }
{
    match function {
        Function::Two(Hook::Arithmetic(_)) => {
            are_two_numbers(kinds, arguments) && kinds.is_number_sort(result_sort)
        }
        Function::Two(Hook::Comparison(_)) => {
            are_two_numbers(kinds, arguments) && kinds.is_truth_sort(result_sort)
        }
        Function::Two(Hook::Connective(_)) => {
            are_two_truths(kinds, arguments) && kinds.is_truth_sort(result_sort)
        }
        Function::Two(Hook::Equal | Hook::Different) => {
            are_two_of_any(arguments) && kinds.is_truth_sort(result_sort)
        }
        Function::Negation => { is_one_truth(kinds, arguments) && kinds.is_truth_sort(result_sort) }
    }
}

/// The function of a symbol's hook, where it is one of the table and fits the symbol's sorts.
fn fitting_function(kinds: &Kinds, declaration: &SymbolSentence) -> Option<Function>
    ensures { option_map function_view result ≡ fitting_hook (table_view kinds.now.declarations.table) (symbol_sentence_view declaration.now) }
{
    let name = text_of(&declaration.attributes, "hook")?;
    let function = function_named(name)?;
    if fits_function(
        kinds,
        function,
        &declaration.arguments,
        &declaration.result_sort,
    ) {
        Some(function)
    } else {
        None
    }
}

/// What the declared symbol means.
fn symbol_meaning(kinds: &Kinds, declaration: &SymbolSentence) -> Meaning
    ensures { meaning_view result ≡ meaning_declared (table_view kinds.now.declarations.table) (symbol_sentence_view declaration.now) }
{
    if is_identity(declaration) {
        Meaning::Injection
    } else if is_constructor(declaration) {
        Meaning::Constructor
    } else if is_plain(declaration) {
        match fitting_function(kinds, declaration) {
            Some(function) => Meaning::Interpreted(function),
            None => Meaning::Foreign,
        }
    } else {
        Meaning::Foreign
    }
}

/// What each declared symbol means, in order.
pub fn meanings(alloc: Global, kinds: &Kinds) -> Result<Vec<Meaning>, AllocError>
    ensures { let table' = table_view kinds.now.declarations.table in IfOk result (λ ms. map meaning_view ms.items ≡ map (meaning_declared table') table'.symbols) }
{
    let mut meanings = Vec::new(alloc);
    for declaration in kinds.declarations.symbols() {
        meanings.push(symbol_meaning(kinds, declaration))?;
    }
    Ok(meanings)
}

/// What the name at the head of an application means, as its first declaration as a symbol says. Takes no memory, and
/// reads what was kept for the declaration.
pub fn meaning_of(signature: &Signature, name: &str) -> Meaning
    ensures { meaning_view result ≡ meaning_named (signature_view signature.now) name.now }
{
    match signature.meaning(name) {
        Some(meaning) => *meaning,
        None => Meaning::Foreign,
    }
}
