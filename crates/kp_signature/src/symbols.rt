// Which symbols are constructors, and which inj.
ghost use Rattle.std.specs.Prelude.{◌≡◌, ◌∷◌, [], string_bytes};
ghost use Rattle.kp_kore.specs.Signature.{is_parameter as parameter_test, goes_across as across_test, is_injection as injection_test, is_identity as identity_test, is_plain as plain_test, has_equations as equation_test, is_constructor as constructor_test};
ghost use Rattle.kp_kore.specs.View.{sort_view, sorts_view, names_view, symbol_sentence_view};
ghost use Rattle.kp_signature.specs.Nodes.{one_sort};

use crate::attributes::has_mark;
use kp_kore::{Name, Sort, SymbolSentence};

const MOST_ARGUMENTS: usize = 64;

/// No sort parameters, and no more arguments than are read.
pub fn is_plain(declaration: &SymbolSentence) -> bool
    ensures { result ≡ plain_test (symbol_sentence_view declaration.now) }
{
    declaration.parameters.len() == 0 && declaration.arguments.len() <= MOST_ARGUMENTS
}

/// Equations that a constructor can't have.
fn has_equations(declaration: &SymbolSentence) -> bool
    ensures { result ≡ equation_test (symbol_sentence_view declaration.now) }
{
    has_mark(&declaration.attributes, "assoc")
        || has_mark(&declaration.attributes, "comm")
        || has_mark(&declaration.attributes, "idem")
}

/// Whether the symbol is a constructor.
pub fn is_constructor(declaration: &SymbolSentence) -> bool
    ensures { result ≡ constructor_test (symbol_sentence_view declaration.now) }
{
    is_plain(declaration)
        && has_mark(&declaration.attributes, "constructor")
        && !has_equations(declaration)
}

/// Whether the symbol is named `inj` and has two sort parameters.
pub fn is_injection(declaration: &SymbolSentence) -> bool
    ensures { result ≡ injection_test (symbol_sentence_view declaration.now) }
{
    declaration.name.as_str() == "inj" && declaration.parameters.len() == 2
}

/// Whether the symbol is `inj{From,To}(From) : To`.
pub fn is_identity(declaration: &SymbolSentence) -> bool
    ensures { result ≡ identity_test (symbol_sentence_view declaration.now) }
{
    is_injection(declaration)
        && goes_across(
            &declaration.parameters,
            &declaration.arguments,
            &declaration.result_sort,
        )
}

/// Whether two parameters, one argument and a result are `{From,To}(From) : To`.
fn goes_across(parameters: &[Name], arguments: &[Sort], result_sort: &Sort) -> bool
    ensures { result ≡ across_test (names_view parameters.now) (sorts_view arguments.now) (sort_view result_sort.now) }
{
    if parameters.len() != 2 {
        return false;
    }
    if arguments.len() != 1 {
        return false;
    }
    goes_between(&parameters[0], &parameters[1], &arguments[0], result_sort)
}

/// Whether the argument is the first of two different parameters, and the result the second.
fn goes_between(first: &Name, second: &Name, argument: &Sort, result_sort: &Sort) -> bool
    ensures { let first' = string_bytes first.now in let second' = string_bytes second.now in result ≡ across_test (first' ∷ second' ∷ []) (one_sort (sort_view argument.now)) (sort_view result_sort.now) }
{
    is_parameter(argument, first) && is_parameter(result_sort, second) && first != second
}

/// Whether the sort is this parameter.
fn is_parameter(sort: &Sort, parameter: &Name) -> bool
    ensures { result ≡ parameter_test (string_bytes parameter.now) (sort_view sort.now) }
{
    match sort {
        Sort::App { .. } => false,
        Sort::Variable { name } => name == parameter,
    }
}
