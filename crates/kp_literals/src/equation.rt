// The equation that a literal is: a variable, and a term of its sort that doesn't hold it.
ghost use Rattle.std.specs.Prelude.{◌≡◌, ◌&&◌, map, string_bytes, if◌then◌else◌};
ghost use Rattle.std.specs.Option.{option_map};
ghost use Rattle.kp_kore.specs.Attributes.{sorts_equal};
ghost use Rattle.kp_kore.specs.Signature.{symbol_declared};
ghost use Rattle.kp_kore.specs.Sorting.{result_sort};
ghost use Rattle.kp_kore.specs.Syntax.{no_sorts};
ghost use Rattle.kp_kore.specs.View.{sort_view};
ghost use Rattle.kp_signature.specs.Meanings.{meaning_view};
ghost use Rattle.kp_ground.specs.View.{value_view};
ghost use Rattle.kp_signature.specs.View.{signature_view};
ghost use Rattle.kp_compile.specs.Spelled.{own_sort};
ghost use Rattle.kp_symbolic.specs.Folding.{is_text_before};
ghost use Rattle.kp_symbolic.specs.Solving as model;
ghost use Rattle.kp_symbolic.specs.Terms.{unknown, headed};
ghost use Rattle.kp_symbolic.specs.WellFormed.{term_sort, is_sort_below};
ghost use Rattle.kp_symbolic.specs.Writing as writing;
ghost use Rattle.kp_symbolic.specs.View.{variable_view, term_view, terms_of, literal_view};
ghost use Rattle.kp_literals.specs.Equations.{equation_view, equates_if, of_equality, solved_for_either, sides_if_true};

use crate::form::truth_of;
use crate::value_kinds::{has_numbers, has_truths, is_same, lies_below};
use kp_ground::Value;
use kp_kore::{Comparison, Hook, Sort};
use kp_signature::{Function, Meaning, Signature, meaning_of};
use kp_symbolic::language::is_before;
use kp_symbolic::{Atom, Literal, Term, Variable};

/// A variable, and the term that it is equal to. `equation_view` in specs/Equations.antt says which equation of
/// kp_symbolic it is.
#[derive(Clone, Copy)]
pub struct Equation<'a> {
    pub variable: &'a Variable,
    pub term: &'a Term,
}

/// Whether the values that a symbol is declared to make are of the sort.
fn makes_below(signature: &Signature, name: &str, sort: &Sort) -> bool
    ensures { result ≡ is_sort_below (signature_view signature.now) (result_sort (signature_view signature.now) name.now no_sorts) (sort_view sort.now) }
{
    if let Some(declaration) = signature.symbol(name) {
        return lies_below(signature, &declaration.result_sort, sort);
    }
    match signature.alias(name) {
        Some(declaration) => lies_below(signature, &declaration.result_sort, sort),
        None => false,
    }
}

/// Whether the sort that a constructor is declared to make is the sort or below it.
fn constructs_below(signature: &Signature, constructor: &str, sort: &Sort) -> bool
    ensures { let g = signature_view signature.now in result ≡ is_sort_below g (option_map (λ d. d.result) (symbol_declared g constructor.now)) (sort_view sort.now) }
{
    match signature.symbol(constructor) {
        Some(declaration) => lies_below(signature, &declaration.result_sort, sort),
        None => false,
    }
}

/// Whether a value's own sort is the sort or below it.
fn value_lies_below(signature: &Signature, value: &Value, sort: &Sort) -> bool
    ensures { result ≡ is_sort_below (signature_view signature.now) (own_sort (signature_view signature.now) (value_view value.now)) (sort_view sort.now) }
{
    match value {
        Value::Whole { .. } => has_numbers(signature, sort),
        Value::Truth { .. } => has_truths(signature, sort),
        Value::Token { sort: own, .. } => lies_below(signature, own, sort),
        Value::Constructed { constructor, .. } => constructs_below(signature, constructor, sort),
    }
}

/// Whether the sort of a term's head is the sort or below it.
fn term_lies_below(signature: &Signature, term: &Term, sort: &Sort) -> bool
    ensures { result ≡ is_sort_below (signature_view signature.now) (term_sort (signature_view signature.now) (term_view term.now)) (sort_view sort.now) }
{
    match term {
        Term::Unknown { variable } => lies_below(signature, &variable.sort, sort),
        Term::Offset { variable, .. } => lies_below(signature, &variable.sort, sort),
        Term::Known { value } => value_lies_below(signature, value, sort),
        Term::Headed { symbol, .. } => makes_below(signature, symbol, sort),
    }
}

/// Whether the variable may be solved for by the term.
pub fn is_solved_by(signature: &Signature, variable: &Variable, term: &Term) -> bool
    ensures { result ≡ writing.is_solved_by (signature_view signature.now) (variable_view variable.now) (term_view term.now) }
{
    !term.has_name(&variable.name) && term_lies_below(signature, term, &variable.sort)
}

/// The equation of the variable with the term, where it may be solved for.
fn equation_if<'a>(
    signature: &Signature,
    variable: &'a Variable,
    term: &'a Term,
) -> Option<Equation<'a>>
    ensures { option_map equation_view result ≡ model.equation_if (signature_view signature.now) (variable_view variable.now) (term_view term.now) }
{
    if is_solved_by(signature, variable, term) {
        Some(Equation { variable, term })
    } else {
        None
    }
}

/// Whether the variables have one sort, and the second is the one least by name.
fn goes_first(first: &Variable, second: &Variable) -> bool
    ensures { let first' = variable_view first.now in let second' = variable_view second.now in result ≡ (sorts_equal first'.sort second'.sort && is_text_before second'.name first'.name) }
{
    is_same(&first.sort, &second.sort) && is_before(&second.name, &first.name)
}

/// The equation of one of two variables with the other's term.
fn equation_of_variables<'a>(
    signature: &Signature,
    first: &'a Variable,
    left: &'a Term,
    second: &'a Variable,
    right: &'a Term,
) -> Option<Equation<'a>>
    ensures { let first' = variable_view first.now in let second' = variable_view second.now in option_map equation_view result ≡ solved_for_either (signature_view signature.now) first' (term_view left.now) second' (term_view right.now) }
{
    if goes_first(first, second) {
        return equation_if(signature, second, left);
    }
    match equation_if(signature, first, right) {
        Some(equation) => Some(equation),
        None => equation_if(signature, second, left),
    }
}

/// The equation of a variable with a term on either side of it.
fn equation_with<'a>(
    signature: &Signature,
    variable: &'a Variable,
    left: &'a Term,
    right: &'a Term,
) -> Option<Equation<'a>>
    requires { term_view left.now ≡ unknown (variable_view variable.now) }
    ensures { option_map equation_view result ≡ model.equation_of_sides (signature_view signature.now) (term_view left.now) (term_view right.now) }
{
    match right {
        Term::Unknown { variable: other } => {
            equation_of_variables(signature, variable, left, other, right)
        }
        Term::Offset { .. } | Term::Known { .. } | Term::Headed { .. } => {
            equation_if(signature, variable, right)
        }
    }
}

/// The equation that two sides are, of a variable that one of them is.
fn equation_of_sides<'a>(
    signature: &Signature,
    left: &'a Term,
    right: &'a Term,
) -> Option<Equation<'a>>
    ensures { option_map equation_view result ≡ model.equation_of_sides (signature_view signature.now) (term_view left.now) (term_view right.now) }
{
    if let Term::Unknown { variable } = left {
        return equation_with(signature, variable, left, right);
    }
    if let Term::Unknown { variable } = right {
        return equation_if(signature, variable, left);
    }
    None
}

/// Whether a call of a symbol of this meaning is true where its sides are equal.
fn tells_equal(meaning: Meaning) -> bool
    ensures { result ≡ model.tells_equal (meaning_view meaning) }
{
    matches!(
        meaning,
        Meaning::Interpreted(Function::Two(Hook::Comparison(Comparison::Equal) | Hook::Equal))
    )
}

/// Whether a call of a symbol of this meaning is true where its sides differ.
fn tells_different(meaning: Meaning) -> bool
    ensures { result ≡ model.tells_different (meaning_view meaning) }
{
    matches!(
        meaning,
        Meaning::Interpreted(Function::Two(
            Hook::Comparison(Comparison::Different) | Hook::Different
        ))
    )
}

/// Whether a call of a symbol of this meaning, where it is true, or false, tells that its sides are equal.
fn equates(holds: bool, meaning: Meaning) -> bool
    ensures { result ≡ equates_if holds (meaning_view meaning) }
{
    if holds {
        tells_equal(meaning)
    } else {
        tells_different(meaning)
    }
}

/// What a symbol's call equates where it is true, or false.
fn equation_of_call<'a>(
    signature: &Signature,
    holds: bool,
    symbol: &str,
    arguments: &'a [Term],
) -> Option<Equation<'a>>
    ensures { option_map equation_view result ≡ model.equation_of_truth (signature_view signature.now) holds (headed symbol.now (terms_of (map term_view arguments.now))) }
{
    match arguments {
        [left, right] => {
            if equates(holds, meaning_of(signature, symbol)) {
                equation_of_sides(signature, left, right)
            } else {
                None
            }
        }
        _ => None,
    }
}

/// What a Boolean expression equates where it is true, or false.
fn equation_of_truth<'a>(signature: &Signature, holds: bool, term: &'a Term) -> Option<Equation<'a>>
    ensures { option_map equation_view result ≡ model.equation_of_truth (signature_view signature.now) holds (term_view term.now) }
{
    match term {
        Term::Headed { symbol, arguments } => {
            equation_of_call(signature, holds, symbol, arguments)
        }
        Term::Unknown { .. } | Term::Offset { .. } | Term::Known { .. } => None,
    }
}

/// The equation that two sides are, where they are to be equal.
fn sides_if<'a>(
    signature: &Signature,
    holds: bool,
    left: &'a Term,
    right: &'a Term,
) -> Option<Equation<'a>>
    ensures { option_map equation_view result ≡ sides_if_true (signature_view signature.now) holds (term_view left.now) (term_view right.now) }
{
    if holds {
        equation_of_sides(signature, left, right)
    } else {
        None
    }
}

/// What a Boolean expression equates where it is true, or false; else the equation of the sides.
fn equation_beside<'a>(
    signature: &Signature,
    holds: bool,
    truth: &'a Term,
    sides: Option<Equation<'a>>,
) -> Option<Equation<'a>>
    ensures { let equated = model.equation_of_truth (signature_view signature.now) holds (term_view truth.now) in option_map equation_view result ≡ model.first_equation equated (option_map equation_view sides.entry) }
{
    match equation_of_truth(signature, holds, truth) {
        Some(equation) => Some(equation),
        None => sides,
    }
}

/// The equation that the equality of two terms is, or its opposite.
fn equation_of_equality<'a>(
    signature: &Signature,
    holds: bool,
    left: &'a Term,
    right: &'a Term,
) -> Option<Equation<'a>>
    ensures { option_map equation_view result ≡ of_equality (signature_view signature.now) holds (term_view left.now) (term_view right.now) }
{
    let sides = sides_if(signature, holds, left, right);
    if let Some(value) = truth_of(right) {
        return equation_beside(signature, value == holds, left, sides);
    }
    if let Some(value) = truth_of(left) {
        return equation_beside(signature, value == holds, right, sides);
    }
    sides
}

/// The equation that a literal is, where it is one.
pub fn equation_of<'a>(signature: &Signature, literal: &'a Literal) -> Option<Equation<'a>>
    ensures { option_map equation_view result ≡ model.equation_of_atom (signature_view signature.now) (literal_view literal.now).holds (literal_view literal.now).atom }
{
    match &literal.atom {
        Atom::Same { left, right, .. } => {
            equation_of_equality(signature, literal.holds, left, right)
        }
        Atom::Head { .. } | Atom::Quoted { .. } => None,
    }
}
