// Sums of a whole-number variable and a constant.
ghost use Rattle.std.specs.Prelude.{◌≡◌, ℤ, IfOk, map};
ghost use Rattle.std.specs.Option.{option_map};
ghost use Rattle.kp_kore.specs.Hooks.{whole_arithmetic, addition, subtraction};
ghost use Rattle.kp_ground.specs.View.{value_view};
ghost use Rattle.kp_signature.specs.Meanings.{function_view};
ghost use Rattle.kp_signature.specs.View.{signature_view};
ghost use Rattle.kp_symbolic.specs.Terms.{unknown, offset};
ghost use Rattle.kp_symbolic.specs.Folding.{can_be_added as addition_test, sum_of as sum_read, summed as sum_added, summed_call};
ghost use Rattle.kp_symbolic.specs.View.{variable_view, term_view, terms_of};
ghost use Rattle.kp_symbolic.specs.Languages.{language_view};
ghost use Rattle.kp_symbolic.specs.Sums.{sum_view, whole_in, whole_known, pair, constant_added, IsTaken};

use crate::language::Language;
use crate::term::Term;
use crate::variable::Variable;
use kp_ground::Value;
use kp_kore::{Arithmetic, Hook};
use kp_signature::{Function, Signature};
use std::alloc::AllocError;
use std::sync::Arc;

/// A variable of the whole-number sort, which has no other values, and a constant that is added to it.
#[derive(Clone, Copy)]
pub struct Sum<'a> {
    pub variable: &'a Arc<Variable>,
    pub constant: i128,
}

/// The term as such a variable and a constant.
pub fn sum_of<'a>(signature: &Signature, term: &'a Term) -> Option<Sum<'a>>
    ensures { option_map sum_view result ≡ sum_read (signature_view signature.now) (term_view term.now) }
{
    match term {
        Term::Unknown { variable } => sum_if(signature, variable, 0),
        Term::Offset { variable, constant } => sum_if(signature, variable, *constant),
        _ => None,
    }
}

/// The sum that a variable and a constant are, where the variable's sort is that of whole numbers.
fn sum_if<'a>(signature: &Signature, variable: &'a Arc<Variable>, constant: i128) -> Option<Sum<'a>>
    ensures { option_map sum_view result ≡ sum_read (signature_view signature.now) (offset (variable_view variable.now.value) constant) }
{
    if signature.is_number_sort(&variable.sort) {
        Some(Sum { variable, constant })
    } else {
        None
    }
}

/// Whether the sum of a variable and the constant can be written.
pub fn can_be_added(language: &Language, constant: i128) -> bool
    ensures { result ≡ addition_test (language_view language.now) constant }
{
    if constant > 0 {
        language.addition.is_some()
    } else {
        language.subtraction.is_some() && constant != i128::MIN
    }
}

/// The number that a term is.
fn whole_of(term: &Term) -> Option<i128>
    ensures { result ≡ whole_known (term_view term.now) }
{
    match term {
        Term::Known { value } => number_of(value),
        Term::Unknown { .. } | Term::Offset { .. } | Term::Headed { .. } => None,
    }
}

/// The number that a value is.
fn number_of(value: &Value) -> Option<i128>
    ensures { result ≡ whole_in (value_view value.now) }
{
    match value {
        Value::Whole { number } => Some(*number),
        Value::Truth { .. } | Value::Token { .. } | Value::Constructed { .. } => None,
    }
}

/// A variable alone as a term.
fn make_unknown(variable: &Arc<Variable>) -> Result<Term, AllocError>
    ensures { IfOk result (λ t. term_view t ≡ unknown (variable_view variable.now.value)) }
{
    Ok(Term::Unknown {
        variable: variable.clone()?,
    })
}

/// A variable and a constant as a term.
fn make_offset(variable: &Arc<Variable>, constant: i128) -> Result<Term, AllocError>
    ensures { IfOk result (λ t. term_view t ≡ offset (variable_view variable.now.value) constant) }
{
    Ok(Term::Offset {
        variable: variable.clone()?,
        constant,
    })
}

/// The sum of a variable and a constant, where it can be written, else the call as it was.
fn offset_or(
    language: &Language,
    variable: &Arc<Variable>,
    constant: i128,
    call: Term,
) -> Result<Term, AllocError>
    ensures { IfOk result (λ t. term_view t ≡ constant_added (language_view language.now) (variable_view variable.now.value) constant (term_view call)) }
{
    if constant == 0 {
        return make_unknown(variable);
    }
    if can_be_added(language, constant) {
        return make_offset(variable, constant);
    }
    Ok(call)
}

/// The sum with a further constant, or with the opposite of one, where that can be written, else the call as it was.
fn summed(
    language: &Language,
    operation: Arithmetic,
    sum: Option<Sum>,
    number: i128,
    call: Term,
) -> Result<Term, AllocError>
    ensures { (c : ℤ) → let language' = language_view language.now in IsTaken operation number c → IfOk result (λ t. term_view t ≡ sum_added language' (option_map sum_view sum.entry) c (term_view call)) }
{
    match sum {
        Some(sum) => match operation.computes(sum.constant, number) {
            Some(constant) => offset_or(language, sum.variable, constant, call),
            None => Ok(call),
        },
        None => Ok(call),
    }
}

/// The sum of two terms of which one is a number and the other a sum, else the call as it was.
fn summed_both(
    language: &Language,
    left: &Term,
    right: &Term,
    call: Term,
) -> Result<Term, AllocError>
    ensures { let language' = language_view language.now in let left' = term_view left.now in IfOk result (λ t. term_view t ≡ summed_call language' (whole_arithmetic addition) (pair left' (term_view right.now)) (term_view call)) }
{
    if let Some(number) = whole_of(right) {
        let sum = sum_of(language.signature, left);
        return summed(language, Arithmetic::Addition, sum, number, call);
    }
    match whole_of(left) {
        Some(number) => {
            let sum = sum_of(language.signature, right);
            summed(language, Arithmetic::Addition, sum, number, call)
        }
        None => Ok(call),
    }
}

/// The difference of a sum and a number, else the call as it was.
fn less_constant(
    language: &Language,
    left: &Term,
    right: &Term,
    call: Term,
) -> Result<Term, AllocError>
    ensures { let language' = language_view language.now in let left' = term_view left.now in IfOk result (λ t. term_view t ≡ summed_call language' (whole_arithmetic subtraction) (pair left' (term_view right.now)) (term_view call)) }
{
    match whole_of(right) {
        Some(number) => {
            let sum = sum_of(language.signature, left);
            summed(language, Arithmetic::Subtraction, sum, number, call)
        }
        None => Ok(call),
    }
}

/// A call that is the sum of a variable and constants as that sum, another as it was.
pub fn summed_or(
    language: &Language,
    function: Function,
    arguments: &[Term],
    call: Term,
) -> Result<Term, AllocError>
    ensures { let language' = language_view language.now in IfOk result (λ t. term_view t ≡ summed_call language' (function_view function) (terms_of (map term_view arguments.now)) (term_view call)) }
{
    if arguments.len() != 2 {
        return Ok(call);
    }
    let left = &arguments[0];
    let right = &arguments[1];
    match function {
        Function::Two(Hook::Arithmetic(Arithmetic::Addition)) => {
            summed_both(language, left, right, call)
        }
        Function::Two(Hook::Arithmetic(Arithmetic::Subtraction)) => {
            less_constant(language, left, right, call)
        }
        Function::Two(Hook::Arithmetic(Arithmetic::Multiplication)) => Ok(call),
        Function::Two(Hook::Comparison(_) | Hook::Connective(_) | Hook::Equal | Hook::Different) =>
            Ok(call),
        Function::Negation => Ok(call),
    }
}
