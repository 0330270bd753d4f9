// A number or a sum with a constant added.
ghost use Rattle.std.specs.Prelude.{◌≡◌, IfOk, neg_ℤ};
ghost use Rattle.std.specs.Option.{option_map};
ghost use Rattle.kp_symbolic.specs.Folding.{sum_of};
ghost use Rattle.kp_symbolic.specs.Languages.{language_view};
ghost use Rattle.kp_symbolic.specs.View.{term_view, variable_view};
ghost use Rattle.kp_goals.specs.Gives as model;

use kp_ground::Value;
use kp_symbolic::sum::{Sum, can_be_added, sum_of};
use kp_symbolic::{Language, Term};
use std::alloc::AllocError;

/// The sum with the constant, where that can be written.
fn summed(language: &Language, sum: Sum<'_>, constant: i128) -> Result<Option<Term>, AllocError>
    ensures { IfOk result (λ o. option_map term_view o ≡ model.summed_of (language_view language.now) (variable_view sum.entry.variable.now.value) constant) }
{
    if constant == 0 {
        return Ok(Some(Term::Unknown {
            variable: sum.variable.clone()?,
        }));
    }
    if can_be_added(language, constant) {
        return Ok(Some(Term::Offset {
            variable: sum.variable.clone()?,
            constant,
        }));
    }
    Ok(None)
}

/// The term less a constant, where it is a sum that can be written so.
fn sum_less(language: &Language, term: &Term, constant: i128) -> Result<Option<Term>, AllocError>
    ensures { let g = language_view language.now in IfOk result (λ o. option_map term_view o ≡ model.of_sum g (neg_ℤ constant) (sum_of g (term_view term.now))) }
{
    match sum_of(language.signature, term) {
        Some(sum) => match sum.constant.checked_sub(constant) {
            Some(total) => summed(language, sum, total),
            None => Ok(None),
        },
        None => Ok(None),
    }
}

/// The number less a constant, where 128 bits hold it.
fn number_less(number: i128, constant: i128) -> Option<Term>
    ensures { option_map term_view result ≡ model.number_with number (neg_ℤ constant) }
{
    match number.checked_sub(constant) {
        Some(number) => Some(Term::Known {
            value: Value::Whole { number },
        }),
        None => None,
    }
}

/// A number or a sum less a constant, where that can be written.
pub fn shifted(language: &Language, term: &Term, constant: i128) -> Result<Option<Term>, AllocError>
    ensures { IfOk result (λ o. option_map term_view o ≡ model.shifted (language_view language.now) (neg_ℤ constant) (term_view term.now)) }
{
    match term {
        Term::Known {
            value: Value::Whole { number },
        } => Ok(number_less(*number, constant)),
        _ => sum_less(language, term, constant),
    }
}
