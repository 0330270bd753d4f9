// The sum of a variable and a constant as a pattern.
ghost use Rattle.std.specs.Prelude.{◌≡◌, ℤ, pos, neg_ℤ, int_lt, true, false, IfOk, string_bytes};
ghost use Rattle.std.specs.Fmt.{signed_decimal};
ghost use Rattle.std.specs.Option.{option_map};
ghost use Rattle.kp_kore.specs.Syntax.{literal};
ghost use Rattle.kp_kore.specs.View.{view, sort_view};
ghost use Rattle.kp_symbolic.specs.Writing.{written_call, written_sum};
ghost use Rattle.kp_symbolic.specs.Languages.{language_view};
ghost use Rattle.kp_symbolic.specs.View.{variable_view};
ghost use Rattle.kp_outward.specs.Parts.{sum_pattern};

use crate::sort_places::variable_out;
use kp_kore::{Name, Pattern, Sort};
use kp_pattern_substitution::build::application_of;
use kp_symbolic::{Language, Variable};
use std::alloc::{AllocError, Global};
use std::sync::Arc;

/// The digits of the constant without its sign.
fn digits_of(alloc: Global, constant: i128) -> Result<Name, AllocError>
    ensures added { int_lt (pos 0) constant ≡ true → IfOk result (λ t. string_bytes t ≡ signed_decimal constant) }
    ensures taken { int_lt (pos 0) constant ≡ false → IfOk result (λ t. string_bytes t ≡ signed_decimal (neg_ℤ constant)) }
{
    constant.unsigned_abs().to_string(alloc)
}

/// The literal of these digits.
fn number_of(alloc: Global, sort: &Sort, digits: Name) -> Result<Pattern, AllocError>
    ensures { IfOk result (λ p. view p ≡ literal (sort_view sort.now) (string_bytes digits)) }
{
    Ok(Pattern::Literal {
        sort: sort.copy(alloc)?,
        text: digits,
    })
}

/// The variable and a number under the symbol.
fn under_symbol(
    alloc: Global,
    symbol: &Name,
    variable: &Variable,
    digits: Name,
) -> Result<Pattern, AllocError>
    ensures { let f = string_bytes symbol.now in IfOk result (λ p. view p ≡ sum_pattern f (variable_view variable.now) (string_bytes digits)) }
{
    let mut arguments = Vec::new(alloc);
    arguments.push(variable_out(alloc, variable)?)?;
    arguments.push(number_of(alloc, &variable.sort, digits)?)?;
    application_of(alloc, symbol, &[], arguments)
}

/// The variable and a number under the symbol, the variable alone where there is none.
fn call_out(
    alloc: Global,
    symbol: &Option<Arc<String>>,
    variable: &Variable,
    digits: Name,
) -> Result<Pattern, AllocError>
    ensures { let f = option_map (λ f. string_bytes f.value) symbol.now in (n : ℤ) → string_bytes digits ≡ signed_decimal n → IfOk result (λ p. view p ≡ written_call f (variable_view variable.now) n) }
{
    match symbol {
        Some(symbol) => under_symbol(alloc, symbol, variable, digits),
        None => variable_out(alloc, variable),
    }
}

/// The sum of a variable and a constant other than 0: a positive one is added, the opposite of a negative one subtracted.
pub fn sum_out(
    alloc: Global,
    language: &Language,
    variable: &Variable,
    constant: i128,
) -> Result<Pattern, AllocError>
    ensures { IfOk result (λ p. view p ≡ written_sum (language_view language.now) (variable_view variable.now) constant) }
{
    let digits = digits_of(alloc, constant)?;
    if constant > 0 {
        call_out(alloc, &language.addition, variable, digits)
    } else {
        call_out(alloc, &language.subtraction, variable, digits)
    }
}
