// Comparisons as bounds of differences, and how many digits their constants have.
ghost use Rattle.std.specs.Prelude.{◌≡◌, ◌++◌, ◌+ℤ◌, ◌-ℤ◌, map, unsigned_abs, IfOk, OnOk};
ghost use Rattle.std.specs.Option.{option_map};
ghost use Rattle.kp_kore.specs.HookView.{comparison_view};
ghost use Rattle.kp_symbolic.specs.Plain.{compares};
ghost use Rattle.kp_symbolic.specs.Weights as model;
ghost use Rattle.kp_symbolic.specs.Weights.{IsBitLength, largest};
ghost use Rattle.kp_literals.specs.Forms.{form_view, whole_part_view};
ghost use Rattle.kp_literals.specs.Readings.{read_view, clauses_view};
ghost use Rattle.kp_literals.specs.Bounds.{difference_view, strictness, said_bounds, clause_bounds};

use crate::form::{LiteralForm, WholePart};
use crate::reading::ReadLiteral;
use kp_kore::Comparison;
use std::alloc::{AllocError, Global};

/// That the first side is at most the second, or less.
#[derive(Clone, Copy)]
pub struct Difference<'a> {
    pub first: WholePart<'a>,
    pub second: WholePart<'a>,
    pub is_strict: bool,
}

/// That the first side is at most the second, or less.
fn below<'a>(first: WholePart<'a>, second: WholePart<'a>, is_strict: bool) -> Difference<'a>
    ensures { difference_view result ≡ model.below (whole_part_view first.entry) (whole_part_view second.entry) (strictness is_strict) }
{
    Difference {
        first,
        second,
        is_strict,
    }
}

/// Adds the bounds of all ways for a comparison to hold.
fn add_comparison<'a>(
    bounds: &mut Vec<Difference<'a>>,
    comparison: Comparison,
    first: WholePart<'a>,
    second: WholePart<'a>,
) -> Result<(), AllocError>
    ensures { let said = compares (comparison_view comparison) (whole_part_view first.entry) (whole_part_view second.entry) in OnOk result (map difference_view bounds.new.items ≡ map difference_view bounds.old.items ++ model.bounds_of said) }
{
    match comparison {
        Comparison::AtMost => bounds.push(below(first, second, false))?,
        Comparison::Less => bounds.push(below(first, second, true))?,
        Comparison::AtLeast => bounds.push(below(second, first, false))?,
        Comparison::Greater => bounds.push(below(second, first, true))?,
        Comparison::Equal => {
            bounds.push(below(first, second, false))?;
            bounds.push(below(second, first, false))?
        }
        Comparison::Different => {
            bounds.push(below(first, second, true))?;
            bounds.push(below(second, first, true))?
        }
    }
    Ok(())
}

/// Adds the bounds of a form, if it is a comparison.
fn add_form<'a>(bounds: &mut Vec<Difference<'a>>, form: LiteralForm<'a>) -> Result<(), AllocError>
    ensures { OnOk result (map difference_view bounds.new.items ≡ map difference_view bounds.old.items ++ model.bounds_of (form_view form.entry)) }
{
    match form {
        LiteralForm::Compares {
            comparison,
            first,
            second,
        } => add_comparison(bounds, comparison, first, second),
        LiteralForm::Truth { .. }
        | LiteralForm::Equates { .. }
        | LiteralForm::Asks { .. }
        | LiteralForm::Gives { .. } => Ok(()),
    }
}

/// Adds the bounds of what a literal says.
fn add_literal<'a>(
    bounds: &mut Vec<Difference<'a>>,
    form: Option<LiteralForm<'a>>,
) -> Result<(), AllocError>
    ensures { OnOk result (map difference_view bounds.new.items ≡ map difference_view bounds.old.items ++ said_bounds (option_map form_view form.entry)) }
{
    match form {
        Some(form) => add_form(bounds, form),
        None => Ok(()),
    }
}

/// Adds the bounds of a clause.
fn add_clause<'a>(
    bounds: &mut Vec<Difference<'a>>,
    clause: &[ReadLiteral<'a>],
) -> Result<(), AllocError>
    ensures { OnOk result (map difference_view bounds.new.items ≡ map difference_view bounds.old.items ++ clause_bounds (map read_view clause.now)) }
{
    for literal in clause {
        add_literal(bounds, literal.form)?;
    }
    Ok(())
}

/// The bounds of all clauses, those of a difference and of an equality being two.
pub fn all_bounds<'a>(
    alloc: Global,
    clauses: &[Vec<ReadLiteral<'a>>],
) -> Result<Vec<Difference<'a>>, AllocError>
    ensures { IfOk result (λ bounds. map difference_view bounds.items ≡ model.all_bounds (clauses_view clauses.now)) }
{
    let mut bounds = Vec::new(alloc);
    for clause in clauses {
        add_clause(&mut bounds, clause)?;
    }
    Ok(bounds)
}

/// How many binary digits a number has.
fn bit_length(number: u128) -> u64
    ensures { IsBitLength number result }
{
    128 - number.leading_zeros() as u64
}

/// How many binary digits the difference of two numbers has without its sign, or that less one.
fn gap_length(first: i128, second: i128, is_strict: bool) -> u64
    ensures { IsBitLength (unsigned_abs ((second -ℤ first) +ℤ strictness is_strict)) result }
{
    let distance = second.abs_diff(first);
    if !is_strict {
        return bit_length(distance);
    }
    if first < second {
        return bit_length(distance - 1);
    }
    match distance.checked_add(1) {
        Some(distance) => bit_length(distance),
        None => 129,
    }
}

/// How many binary digits the constant of a bound has.
fn bound_length(bound: Difference) -> u64
    ensures { IsBitLength (unsigned_abs (difference_view bound.entry).most) result }
{
    gap_length(bound.first.constant, bound.second.constant, bound.is_strict)
}

/// How many binary digits the largest constant of the bounds has.
pub fn largest_length(bounds: &[Difference]) -> u64
    ensures { IsBitLength (largest (map difference_view bounds.now)) result }
{
    let mut length: u64 = 0;
    for bound in bounds {
        length = length.max(bound_length(*bound));
    }
    length
}
