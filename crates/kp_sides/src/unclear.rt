// Free variables whose name says two things.
ghost use Rattle.std.specs.Prelude.{◌≡◌, ◌++◌, ◌&&◌, ◌||◌, not, IfOk, map, string_bytes};
ghost use Rattle.std.specs.List.{find, list_any};
ghost use Rattle.std.specs.Option.{option_map};
ghost use Rattle.std.specs.Str.{bytes_eq};
ghost use Rattle.kp_kore.specs.Attributes.{sorts_equal};
ghost use Rattle.kp_kore.specs.Instance.{is_named};
ghost use Rattle.kp_kore.specs.Parts.{free_variables};
ghost use Rattle.kp_kore.specs.Sides.{first_unclear as first_unclear_of};
ghost use Rattle.kp_kore.specs.View.{view, sorted_variable_view};
ghost use Rattle.kp_rules.specs.Shapes.{variables_seen};

use crate::binders::is_bound;
use kp_formulas::equality::is_same_sort;
use kp_kore::{Name, Pattern, SortedVariable};
use kp_rules::shape::{Binder, under_binders};
use std::alloc::{AllocError, Global};

/// Whether the second variable has the first one's name, at another sort.
fn is_another(variable: &SortedVariable, other: &SortedVariable) -> bool
    ensures { let x = sorted_variable_view variable.now in let y = sorted_variable_view other.now in result ≡ (bytes_eq x.name y.name && not (sorts_equal x.sort y.sort)) }
{
    variable.name.as_str() == other.name.as_str() && !is_same_sort(&variable.sort, &other.sort)
}

/// Whether one of these variables has this one's name, at another sort.
fn has_two_sorts(variable: &SortedVariable, variables: &[SortedVariable]) -> bool
    ensures { let x = sorted_variable_view variable.now in result ≡ list_any (λ y. bytes_eq x.name y.name && not (sorts_equal x.sort y.sort)) (map sorted_variable_view variables.now) }
{
    for other in variables {
        if is_another(variable, other) {
            return true;
        }
    }
    false
}

/// Whether the name of this variable says two things.
fn is_unclear(
    variable: &SortedVariable,
    variables: &[SortedVariable],
    binders: &[Binder<'_>],
) -> bool
    ensures { let x = sorted_variable_view variable.now in result ≡ (list_any (λ y. bytes_eq x.name y.name && not (sorts_equal x.sort y.sort)) (map sorted_variable_view variables.now) || is_named x.name (variables_seen binders.now)) }
{
    has_two_sorts(variable, variables) || is_bound(variable.name.as_str(), binders)
}

/// The first of these variables whose name says two things among all.
fn first_among<'a>(
    all: &[SortedVariable],
    variables: &'a [SortedVariable],
    binders: &[Binder<'_>],
) -> Option<&'a Name>
    ensures { let xs = map sorted_variable_view all.now in option_map (λ n. string_bytes n.now) result ≡ option_map (λ x. x.name) (find (λ x. list_any (λ y. bytes_eq x.name y.name && not (sorts_equal x.sort y.sort)) xs || is_named x.name (variables_seen binders.now)) (map sorted_variable_view variables.now)) }
{
    for variable in variables {
        if is_unclear(variable, all, binders) {
            return Some(&variable.name);
        }
    }
    None
}

/// The free variables of both sides, one for each place where one stands.
fn variables_of(
    alloc: Global,
    antecedent: &Pattern,
    consequent: &Pattern,
) -> Result<Vec<SortedVariable>, AllocError>
    ensures { IfOk result (λ xs. map sorted_variable_view xs.items ≡ free_variables (view antecedent.now) ++ free_variables (view consequent.now)) }
{
    let mut found = antecedent.free_vars(alloc)?;
    let mut others = consequent.free_vars(alloc)?;
    found.append(&mut others)?;
    Ok(found)
}

/// The first free variable of two sorts, or with the name of one that the consequent binds.
pub fn first_unclear(
    alloc: Global,
    antecedent: &Pattern,
    consequent: &Pattern,
) -> Result<Option<Name>, AllocError>
    ensures { IfOk result (λ o. option_map string_bytes o ≡ first_unclear_of (view antecedent.now) (view consequent.now)) }
{
    let variables = variables_of(alloc, antecedent, consequent)?;
    let bound = under_binders(alloc, consequent)?;
    match first_among(&variables, &variables, &bound.variables) {
        Some(name) => Ok(Some(name.clone()?)),
        None => Ok(None),
    }
}
