// Variables among others.
ghost use Rattle.std.specs.Prelude.{◌≡◌, ◌++◌, ◌&&◌, IfOk, OnOk, map, string_bytes};
ghost use Rattle.std.specs.Str.{bytes_eq};
ghost use Rattle.kp_kore.specs.Attributes.{sorts_equal};
ghost use Rattle.kp_kore.specs.Parts.{all_free_variables};
ghost use Rattle.kp_kore.specs.View.{view, sort_view, patterns_view, sorted_variable_view};
ghost use Rattle.kp_rules.specs.Known.{is_among as member_of, free_beside as free_of_side};
ghost use Rattle.kp_successors.specs.Nexts.{ensured_of};

use kp_kore::{Pattern, Sort, SortedVariable};
use kp_rules::RightSide;
use std::alloc::{AllocError, Global};

/// Whether both are the same sort.
fn is_same_sort(sort: &Sort, other: &Sort) -> bool
    ensures { result ≡ sorts_equal (sort_view sort.now) (sort_view other.now) }
{
    sort.equal(other)
}

/// Whether both are the same variable, by name and sort.
fn is_same(variable: &SortedVariable, other: &SortedVariable) -> bool
    ensures { result ≡ (bytes_eq (string_bytes variable.now.name) (string_bytes other.now.name) && sorts_equal (sort_view variable.now.sort) (sort_view other.now.sort)) }
{
    variable.name.as_str() == other.name.as_str() && is_same_sort(&variable.sort, &other.sort)
}

/// Whether the variable is among these, by its name and its sort.
pub fn is_among(variable: &SortedVariable, variables: &[SortedVariable]) -> bool
    ensures { result ≡ member_of (sorted_variable_view variable.now) (map sorted_variable_view variables.now) }
{
    for other in variables {
        if is_same(other, variable) {
            return true;
        }
    }
    false
}

/// The free variables of the side's term and of its ensured condition.
pub fn free_beside(alloc: Global, side: &RightSide) -> Result<Vec<SortedVariable>, AllocError>
    ensures { IfOk result (λ vs. map sorted_variable_view vs.items ≡ free_of_side (view side.now.term) (ensured_of side.now)) }
{
    let mut found = side.term.free_vars(alloc)?;
    add_free(alloc, &side.ensured, &mut found)?;
    Ok(found)
}

/// Adds the free variables of the patterns.
fn add_free(
    alloc: Global,
    patterns: &[Pattern],
    found: &mut Vec<SortedVariable>,
) -> Result<(), AllocError>
    ensures { OnOk result (map sorted_variable_view found.new.items ≡ map sorted_variable_view found.old.items ++ all_free_variables (patterns_view patterns.now)) }
{
    for pattern in patterns {
        let more = pattern.free_vars(alloc)?;
        add_all(found, more)?;
    }
    Ok(())
}

/// Adds these variables.
fn add_all(found: &mut Vec<SortedVariable>, more: Vec<SortedVariable>) -> Result<(), AllocError>
    ensures { OnOk result (map sorted_variable_view found.new.items ≡ map sorted_variable_view found.old.items ++ map sorted_variable_view more.items) }
{
    for variable in more {
        found.push(variable)?;
    }
    Ok(())
}
