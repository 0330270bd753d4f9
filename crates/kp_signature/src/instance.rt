// Sorts with arguments in the place of parameters.
ghost use Rattle.std.specs.Prelude.{◌≡◌, IfOk, map, string_bytes};
ghost use Rattle.kp_kore.specs.Syntax.{sort_variable};
ghost use Rattle.kp_kore.specs.Sorting.{argument_for, at_arguments, all_at_arguments};
ghost use Rattle.kp_kore.specs.View.{sort_view, sorts_of, sorts_view, names_view};

use kp_kore::{Name, Sort};
use std::alloc::{AllocError, Global};

/// The argument in the place of a parameter.
fn argument_of(
    alloc: Global,
    parameters: &[Name],
    arguments: &[Sort],
    name: &Name,
) -> Result<Sort, AllocError>
    ensures { IfOk result (λ s. sort_view s ≡ argument_for (names_view parameters.now) (sorts_view arguments.now) (string_bytes name.now)) }
{
    for i in 0..parameters.len() {
        if i >= arguments.len() {
            break;
        }
        if parameters[i] == *name {
            return arguments[i].copy(alloc);
        }
    }
    Ok(variable_named(name)?)
}

/// The sort variable of this name.
fn variable_named(name: &Name) -> Result<Sort, AllocError>
    ensures { IfOk result (λ s. sort_view s ≡ sort_variable (string_bytes name.now)) }
{
    Ok(Sort::Variable {
        name: name.clone()?,
    })
}

/// The sort with the arguments in the place of the parameters.
#[cycle(instance)]
pub fn sort_at(
    sort: &Sort,
    alloc: Global,
    parameters: &[Name],
    arguments: &[Sort],
) -> Result<Sort, AllocError>
    ensures { IfOk result (λ s. sort_view s ≡ at_arguments (names_view parameters.now) (sorts_view arguments.now) (sort_view sort.now)) }
{
    match sort {
        Sort::App {
            name,
            arguments: inner,
        } => Ok(Sort::App {
            name: name.clone()?,
            arguments: sorts_at(inner, alloc, parameters, arguments)?,
        }),
        Sort::Variable { name } => argument_of(alloc, parameters, arguments, name),
    }
}

/// The same of each of these sorts.
#[cycle(instance)]
pub fn sorts_at(
    sorts: &[Sort],
    alloc: Global,
    parameters: &[Name],
    arguments: &[Sort],
) -> Result<Vec<Sort>, AllocError>
    ensures { IfOk result (λ ss. sorts_view ss.items ≡ all_at_arguments (names_view parameters.now) (sorts_view arguments.now) (sorts_view sorts.now)) }
{
    let mut found = Vec::new(alloc);
    for sort in sorts {
        found.push(sort_at(sort, alloc, parameters, arguments)?)?;
    }
    Ok(found)
}
