// The variables at hand where terms stand in the place of some.
ghost use Rattle.std.specs.Prelude.{◌≡◌, ◌++◌, IfOk, OnOk, map};
ghost use Rattle.std.specs.List.{flat_map};
ghost use Rattle.kp_symbolic.specs.States.{variables_for};
ghost use Rattle.kp_symbolic.specs.Terms.{replacement_for};
ghost use Rattle.kp_symbolic.specs.View.{replaced_view, variable_view, variables_view};

use kp_symbolic::replaced::replacement_of;
use kp_symbolic::{Replaced, Variable};
use std::alloc::{AllocError, Global};
use std::sync::Arc;

/// Adds the variable, or those of the term in its place, one for each place where one stands.
fn add_variables_for(
    by: &[Replaced],
    variable: &Arc<Variable>,
    found: &mut Vec<Arc<Variable>>,
) -> Result<(), AllocError>
    ensures { let x = variable_view variable.now.value in OnOk result (variables_view found.new.items ≡ variables_view found.old.items ++ variables_for x (replacement_for (map replaced_view by.now) x.name)) }
{
    match replacement_of(by, &variable.name) {
        Some(term) => term.add_variables(found),
        None => Ok(found.push(variable.clone()?)?),
    }
}

/// The variables at hand where terms stand in the place of some: those of the terms in their places.
pub fn variables_under(
    alloc: Global,
    by: &[Replaced],
    variables: &[Arc<Variable>],
) -> Result<Vec<Arc<Variable>>, AllocError>
    ensures { IfOk result (λ xs. variables_view xs.items ≡ flat_map (λ x. variables_for x (replacement_for (map replaced_view by.now) x.name)) (variables_view variables.now)) }
{
    let mut found = Vec::new(alloc);
    for variable in variables {
        add_variables_for(by, variable, &mut found)?;
    }
    Ok(found)
}
