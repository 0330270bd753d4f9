// The two sides as they are read.
ghost use Rattle.std.specs.Prelude.{◌≡◌, ◌++◌, IfOk, map};
ghost use Rattle.kp_kore.specs.Parts.{free_variables};
ghost use Rattle.kp_kore.specs.View.{view, sorted_variable_view};
ghost use Rattle.kp_symbolic.specs.View.{state_view, variable_view, variables_view};
ghost use Rattle.kp_goals.specs.Consequents as model;

use kp_kore::{Pattern, SortedVariable};
use kp_symbolic::{State, Variable};
use std::alloc::{AllocError, Global};
use std::sync::Arc;

/// A variable that is shared.
fn shared(alloc: Global, variable: &SortedVariable) -> Result<Arc<Variable>, AllocError>
    ensures { IfOk result (λ x. variable_view x.value ≡ sorted_variable_view variable.now) }
{
    let name = variable.name.clone()?;
    let sort = variable.sort.copy(alloc)?;
    Ok(Arc::new(alloc, Variable { name, sort })?)
}

/// Variables that are shared.
fn all_shared(alloc: Global, variables: &[SortedVariable]) -> Result<Vec<Arc<Variable>>, AllocError>
    ensures { IfOk result (λ xs. variables_view xs.items ≡ map sorted_variable_view variables.now) }
{
    let mut found = Vec::new(alloc);
    for variable in variables {
        found.push(shared(alloc, variable)?)?;
    }
    Ok(found)
}

/// The free variables of the other side.
fn free_variables_of(alloc: Global, pattern: &Pattern) -> Result<Vec<Arc<Variable>>, AllocError>
    ensures { IfOk result (λ xs. variables_view xs.items ≡ free_variables (view pattern.now)) }
{
    let free = pattern.free_vars(alloc)?;
    all_shared(alloc, &free)
}

/// The state with these variables at hand, too.
fn with_variables(state: State, more: &mut Vec<Arc<Variable>>) -> Result<State, AllocError>
    ensures { let s = state_view state in
        IfOk result (λ r. state_view r ≡ record { term = s.term; sort = s.sort; clauses = s.clauses; variables = s.variables ++ variables_view more.old.items }) }
{
    let State {
        term,
        sort,
        clauses,
        mut variables,
    } = state;
    variables.append(more)?;
    Ok(State {
        term,
        sort,
        clauses,
        variables,
    })
}

/// The state with the free variables of the other side at hand.
pub fn beside(alloc: Global, state: State, consequent: &Pattern) -> Result<State, AllocError>
    ensures { IfOk result (λ s. state_view s ≡ model.beside (state_view state) (view consequent.now)) }
{
    let mut free = free_variables_of(alloc, consequent)?;
    with_variables(state, &mut free)
}
