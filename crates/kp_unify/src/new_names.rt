// New names: `Fresh` and the least number that makes a name which isn't in use.
ghost use Rattle.std.specs.Prelude.{◌≡◌, ◌∷◌, [], List, IfOk, map, string_bytes};
ghost use Rattle.kp_kore.specs.Syntax.{Text};
ghost use Rattle.kp_kore.specs.View.{sort_view};
ghost use Rattle.kp_names.specs.Met.{Lists};
ghost use Rattle.kp_symbolic.specs.Writing as model;
ghost use Rattle.kp_symbolic.specs.View.{variable_view, variables_view};
ghost use Rattle.kp_unify.specs.Names.{IsNextName, AreNextVariables};

use kp_kore::{Name, Sort};
use kp_names::names::{Names, is_noted};
use kp_symbolic::Variable;
use std::alloc::{AllocError, Global};
use std::sync::Arc;

/// A new name, and the number behind its own.
#[derive(Drop)]
pub struct NewName {
    pub name: Name,
    pub next: u64,
}

/// `Fresh` and the number.
fn fresh_name(alloc: Global, number: u64) -> Result<Name, AllocError>
    ensures { IfOk result (λ x. string_bytes x ≡ model.fresh_name number) }
{
    format!(in alloc; "Fresh{number}")
}

/// The name with the least number from this one on that wasn't met. As many names as there are numbers of 64 bits don't fit
/// into memory.
pub fn new_name(alloc: Global, met: &Names, next: u64) -> Result<NewName, AllocError>
    ensures { (used : List Text) → Lists used met.now → IfOk result (λ n. IsNextName used next (string_bytes n.name) n.next) }
{
    for number in next..u64::MAX {
        let name = fresh_name(alloc, number)?;
        if !is_noted(met, &name) {
            return Ok(NewName {
                name,
                next: number + 1,
            });
        }
    }
    Err(AllocError)
}

/// A new variable, and the number behind that of its name.
#[derive(Drop)]
pub struct NewVariable {
    pub variable: Arc<Variable>,
    pub next: u64,
}

/// New variables, and the number behind those of their names.
#[derive(Drop)]
pub struct New {
    pub variables: Vec<Arc<Variable>>,
    pub next: u64,
}

/// A variable of this name and sort.
fn make_variable(alloc: Global, name: Name, sort: &Sort) -> Result<Arc<Variable>, AllocError>
    ensures { IfOk result (λ x. variable_view x.value ≡ record { name = string_bytes name; sort = sort_view sort.now }) }
{
    let variable = Variable {
        name,
        sort: sort.copy(alloc)?,
    };
    Ok(Arc::new(alloc, variable)?)
}

/// A new variable of the sort, with the least name from this number on that wasn't met.
pub fn new_variable(
    alloc: Global,
    met: &Names,
    next: u64,
    sort: &Sort,
) -> Result<NewVariable, AllocError>
    ensures named { (used : List Text) → Lists used met.now → IfOk result (λ n. IsNextName used next (variable_view n.variable.value).name n.next) }
    ensures sort { IfOk result (λ n. (variable_view n.variable.value).sort ≡ sort_view sort.now) }
{
    let new = new_name(alloc, met, next)?;
    let next = new.next;
    Ok(NewVariable {
        variable: make_variable(alloc, new.name, sort)?,
        next,
    })
}

/// The variable alone.
pub fn alone(alloc: Global, new: &NewVariable) -> Result<New, AllocError>
    ensures variables { IfOk result (λ n. variables_view n.variables.items ≡ variable_view new.now.variable.value ∷ []) }
    ensures next { IfOk result (λ n. n.next ≡ new.now.next) }
{
    let mut variables = Vec::new(alloc);
    variables.push(new.variable.clone()?)?;
    Ok(New {
        variables,
        next: new.next,
    })
}

/// A new variable of each of the sorts, one after the other.
pub fn new_variables(
    alloc: Global,
    met: &Names,
    next: u64,
    sorts: &[Sort],
) -> Result<New, AllocError>
    ensures { (used : List Text) → Lists used met.now → IfOk result (λ n. AreNextVariables used next (map sort_view sorts.now) (variables_view n.variables.items) n.next) }
{
    let mut variables = Vec::new(alloc);
    let mut after = next;
    for sort in sorts {
        let new = new_variable(alloc, met, after, sort)?;
        after = new.next;
        variables.push(new.variable)?;
    }
    Ok(New {
        variables,
        next: after,
    })
}
