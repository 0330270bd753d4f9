// The names that come into a predicate with the terms in the place of its variables, and those that stand in it.
ghost use Rattle.std.specs.Prelude.{◌≡◌, ◌++◌, IfOk, OnOk, map, string_bytes};
ghost use Rattle.std.specs.List.{flat_map};
ghost use Rattle.kp_compile.specs.Parts.{seen};
ghost use Rattle.kp_kore.specs.Parts.{names_at, variable_names, without_name};
ghost use Rattle.kp_kore.specs.View.{view, sorted_variable_view};
ghost use Rattle.kp_symbolic.specs.Terms.{term_variables};
ghost use Rattle.kp_symbolic.specs.Writing as model;
ghost use Rattle.kp_symbolic.specs.View.{replaced_view, term_view, variables_view};
ghost use Rattle.kp_outward.specs.Parts.{names_for};

use kp_compile::subpatterns;
use kp_kore::{Name, Pattern, SortedVariable};
use kp_symbolic::replaced::replacement_of;
use kp_symbolic::{Replaced, Term, Variable};
use std::alloc::{AllocError, Global};
use std::sync::Arc;

/// Adds the names of these variables.
fn add_names(found: &mut Vec<Name>, variables: &[Arc<Variable>]) -> Result<(), AllocError>
    ensures { OnOk result (map string_bytes found.new.items ≡ map string_bytes found.old.items ++ map (λ x. x.name) (variables_view variables.now)) }
{
    for variable in variables {
        found.push(variable.name.clone()?)?;
    }
    Ok(())
}

/// Adds the names of the variables that stand in a term.
fn add_term_names(alloc: Global, found: &mut Vec<Name>, term: &Term) -> Result<(), AllocError>
    ensures { OnOk result (map string_bytes found.new.items ≡ map string_bytes found.old.items ++ map (λ x. x.name) (term_variables (term_view term.now))) }
{
    let mut variables = Vec::new(alloc);
    term.add_variables(&mut variables)?;
    add_names(found, &variables)
}

/// Adds the names of the variables that a predicate's variable stands for.
fn add_names_for(
    alloc: Global,
    found: &mut Vec<Name>,
    replaced: &[Replaced],
    variable: &SortedVariable,
) -> Result<(), AllocError>
    ensures { let names = names_for (map replaced_view replaced.now) (sorted_variable_view variable.now) in OnOk result (map string_bytes found.new.items ≡ map string_bytes found.old.items ++ names) }
{
    match replacement_of(replaced, &variable.name) {
        Some(term) => add_term_names(alloc, found, term),
        None => Ok(found.push(variable.name.clone()?)?),
    }
}

/// Adds the names that these variables stand for, but for those of this name.
fn add_incoming(
    alloc: Global,
    found: &mut Vec<Name>,
    replaced: &[Replaced],
    name: &str,
    variables: &[SortedVariable],
) -> Result<(), AllocError>
    ensures { let rs = map replaced_view replaced.now in let others = without_name name.now (map sorted_variable_view variables.now) in OnOk result (map string_bytes found.new.items ≡ map string_bytes found.old.items ++ flat_map (names_for rs) others) }
{
    for variable in variables {
        if variable.name.as_str() != name {
            add_names_for(alloc, found, replaced, variable)?;
        }
    }
    Ok(())
}

/// The names of the variables that a predicate's free variables but one stand for.
pub fn names_coming_in(
    alloc: Global,
    replaced: &[Replaced],
    name: &str,
    pattern: &Pattern,
) -> Result<Vec<Name>, AllocError>
    ensures { let rs = map replaced_view replaced.now in IfOk result (λ xs. map string_bytes xs.items ≡ model.names_coming_in rs name.now (view pattern.now)) }
{
    let variables = pattern.free_vars(alloc)?;
    let mut found = Vec::new(alloc);
    add_incoming(alloc, &mut found, replaced, name, &variables)?;
    Ok(found)
}

/// Adds the name of a variable, or the one that a binder binds.
fn add_name_at(found: &mut Vec<Name>, pattern: &Pattern) -> Result<(), AllocError>
    ensures { OnOk result (map string_bytes found.new.items ≡ map string_bytes found.old.items ++ names_at (view pattern.now)) }
{
    match pattern {
        Pattern::Variable { name, .. }
        | Pattern::SetVariable { name, .. }
        | Pattern::Exists { name, .. }
        | Pattern::Forall { name, .. }
        | Pattern::Mu { name, .. }
        | Pattern::Nu { name, .. } => Ok(found.push(name.clone()?)?),
        Pattern::Application { .. }
        | Pattern::StringLiteral { .. }
        | Pattern::Literal { .. }
        | Pattern::Top { .. }
        | Pattern::Bottom { .. }
        | Pattern::Not { .. }
        | Pattern::Next { .. }
        | Pattern::And { .. }
        | Pattern::Or { .. }
        | Pattern::Implies { .. }
        | Pattern::Iff { .. }
        | Pattern::Rewrites { .. }
        | Pattern::Ceil { .. }
        | Pattern::Floor { .. }
        | Pattern::Equals { .. }
        | Pattern::In { .. } => Ok(()),
    }
}

/// Adds the names that stand at these patterns.
fn add_names_at(found: &mut Vec<Name>, patterns: &[&Pattern]) -> Result<(), AllocError>
    ensures { OnOk result (map string_bytes found.new.items ≡ map string_bytes found.old.items ++ flat_map names_at (seen patterns.now)) }
{
    for pattern in patterns {
        add_name_at(found, pattern)?;
    }
    Ok(())
}

/// Adds the names of all variables that stand in a pattern, free or bound.
pub fn add_variable_names(
    alloc: Global,
    found: &mut Vec<Name>,
    pattern: &Pattern,
) -> Result<(), AllocError>
    ensures { OnOk result (map string_bytes found.new.items ≡ map string_bytes found.old.items ++ variable_names (view pattern.now)) }
{
    let parts = subpatterns(alloc, pattern)?;
    add_names_at(found, &parts)
}
