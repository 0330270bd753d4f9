// The names that two sides use.
ghost use Rattle.std.specs.Prelude.{◌≡◌, ◌++◌, IfOk, OnOk, map, string_bytes};
ghost use Rattle.std.specs.List.{flat_map};
ghost use Rattle.kp_compile.specs.Parts.{seen};
ghost use Rattle.kp_kore.specs.Parts.{names_at, variable_names};
ghost use Rattle.kp_kore.specs.View.{view};
ghost use Rattle.kp_names.specs.Met.{Lists};

use indexmap::IndexMap;
use kp_compile::subpatterns;
use kp_kore::{Name, Pattern};
use kp_names::names::{Names, note};
use std::alloc::{AllocError, Global};

/// Adds the name of a variable, or the one that a binder binds.
fn add_name_at(found: &mut Vec<Name>, pattern: &Pattern) -> Result<(), AllocError>
    ensures { OnOk result (map string_bytes found.new.items ≡ map string_bytes found.old.items ++ names_at (view pattern.now)) }
{
    match pattern {
        Pattern::Variable { name, .. }
        | Pattern::SetVariable { name, .. }
        | Pattern::Exists { name, .. }
        | Pattern::Forall { name, .. }
        | Pattern::Mu { name, .. }
        | Pattern::Nu { name, .. } => Ok(found.push(name.clone()?)?),
        Pattern::Application { .. }
        | Pattern::StringLiteral { .. }
        | Pattern::Literal { .. }
        | Pattern::Top { .. }
        | Pattern::Bottom { .. }
        | Pattern::Not { .. }
        | Pattern::Next { .. }
        | Pattern::And { .. }
        | Pattern::Or { .. }
        | Pattern::Implies { .. }
        | Pattern::Iff { .. }
        | Pattern::Rewrites { .. }
        | Pattern::Ceil { .. }
        | Pattern::Floor { .. }
        | Pattern::Equals { .. }
        | Pattern::In { .. } => Ok(()),
    }
}

/// Adds the names of the variables and of the binders among these patterns.
fn add_names_at(found: &mut Vec<Name>, patterns: &[&Pattern]) -> Result<(), AllocError>
    ensures { OnOk result (map string_bytes found.new.items ≡ map string_bytes found.old.items ++ flat_map names_at (seen patterns.now)) }
{
    for pattern in patterns {
        add_name_at(found, pattern)?;
    }
    Ok(())
}

/// Adds the names of all variables that stand in a pattern, free or bound.
fn add_variable_names(
    alloc: Global,
    found: &mut Vec<Name>,
    pattern: &Pattern,
) -> Result<(), AllocError>
    ensures { OnOk result (map string_bytes found.new.items ≡ map string_bytes found.old.items ++ variable_names (view pattern.now)) }
{
    let parts = subpatterns(alloc, pattern)?;
    add_names_at(found, &parts)
}

/// The names that stand in two sides.
fn names_in(
    alloc: Global,
    antecedent: &Pattern,
    consequent: &Pattern,
) -> Result<Vec<Name>, AllocError>
    ensures { IfOk result (λ ns. map string_bytes ns.items ≡ variable_names (view antecedent.now) ++ variable_names (view consequent.now)) }
{
    let mut found = Vec::new(alloc);
    add_variable_names(alloc, &mut found, antecedent)?;
    add_variable_names(alloc, &mut found, consequent)?;
    Ok(found)
}

/// These names, each once.
fn noted(alloc: Global, found: &[Name]) -> Result<Names, AllocError>
    ensures { IfOk result (Lists (map string_bytes found.now)) }
{
    let mut names: Names = IndexMap::new(alloc);
    for name in found {
        note(&mut names, name)?;
    }
    Ok(names)
}

/// The names of all variables that stand in one of two sides, free or bound, those of binders that bind nothing too.
///
/// # Errors
/// Where memory runs out.
pub fn names_of(
    alloc: Global,
    antecedent: &Pattern,
    consequent: &Pattern,
) -> Result<Names, AllocError>
    ensures { IfOk result (Lists (variable_names (view antecedent.now) ++ variable_names (view consequent.now))) }
{
    let found = names_in(alloc, antecedent, consequent)?;
    noted(alloc, &found)
}
