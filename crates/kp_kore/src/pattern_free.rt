ghost use Rattle.std.specs.Prelude.{◌≡◌, ◌++◌, IfOk, OnOk, map};
ghost use Rattle.kp_kore.specs.Parts.{free_variables, all_free_variables, without_name};
ghost use Rattle.kp_kore.specs.View.{view, patterns_view, sorted_variable_view};

use crate::pattern::Pattern;
use crate::sort::{Name, Sort};
use std::alloc::{AllocError, Global};

/// An element variable's name and sort.
#[derive(Drop)]
pub struct SortedVariable {
    pub name: Name,
    pub sort: Sort,
}

impl Pattern {
    /// The free element variables, one for each place where one stands, from the left.
    pub fn free_vars(&self, alloc: Global) -> Result<Vec<SortedVariable>, AllocError>
        ensures { IfOk result (λ vs. map sorted_variable_view vs.items ≡ free_variables (view self.now)) }
    {
        let mut found = Vec::new(alloc);
        self.add_free_vars(alloc, &mut found)?;
        Ok(found)
    }

    /// Adds the free variables, in order of their places.
    #[cycle(free)]
    fn add_free_vars(
        &self,
        alloc: Global,
        found: &mut Vec<SortedVariable>,
    ) -> Result<(), AllocError>
        ensures { OnOk result (map sorted_variable_view found.new.items
            ≡ map sorted_variable_view found.old.items ++ free_variables (view self.now)) }
    {
        match self {
            Pattern::Variable { name, sort } => {
                let variable = SortedVariable {
                    name: name.clone()?,
                    sort: sort.copy(alloc)?,
                };
                Ok(found.push(variable)?)
            }
            Pattern::SetVariable { .. }
            | Pattern::StringLiteral { .. }
            | Pattern::Literal { .. }
            | Pattern::Top { .. }
            | Pattern::Bottom { .. } => Ok(()),
            Pattern::Application {
                arguments: patterns,
                ..
            }
            | Pattern::And { patterns, .. }
            | Pattern::Or { patterns, .. } => { Pattern::add_all_free_vars(patterns, alloc, found) }
            Pattern::Not { pattern, .. }
            | Pattern::Next { pattern, .. }
            | Pattern::Ceil { pattern, .. }
            | Pattern::Floor { pattern, .. }
            | Pattern::Mu { pattern, .. }
            | Pattern::Nu { pattern, .. } => { pattern.add_free_vars(alloc, found) }
            Pattern::Implies { left, right, .. }
            | Pattern::Iff { left, right, .. }
            | Pattern::Rewrites { left, right, .. }
            | Pattern::Equals { left, right, .. }
            | Pattern::In { left, right, .. } => {
                left.add_free_vars(alloc, found)?;
                right.add_free_vars(alloc, found)
            }
            Pattern::Exists { name, pattern, .. } | Pattern::Forall { name, pattern, .. } => {
                let mut inner = Vec::new(alloc);
                pattern.add_free_vars(alloc, &mut inner)?;
                add_others(found, inner, name)
            }
        }
    }

    /// Adds the free variables of each pattern.
    #[cycle(free)]
    fn add_all_free_vars(
        patterns: &[Pattern],
        alloc: Global,
        found: &mut Vec<SortedVariable>,
    ) -> Result<(), AllocError>
        ensures { OnOk result (map sorted_variable_view found.new.items
            ≡ map sorted_variable_view found.old.items ++ all_free_variables (patterns_view patterns.now)) }
    {
        for pattern in patterns {
            pattern.add_free_vars(alloc, found)?;
        }
        Ok(())
    }
}

/// Adds the variables that don't have the name, which a binder hides.
fn add_others(
    found: &mut Vec<SortedVariable>,
    inner: Vec<SortedVariable>,
    name: &str,
) -> Result<(), AllocError>
    ensures { let found' = map sorted_variable_view found.old.items in let found'' = map sorted_variable_view found.new.items in
        OnOk result (found'' ≡ found' ++ without_name name.now (map sorted_variable_view inner.items)) }
{
    for variable in inner {
        if variable.name.as_str() != name {
            found.push(variable)?;
        }
    }
    Ok(())
}
