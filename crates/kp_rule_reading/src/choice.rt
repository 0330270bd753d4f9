// The right side of a rule that chooses, as its axiom has it.
ghost use Rattle.std.specs.Prelude.{◌≡◌, ◌++◌, true, IfOk, OnOk, IfErr, not, map, string_bytes};
ghost use Rattle.std.specs.List.{filter};
ghost use Rattle.indexmap.specs.IndexSet.{contains_text};
ghost use Rattle.kp_kore.specs.Parts.{free_variables};
ghost use Rattle.kp_kore.specs.View.{view, sort_view, sorted_variable_view};
ghost use Rattle.kp_kore.specs.Rules.{top_binders, new_variables_of};
ghost use Rattle.kp_signature.specs.View.{signature_view};
ghost use Rattle.kp_compile.specs.Exact.{are_named};
ghost use Rattle.kp_compile.specs.Names.{names_seen};
ghost use Rattle.kp_compile.specs.Verified.{IsVerifiedTerm};
ghost use Rattle.kp_compile.specs.declared.error.CompileError.TheVariants.{Memory};
ghost use Rattle.kp_rules.specs.Bound.{names_of_choice};
ghost use Rattle.kp_rules.specs.Bodies.{IsSideOf, IsChoiceOf};
ghost use Rattle.kp_rules.specs.Shapes.{seen, variables_seen, rewrite_seen};
ghost use Rattle.kp_rule_reading.specs.Compiled.{IsKnownRight};

use crate::names::names_of;
use crate::old_parts::old_parts;
use kp_compile::{CompileError, NameSet};
use kp_kore::{Pattern, SortedVariable};
use kp_rules::RightSide;
use kp_rules::shape::{Binder, Shape, under_binders};
use kp_signature::Signature;
use std::alloc::{AllocError, Global};

/// The right side of these parts, where the rule chooses.
pub fn choice_of(
    alloc: Global,
    signature: &Signature,
    shape: &Shape<'_>,
    right: &Pattern,
    names: NameSet,
    chooses: bool,
) -> Result<Option<RightSide>, CompileError>
    requires named { are_named (names_seen names) (free_variables (view shape.now.left.term.now)) ≡ true }
    requires known { IsKnownRight (rewrite_seen (view right.now) shape.now) }
    ensures names { IfOk result (λ o. names_of_choice (names_seen names) o ≡ names_seen names) }
    ensures choice { IfOk result (IsChoiceOf (signature_view signature.now) (rewrite_seen (view right.now) shape.now) chooses) }
    ensures refused { IfErr result (λ e. IsVerifiedTerm (signature_view signature.now) (view shape.now.right.term.now) → e ≡ Memory) }
{
    if !chooses {
        return Ok(None);
    }
    Ok(Some(right_side(alloc, signature, shape, right, names)?))
}

/// The right side with its ensured condition and its new variables.
fn right_side(
    alloc: Global,
    signature: &Signature,
    shape: &Shape<'_>,
    right: &Pattern,
    left_names: NameSet,
) -> Result<RightSide, CompileError>
    requires named { are_named (names_seen left_names) (free_variables (view shape.now.left.term.now)) ≡ true }
    requires known { IsKnownRight (rewrite_seen (view right.now) shape.now) }
    ensures names { IfOk result (λ s. names_seen s.left_names ≡ names_seen left_names) }
    ensures side { IfOk result (IsSideOf (signature_view signature.now) (rewrite_seen (view right.now) shape.now)) }
    ensures refused { IfErr result (λ e. IsVerifiedTerm (signature_view signature.now) (view shape.now.right.term.now) → e ≡ Memory) }
{
    let new_variables = new_beside(alloc, shape.left.term, right)?;
    let parts = old_parts(
        alloc,
        signature,
        shape.right.term,
        &new_variables,
        &left_names,
    )?;
    let left_variables = shape.left.term.free_vars(alloc)?;
    let (term, ensured) = copied_side(alloc, shape.right.term, &shape.right.predicates)?;
    Ok(RightSide {
        term,
        ensured,
        new_variables,
        left_variables,
        left_names,
        parts,
    })
}

/// A term and predicates once more.
pub fn copied_side(
    alloc: Global,
    term: &Pattern,
    predicates: &[&Pattern],
) -> Result<(Pattern, Vec<Pattern>), AllocError>
    ensures { IfOk result (λ c. (view c.0 ≡ view term.now) × (map view c.1.items ≡ seen predicates.now)) }
{
    let term = term.copy(alloc)?;
    let predicates = copies(alloc, predicates)?;
    Ok((term, predicates))
}

/// The patterns once more.
pub fn copies(alloc: Global, patterns: &[&Pattern]) -> Result<Vec<Pattern>, AllocError>
    ensures { IfOk result (λ ps. map view ps.items ≡ seen patterns.now) }
{
    let mut copies = Vec::new(alloc);
    for pattern in patterns {
        copies.push(pattern.copy(alloc)?)?;
    }
    Ok(copies)
}

/// The variables of a right side that are new beside a left term.
pub fn new_beside(
    alloc: Global,
    left: &Pattern,
    right: &Pattern,
) -> Result<Vec<SortedVariable>, AllocError>
    ensures { IfOk result (λ vs. map sorted_variable_view vs.items ≡ new_variables_of (view left.now) (view right.now)) }
{
    let variables = left.free_vars(alloc)?;
    let names = names_of(alloc, &variables)?;
    new_variables(alloc, right, &names)
}

/// The variables of a right side that aren't named: those that `\exists` binds at the top, then those without a name.
fn new_variables(
    alloc: Global,
    right: &Pattern,
    names: &NameSet,
) -> Result<Vec<SortedVariable>, AllocError>
    ensures { let right' = view right.now in IfOk result (λ vs. map sorted_variable_view vs.items ≡ top_binders right' ++ filter (λ x. not (contains_text names.now x.name)) (free_variables right')) }
{
    let bound = under_binders(alloc, right)?;
    let mut found = bound_variables(alloc, &bound.variables)?;
    let variables = right.free_vars(alloc)?;
    add_unnamed(&mut found, variables, names)?;
    Ok(found)
}

/// The variables that these quantifiers bind.
fn bound_variables(alloc: Global, binders: &[Binder<'_>]) -> Result<Vec<SortedVariable>, AllocError>
    ensures { IfOk result (λ vs. map sorted_variable_view vs.items ≡ variables_seen binders.now) }
{
    let mut variables = Vec::new(alloc);
    for binder in binders {
        variables.push(bound_variable(alloc, binder)?)?;
    }
    Ok(variables)
}

/// The variable that a quantifier binds.
fn bound_variable(alloc: Global, binder: &Binder<'_>) -> Result<SortedVariable, AllocError>
    ensures { IfOk result (λ v. sorted_variable_view v ≡ record { name = string_bytes binder.now.name.now; sort = sort_view binder.now.sort.now }) }
{
    Ok(SortedVariable {
        name: binder.name.clone()?,
        sort: binder.sort.copy(alloc)?,
    })
}

/// Adds the variables whose names aren't among these.
fn add_unnamed(
    found: &mut Vec<SortedVariable>,
    variables: Vec<SortedVariable>,
    names: &NameSet,
) -> Result<(), AllocError>
    ensures { let found' = map sorted_variable_view found.old.items in let variables' = map sorted_variable_view variables.items in
        OnOk result (map sorted_variable_view found.new.items ≡ found' ++ filter (λ x. not (contains_text names.now x.name)) variables') }
{
    for variable in variables {
        if !names.contains(variable.name.as_str()) {
            found.push(variable)?;
        }
    }
    Ok(())
}
