// The right side's own variables.
ghost use Rattle.std.specs.Prelude.{◌≡◌, ◌++◌, ◌||◌, not, string_bytes};
ghost use Rattle.kp_kore.specs.Parts.{free_variables};
ghost use Rattle.kp_names.specs.Met.{Lists};
ghost use Rattle.kp_claim_sentences.specs.Noted.{has_name};
ghost use Rattle.std.specs.Prelude.{IfOk, map};
ghost use Rattle.std.specs.List.{list_all, filter};
ghost use Rattle.kp_kore.specs.View.{view, sorted_variable_view};
ghost use Rattle.kp_kore.specs.Instance.{is_named};
ghost use Rattle.kp_rules.specs.Shapes.{variables_seen};
ghost use Rattle.kp_claims.specs.Sides.{sides_view};
ghost use Rattle.kp_claim_sentences.specs.Claims.{has_chosen_in_term};

use crate::names::note_all;
use indexmap::IndexMap;
use kp_claims::outline::ClaimOutline;
use kp_compile::conjuncts;
use kp_kore::{Pattern, SortedVariable};
use kp_names::names::Names;
use kp_rules::shape::{Binder, only, terms_among, under_binders};
use std::alloc::{AllocError, Global};

/// Whether the right side's own variables stand in its term, where it has one term.
pub fn are_in_term(alloc: Global, sides: ClaimOutline<'_>) -> Result<bool, AllocError>
    ensures { IfOk result (λ b. b ≡ has_chosen_in_term (sides_view sides.entry)) }
{
    let bound = under_binders(alloc, sides.right)?;
    let members = conjuncts(alloc, bound.pattern)?;
    let terms = terms_among(alloc, &members)?;
    match only(&terms) {
        Some(term) => are_own_in(alloc, sides, &bound.variables, term),
        None => Ok(true),
    }
}

/// Whether the right side's own variables, of which `\exists` binds these, stand in this term.
fn are_own_in(
    alloc: Global,
    sides: ClaimOutline<'_>,
    binders: &[Binder<'_>],
    term: &Pattern,
) -> Result<bool, AllocError>
    ensures { let entry' = sides_view sides.entry in IfOk result (λ b. b ≡ list_all (λ x. is_named x.name (free_variables (view term.now))) (variables_seen binders.now ++ filter (λ x. not (is_named x.name (free_variables entry'.left))) (free_variables entry'.right))) }
{
    let names = names_in(alloc, term)?;
    if !are_bound_in(binders, &names) {
        return Ok(false);
    }
    let given = names_in(alloc, sides.left)?;
    let variables = sides.right.free_vars(alloc)?;
    Ok(are_new_in(&variables, &given, &names))
}

/// The names of the free variables.
fn names_in(alloc: Global, pattern: &Pattern) -> Result<Names, AllocError>
    ensures { IfOk result (Lists (map (λ x. x.name) (free_variables (view pattern.now)))) }
{
    let mut names = IndexMap::new(alloc);
    let variables = pattern.free_vars(alloc)?;
    note_all(&mut names, &variables)?;
    Ok(names)
}

/// Whether the names of these binders are noted.
fn are_bound_in(binders: &[Binder<'_>], names: &Names) -> bool
    ensures { result ≡ list_all (λ x. has_name names.now x.name) (variables_seen binders.now) }
{
    for binder in binders {
        if !is_bound_in(binder, names) {
            return false;
        }
    }
    true
}

/// Whether each of these variables that isn't given is noted.
fn are_new_in(variables: &[SortedVariable], given: &Names, names: &Names) -> bool
    ensures { result ≡ list_all (λ x. has_name given.now x.name || has_name names.now x.name) (map sorted_variable_view variables.now) }
{
    for variable in variables {
        if !is_either(variable, given, names) {
            return false;
        }
    }
    true
}

/// Whether the name of the binder is noted.
fn is_bound_in(binder: &Binder<'_>, names: &Names) -> bool
    ensures { result ≡ has_name names.now (string_bytes binder.now.name.now) }
{
    names.contains_key(binder.name.as_str())
}

/// Whether the variable is given or noted.
fn is_either(variable: &SortedVariable, given: &Names, names: &Names) -> bool
    ensures { result ≡ (has_name given.now (string_bytes variable.now.name) || has_name names.now (string_bytes variable.now.name)) }
{
    given.contains_key(variable.name.as_str()) || names.contains_key(variable.name.as_str())
}
