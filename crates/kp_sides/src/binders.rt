// Binders of a consequent that say nothing of its term.
ghost use Rattle.std.specs.Prelude.{◌≡◌, ◌&&◌, ◌++◌, not, IfOk, OnOk, map, string_bytes};
ghost use Rattle.std.specs.List.{flat_map};
ghost use Rattle.std.specs.Option.{option_map};
ghost use Rattle.kp_compile.specs.Parts.{seen};
ghost use Rattle.kp_kore.specs.Instance.{conjoined_terms, is_named as named_among};
ghost use Rattle.kp_kore.specs.Parts.{free_variables};
ghost use Rattle.kp_kore.specs.View.{view, sorted_variable_view};
ghost use Rattle.kp_rules.specs.Shapes.{variables_seen};
ghost use Rattle.kp_sides.specs.Sides.{first_idle as first_idle_of, idle_binder as idle_binder_of};

use kp_compile::conjuncts;
use kp_kore::{Name, Pattern, SortedVariable};
use kp_rules::shape::{Binder, terms_among, under_binders};
use std::alloc::{AllocError, Global};

/// Whether one of these variables has the name.
pub fn is_among(name: &str, variables: &[SortedVariable]) -> bool
    ensures { result ≡ named_among name.now (map sorted_variable_view variables.now) }
{
    for variable in variables {
        if variable.name.as_str() == name {
            return true;
        }
    }
    false
}

/// Whether one of these binders has the name.
pub fn is_bound(name: &str, binders: &[Binder<'_>]) -> bool
    ensures { result ≡ named_among name.now (variables_seen binders.now) }
{
    for binder in binders {
        if binder.name.as_str() == name {
            return true;
        }
    }
    false
}

/// Adds the free variables of a term, one for each place where one stands.
fn add_variables(
    alloc: Global,
    term: &Pattern,
    found: &mut Vec<SortedVariable>,
) -> Result<(), AllocError>
    ensures { OnOk result (map sorted_variable_view found.new.items ≡ map sorted_variable_view found.old.items ++ free_variables (view term.now)) }
{
    let mut variables = term.free_vars(alloc)?;
    Ok(found.append(&mut variables)?)
}

/// The free variables of these terms.
fn variables_in(alloc: Global, terms: &[&Pattern]) -> Result<Vec<SortedVariable>, AllocError>
    ensures { IfOk result (λ xs. map sorted_variable_view xs.items ≡ flat_map free_variables (seen terms.now)) }
{
    let mut found = Vec::new(alloc);
    for term in terms {
        add_variables(alloc, term, &mut found)?;
    }
    Ok(found)
}

/// The free variables of a side's terms.
fn term_variables(alloc: Global, pattern: &Pattern) -> Result<Vec<SortedVariable>, AllocError>
    ensures { IfOk result (λ xs. map sorted_variable_view xs.items ≡ flat_map free_variables (conjoined_terms (view pattern.now))) }
{
    let members = conjuncts(alloc, pattern)?;
    let terms = terms_among(alloc, &members)?;
    variables_in(alloc, &terms)
}

/// Whether the binder's name stands in the term, and no later binder has it.
fn is_in_use(name: &str, inside: &[SortedVariable], later: &[Binder<'_>]) -> bool
    ensures { result ≡ named_among name.now (map sorted_variable_view inside.now) && not (named_among name.now (variables_seen later.now)) }
{
    is_among(name, inside) && !is_bound(name, later)
}

/// The first binder that stands in no term, or behind which another has its name.
fn first_idle<'a>(inside: &[SortedVariable], binders: &[Binder<'a>]) -> Option<&'a Name>
    ensures { option_map (λ n. string_bytes n.now) result ≡ first_idle_of (map sorted_variable_view inside.now) (variables_seen binders.now) }
{
    let mut left = binders;
    while let [first, rest @ ..] = left {
        if !is_in_use(first.name.as_str(), inside, rest) {
            return Some(first.name);
        }
        left = rest;
    }
    None
}

/// The first binder of a consequent that stands in no term, or behind which another has its name.
pub fn idle_binder(alloc: Global, consequent: &Pattern) -> Result<Option<Name>, AllocError>
    ensures { IfOk result (λ o. option_map string_bytes o ≡ idle_binder_of (view consequent.now)) }
{
    let bound = under_binders(alloc, consequent)?;
    let inside = term_variables(alloc, bound.pattern)?;
    match first_idle(&inside, &bound.variables) {
        Some(name) => Ok(Some(name.clone()?)),
        None => Ok(None),
    }
}
