// A predicate that isn't opened, with terms in the place of its free variables.
ghost use Rattle.std.specs.Prelude.{◌≡◌, IfOk, map, string_bytes};
ghost use Rattle.std.specs.List.{filter};
ghost use Rattle.kp_kore.specs.Parts.{free_variables};
ghost use Rattle.kp_kore.specs.View.{view, sorted_variable_view};
ghost use Rattle.kp_kore.specs.Instance.{is_named as named_among};
ghost use Rattle.kp_symbolic.specs.Formulas.{fact};
ghost use Rattle.kp_symbolic.specs.Opening as model;
ghost use Rattle.kp_symbolic.specs.View.{atom_view, literal_view, replaced_view};

use kp_kore::{Pattern, SortedVariable};
use kp_symbolic::{Atom, Literal, Replaced};
use std::alloc::{AllocError, Global};
use std::sync::Arc;

/// Whether a variable of this name is among them.
pub fn is_named(name: &str, variables: &[SortedVariable]) -> bool
    ensures { result ≡ named_among name.now (map sorted_variable_view variables.now) }
{
    for variable in variables {
        if variable.name.as_str() == name {
            return true;
        }
    }
    false
}

/// The replacements of these variables alone.
fn replaced_among(
    alloc: Global,
    replaced: &[Replaced],
    variables: &[SortedVariable],
) -> Result<Vec<Replaced>, AllocError>
    ensures { IfOk result (λ rs. map replaced_view rs.items ≡ filter (λ r. named_among r.name (map sorted_variable_view variables.now)) (map replaced_view replaced.now)) }
{
    let mut found = Vec::new(alloc);
    for one in replaced {
        if is_named(&one.name, variables) {
            found.push(one.share(alloc)?)?;
        }
    }
    Ok(found)
}

/// The predicate as it stands, with terms in the place of its free variables.
fn quotation(alloc: Global, replaced: &[Replaced], pattern: &Pattern) -> Result<Atom, AllocError>
    ensures { IfOk result (λ a. atom_view a ≡ model.quotation (map replaced_view replaced.now) (view pattern.now)) }
{
    let variables = pattern.free_vars(alloc)?;
    let replaced = replaced_among(alloc, replaced, &variables)?;
    Ok(Atom::Quoted {
        pattern: Arc::new(alloc, pattern.copy(alloc)?)?,
        replaced: Arc::new(alloc, replaced)?,
    })
}

/// The predicate as a literal, with a sign.
pub fn quoted_literal(
    alloc: Global,
    replaced: &[Replaced],
    sign: bool,
    pattern: &Pattern,
) -> Result<Literal, AllocError>
    ensures { IfOk result (λ l. fact (literal_view l) ≡ model.literal_fact sign (model.quotation (map replaced_view replaced.now) (view pattern.now))) }
{
    Ok(Literal {
        holds: sign,
        atom: quotation(alloc, replaced, pattern)?,
    })
}
