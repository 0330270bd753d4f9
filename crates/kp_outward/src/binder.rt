// Binders of predicates whose variables have terms in their place.
ghost use Rattle.std.specs.Prelude.{◌≡◌, IfOk, OnOk, map, string_bytes};
ghost use Rattle.std.specs.List.{list_any};
ghost use Rattle.std.specs.Str.{bytes_eq};
ghost use Rattle.kp_kore.specs.View.{view, sort_view};
ghost use Rattle.kp_symbolic.specs.Terms.{unknown};
ghost use Rattle.kp_symbolic.specs.Writing as model;
ghost use Rattle.kp_symbolic_laws.specs.Runs.{IsRoomAt};
ghost use Rattle.kp_symbolic.specs.View.{replaced_view};

use crate::fresh::fresh;
use crate::incoming_names::{add_variable_names, names_coming_in};
use kp_kore::{Name, Pattern, Sort};
use kp_symbolic::{Replaced, Term, Variable};
use std::alloc::{AllocError, Global};
use std::sync::Arc;

/// Whether the name is among these.
fn is_among(name: &str, names: &[Name]) -> bool
    ensures { result ≡ list_any (bytes_eq name.now) (map string_bytes names.now) }
{
    for other in names {
        if name == other.as_str() {
            return true;
        }
    }
    false
}

/// A binder's name, or a new one where it would bind a variable that comes in.
pub fn bound_name(
    alloc: Global,
    replaced: &[Replaced],
    name: &Name,
    pattern: &Pattern,
) -> Result<Name, AllocError>
    ensures named { let rs = map replaced_view replaced.now in IfOk result (λ x. string_bytes x ≡ model.bound_name rs (string_bytes name.now) (view pattern.now)) }
    ensures room { let rs = map replaced_view replaced.now in OnOk result (IsRoomAt rs (string_bytes name.now) (view pattern.now)) }
{
    let mut names = names_coming_in(alloc, replaced, name, pattern)?;
    if !is_among(name, &names) {
        return name.clone();
    }
    add_variable_names(alloc, &mut names, pattern)?;
    fresh(alloc, &names)
}

/// A variable of another name and this sort in the place of a variable.
fn named_anew(alloc: Global, name: &Name, other: &Name, sort: &Sort) -> Result<Replaced, AllocError>
    ensures { let x = string_bytes name.now in let y = string_bytes other.now in IfOk result (λ r. replaced_view r ≡ record { name = x; term = unknown (record { name = y; sort = sort_view sort.now }) }) }
{
    let variable = Variable {
        name: other.clone()?,
        sort: sort.copy(alloc)?,
    };
    Ok(Replaced {
        name: Arc::new(alloc, name.clone()?)?,
        term: Term::Unknown {
            variable: Arc::new(alloc, variable)?,
        },
    })
}

/// What stands for variables under a binder of one, which has another name now.
pub fn renamed(
    alloc: Global,
    replaced: &[Replaced],
    name: &Name,
    other: &Name,
    sort: &Sort,
) -> Result<Vec<Replaced>, AllocError>
    ensures { let rs = map replaced_view replaced.now in IfOk result (λ rs'. map replaced_view rs'.items ≡ model.renamed (string_bytes name.now) (string_bytes other.now) (sort_view sort.now) rs) }
{
    let mut found = Vec::new(alloc);
    found.push(named_anew(alloc, name, other, sort)?)?;
    for one in replaced {
        found.push(one.share(alloc)?)?;
    }
    Ok(found)
}
