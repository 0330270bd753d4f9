// The element variables in scope, by name.
ghost use Rattle.std.specs.Prelude.{◌≡◌, ◌++◌, ◌∷◌, [], IfErr, IfOk, OnOk, List, Some, None, Option, string_bytes};
ghost use Rattle.std.specs.Option.{option_map};
ghost use Rattle.kp_kore.specs.Parts.{SortedName, without_name};
ghost use Rattle.kp_kore.specs.Syntax.{KoreSort, variable};
ghost use Rattle.kp_kore.specs.View.{sort_view};
ghost use Rattle.kp_signature.specs.Faults.{fault_view};
ghost use Rattle.kp_signature.specs.Places.{sort_in_scope};
ghost use Rattle.kp_signature.specs.Scopes.{Knows, sorted_name};
ghost use Rattle.kp_signature.specs.Verify.{VerifyFault, variable_fault};

use crate::error::VerifyError;
use crate::rules::check_same;
use indexmap::IndexMap;
use kp_kore::{Name, Sort};
use std::alloc::{AllocError, Global};

/// For each name the sort that counts first in scope.
pub type Scope = IndexMap<Name, Sort>;

/// V4: a variable has the sort that its name has in scope. A new name is in scope from here on.
pub fn meet_variable(
    alloc: Global,
    scope: &mut Scope,
    name: &Name,
    sort: &Sort,
) -> Result<(), VerifyError>
    ensures known { OnOk result ((s : List SortedName) → Knows s scope.old → Knows (s ++ record { name = string_bytes name.now; sort = sort_view sort.now } ∷ []) scope.new) }
    ensures ok { OnOk result ((s : List SortedName) → Knows s scope.old → variable_fault s (variable (string_bytes name.now) (sort_view sort.now)) ≡ None) }
    ensures err { let sort' = sort_view sort.now in let the_variable = variable (string_bytes name.now) sort' in IfErr result (λ e. (f : VerifyFault) → (s : List SortedName) → Knows s scope.old → fault_view e ≡ Some f → variable_fault s the_variable ≡ Some f) }
{
    match scope.get(name.as_str()) {
        Some(first) => check_same(alloc, first, sort),
        None => Ok(add_variable(alloc, scope, name, sort)?),
    }
}

/// Brings a new variable into scope.
fn add_variable(
    alloc: Global,
    scope: &mut Scope,
    name: &Name,
    sort: &Sort,
) -> Result<(), AllocError>
    ensures { let name' = string_bytes name.now in OnOk result ((s : List SortedName) → Knows s scope.old → sort_in_scope name' s ≡ None → Knows (s ++ sorted_name name' (sort_view sort.now) ∷ []) scope.new) }
{
    scope.insert(name.clone()?, sort.copy(alloc)?)?;
    Ok(())
}

/// Brings the variable of a binder into scope, and gives the sort that its name had there.
pub fn bind_variable(
    alloc: Global,
    scope: &mut Scope,
    name: &Name,
    sort: &Sort,
) -> Result<Option<Sort>, AllocError>
    ensures known { OnOk result ((s : List SortedName) → Knows s scope.old → Knows (record { name = string_bytes name.now; sort = sort_view sort.now } ∷ s) scope.new) }
    ensures hidden { IfOk result (λ o. (s : List SortedName) → Knows s scope.old → option_map sort_view o ≡ sort_in_scope (string_bytes name.now) s) }
{
    Ok(scope.insert(name.clone()?, sort.copy(alloc)?)?)
}

/// Takes the variable of a binder out of scope again, and puts back what it hid.
pub fn unbind_variable(
    scope: &mut Scope,
    name: &Name,
    hidden: Option<Sort>,
) -> Result<(), AllocError>
    ensures { let name' = string_bytes name.now in OnOk result ((s found : List SortedName) (t : KoreSort) → Knows (sorted_name name' t ∷ (s ++ found)) scope.old → option_map sort_view hidden ≡ sort_in_scope name' s → Knows (s ++ without_name name' found) scope.new) }
{
    match hidden {
        Some(sort) => {
            scope.insert(name.clone()?, sort)?;
        }
        None => {
            let _ = scope.swap_remove(name.as_str());
        }
    }
    Ok(())
}
