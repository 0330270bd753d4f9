// Sets of variables' names.
ghost use Rattle.std.specs.Prelude.{◌≡◌, ◌&&◌, not, IfOk, map, string_bytes};
ghost use Rattle.std.specs.List.{list_all};
ghost use Rattle.indexmap.specs.IndexSet.{contains_text};
ghost use Rattle.kp_kore.specs.Signature.{has_literals as literals_test};
ghost use Rattle.kp_kore.specs.View.{sort_view, sorted_variable_view};
ghost use Rattle.kp_kore.specs.Foreign.{repeats_literals_only as repeats_test};
ghost use Rattle.kp_signature.specs.View.{signature_view};
ghost use Rattle.kp_rule_reading.specs.ReadRules.{Names};

use indexmap::IndexSet;
use kp_compile::NameSet;
use kp_kore::SortedVariable;
use kp_signature::Signature;
use std::alloc::{AllocError, Global};

/// The names of these variables.
pub fn names_of(alloc: Global, variables: &[SortedVariable]) -> Result<NameSet, AllocError>
    ensures { IfOk result (λ names. Names names (map sorted_variable_view variables.now)) }
{
    let mut names = IndexSet::new(alloc);
    for variable in variables {
        names.insert(variable.name.clone()?)?;
    }
    Ok(names)
}

/// Whether all of these variables are named.
pub fn are_named(variables: &[SortedVariable], names: &NameSet) -> bool
    ensures { result ≡ list_all (λ x. contains_text names.now x.name) (map sorted_variable_view variables.now) }
{
    for variable in variables {
        if !names.contains(variable.name.as_str()) {
            return false;
        }
    }
    true
}

/// Whether the variable is named, and its sort has no literals.
fn is_named_without_literals(
    signature: &Signature,
    variable: &SortedVariable,
    names: &NameSet,
) -> bool
    ensures { let g = signature_view signature.now in result ≡ (contains_text names.now (string_bytes variable.now.name) && not (literals_test g (sort_view variable.now.sort))) }
{
    names.contains(variable.name.as_str()) && !signature.has_literals(&variable.sort)
}

/// Whether each variable that stands again, further right, has a sort with literals.
pub fn repeats_literals_only(
    alloc: Global,
    signature: &Signature,
    variables: &[SortedVariable],
) -> Result<bool, AllocError>
    ensures { IfOk result (λ b. b ≡ repeats_test (signature_view signature.now) (map sorted_variable_view variables.now)) }
{
    let mut later = IndexSet::new(alloc);
    for i in 0..variables.len() {
        let variable = &variables[variables.len() - 1 - i];
        if is_named_without_literals(signature, variable, &later) {
            return Ok(false);
        }
        later.insert(variable.name.clone()?)?;
    }
    Ok(true)
}
