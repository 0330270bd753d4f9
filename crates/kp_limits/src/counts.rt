// How many whole-number variables there are.
ghost use Rattle.std.specs.Prelude.{◌≡◌, ◌||◌, ◌+◌, string_bytes, if◌then◌else◌, IfOk, OnOk};
ghost use Rattle.std.specs.Str.{bytes_eq};
ghost use Rattle.indexmap.specs.IndexSet.{contains_text, index_set_len};
ghost use Rattle.kp_kore.specs.Syntax.{Text};
ghost use Rattle.kp_signature.specs.View.{signature_view};
ghost use Rattle.kp_symbolic.specs.Shown as shown;
ghost use Rattle.kp_symbolic.specs.View.{variables_view};

use indexmap::IndexSet;
use kp_kore::Name;
use kp_literals::value_kinds::has_only_numbers;
use kp_signature::Signature;
use kp_symbolic::Variable;
use std::alloc::{AllocError, Global};
use std::sync::Arc;

/// Adds a name, where it isn't there.
fn add_once(found: &mut IndexSet<Name>, name: &Name) -> Result<(), AllocError>
    ensures named { OnOk result ((y : Text) → contains_text found.new y ≡ (bytes_eq (string_bytes name.now) y || contains_text found.old y)) }
    ensures counted { let more = if contains_text found.old (string_bytes name.now) then 0 else 1 in OnOk result (index_set_len found.new ≡ more + index_set_len found.old) }
{
    found.insert(name.clone()?)?;
    Ok(())
}

/// How many whole-number variables stand among these, each name once.
pub fn whole_variables(
    alloc: Global,
    signature: &Signature,
    variables: &[Arc<Variable>],
) -> Result<usize, AllocError>
    ensures { IfOk result (λ n. n ≡ shown.whole_variables (signature_view signature.now) (variables_view variables.now)) }
{
    let mut later = IndexSet::new(alloc);
    for i in 0..variables.len() {
        let variable = &variables[variables.len() - 1 - i];
        if has_only_numbers(signature, &variable.sort) {
            add_once(&mut later, &variable.name)?;
        }
    }
    Ok(later.len())
}
