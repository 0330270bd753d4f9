// Which values a foreign rule may rewrite.
ghost use Rattle.std.specs.Prelude.{◌≡◌, ◌≢◌, ◌↔◌, IfOk, IfSome, MatchOption, IsTrue, All, true, false, map, string_bytes};
ghost use Rattle.kp_kore.specs.Signature.{IsHeadOf};
ghost use Rattle.kp_kore.specs.View.{sort_view};
ghost use Rattle.kp_signature.specs.View.{signature_view};
ghost use Rattle.kp_kore.specs.Value.{head_of};
ghost use Rattle.kp_kore.specs.Sorted.{IsSorted};
ghost use Rattle.kp_kore.specs.Instance.{Valuation};
ghost use Rattle.kp_ground.specs.Matches.{Matches};
ghost use Rattle.kp_ground.specs.Solves.{Solves};
ghost use Rattle.kp_ground.specs.View.{value_view, values_of};
ghost use Rattle.kp_rules.specs.Skeletons.{skeleton_view, forms_of, Shows, ShowAll, IsSolvable, IsAdmitted};

use crate::skeleton::Skeleton;
use crate::values::has_sort;
use kp_ground::binding::find_binding;
use kp_ground::names::same_name;
use kp_ground::{Binding, Value};
use kp_kore::Sort;
use kp_signature::Signature;
use std::alloc::{AllocError, Global};
use std::sync::Arc;

impl Skeleton {
    /// Whether the value is an instance.
    pub fn admits(
        &self,
        alloc: Global,
        signature: &Signature,
        value: &Value,
    ) -> Result<bool, AllocError>
        ensures { let g = signature_view signature.now in let value' = value_view value.now in IsSorted g value' → IfOk result (λ b. IsTrue b ↔ IsAdmitted g self.now value') }
    {
        let bindings = self.match_value(alloc, signature, value, Vec::new(alloc))?;
        Ok(bindings.is_some())
    }

    /// The bindings under which the value is an instance, from those so far; None where there are none.
    #[cycle(matching)]
    fn match_value(
        &self,
        alloc: Global,
        signature: &Signature,
        value: &Value,
        bindings: Vec<Binding>,
    ) -> Result<Option<Vec<Binding>>, AllocError>
        ensures same { Matches result bindings.items (λ v. Shows (signature_view signature.now) v (skeleton_view self.now) (value_view value.now)) }
        ensures solvable { IsSolvable bindings.items → IfOk result (λ o. IfSome o (λ new. IsSolvable new.items)) }
    {
        match self {
            Skeleton::Anything => Ok(Some(bindings)),
            Skeleton::Nothing => Ok(None),
            Skeleton::Any { sort } => Ok(match_sort(alloc, signature, value, sort, bindings)?),
            Skeleton::Variable { name, sort } => {
                Ok(match_one(alloc, signature, value, name, sort, bindings)?)
            }
            Skeleton::Fixed { value: fixed } => Ok(keep_where(fixed.equal(value), bindings)),
            Skeleton::Built {
                constructor,
                arguments,
            } => match value {
                Value::Constructed {
                    constructor: found,
                    arguments: values,
                } => {
                    if same_name(found, constructor) {
                        Ok(Skeleton::match_all(arguments, alloc, signature, values, bindings)?)
                    } else {
                        Ok(None)
                    }
                }
                _ => Ok(None),
            },
        }
    }

    /// The same of lists, one by one.
    #[cycle(matching)]
    fn match_all(
        skeletons: &[Skeleton],
        alloc: Global,
        signature: &Signature,
        values: &[Value],
        mut bindings: Vec<Binding>,
    ) -> Result<Option<Vec<Binding>>, AllocError>
        ensures same { let g = signature_view signature.now in let forms = forms_of (map skeleton_view skeletons.now) in let values' = values_of (map value_view values.now) in Matches result bindings.items (λ v. ShowAll g v forms values') }
        ensures solvable { IsSolvable bindings.items → IfOk result (λ o. IfSome o (λ new. IsSolvable new.items)) }
    {
        if skeletons.len() != values.len() {
            return Ok(None);
        }
        for i in 0..skeletons.len() {
            match skeletons[i].match_value(alloc, signature, &values[i], bindings)? {
                Some(more) => bindings = more,
                None => return Ok(None),
            }
        }
        Ok(Some(bindings))
    }
}

/// The bindings where this is so.
fn keep_where(is_so: bool, bindings: Vec<Binding>) -> Option<Vec<Binding>>
    ensures { MatchOption result (is_so ≡ false) (λ kept. (kept.items ≡ bindings.items) × (is_so ≡ true)) }
{
    if is_so { Some(bindings) } else { None }
}

/// The bindings where the value has the sort, else none.
fn match_sort(
    alloc: Global,
    signature: &Signature,
    value: &Value,
    sort: &Sort,
    bindings: Vec<Binding>,
) -> Result<Option<Vec<Binding>>, AllocError>
    ensures same { Matches result bindings.items (λ v. IsHeadOf (signature_view signature.now) (sort_view sort.now) (head_of (value_view value.now))) }
    ensures solvable { IsSolvable bindings.items → IfOk result (λ o. IfSome o (λ new. IsSolvable new.items)) }
{
    let has_sort = has_sort(alloc, signature, value, sort)?;
    Ok(keep_where(has_sort, bindings))
}

/// One value of a sort, the same wherever the variable stands.
fn match_one(
    alloc: Global,
    signature: &Signature,
    value: &Value,
    name: &Arc<String>,
    sort: &Sort,
    bindings: Vec<Binding>,
) -> Result<Option<Vec<Binding>>, AllocError>
    ensures same { let g = signature_view signature.now in let value' = value_view value.now in Matches result bindings.items (λ v. (v (string_bytes name.now.value) ≡ value') × IsHeadOf g (sort_view sort.now) (head_of value')) }
    ensures solvable { IsSolvable bindings.items → IfOk result (λ o. IfSome o (λ new. IsSolvable new.items)) }
{
    if has_sort(alloc, signature, value, sort)? {
        Ok(match_variable(alloc, name, value, bindings)?)
    } else {
        Ok(None)
    }
}

/// Whether the variable is bound to this value; None where it isn't bound.
fn is_bound_to(bindings: &[Binding], name: &str, value: &Value) -> Option<bool>
    ensures { let value' = value_view value.now in MatchOption result (All (λ b. string_bytes b.name.value ≢ name.now) bindings.now) (λ b. (v : Valuation) → Solves v bindings.now → IsTrue b ↔ (v name.now ≡ value')) }
{
    match find_binding(bindings, name) {
        Some(bound) => Some(bound.equal(value)),
        None => None,
    }
}

/// The bindings with one more.
fn with_binding(
    alloc: Global,
    name: &Arc<String>,
    value: &Value,
    mut bindings: Vec<Binding>,
) -> Result<Vec<Binding>, AllocError>
    ensures { IfOk result (λ new. (v : Valuation) → Solves v new.items ↔ (Solves v bindings.items × (v (string_bytes name.now.value) ≡ value_view value.now))) }
{
    bindings.push(Binding {
        name: name.clone()?,
        value: value.share(alloc)?,
    })?;
    Ok(bindings)
}

/// Binds a variable to a value, or compares it with what the variable is bound to.
fn match_variable(
    alloc: Global,
    name: &Arc<String>,
    value: &Value,
    bindings: Vec<Binding>,
) -> Result<Option<Vec<Binding>>, AllocError>
    ensures same { Matches result bindings.items (λ v. v (string_bytes name.now.value) ≡ value_view value.now) }
    ensures solvable { IsSolvable bindings.items → IfOk result (λ o. IfSome o (λ new. IsSolvable new.items)) }
{
    match is_bound_to(&bindings, name.as_str(), value) {
        Some(is_same) => Ok(keep_where(is_same, bindings)),
        None => Ok(Some(with_binding(alloc, name, value, bindings)?)),
    }
}
