ghost use Rattle.std.specs.Prelude.{◌≡◌, ◌↔◌, ◌∷◌, ◌++◌, ◌<◌, [], MatchOption, IsTrue, IfOk, IfSome, string_bytes, List, length, map, true};
ghost use Rattle.kp_kore.specs.Syntax.{Text};
ghost use Rattle.kp_kore.specs.Instance.{Valuation};
ghost use Rattle.kp_ground.specs.Matches.{Matches, StaysSolvable, BindsNames, IsSame, AreSame};
ghost use Rattle.kp_ground.specs.Slots.{stands_at, with_name, is_numbered, joined, left_places};
ghost use Rattle.kp_ground.specs.Solves.{Solves, bound_names};
ghost use Rattle.kp_ground.specs.Terms.{left_bound};
ghost use Rattle.kp_ground.specs.LeftView.{left_view};
ghost use Rattle.kp_ground.specs.View.{value_view};

use crate::binding::{Binding, bound_at};
use crate::left_side::CompiledLeft;
use crate::names::same_name;
use crate::value::Value;
use std::alloc::{AllocError, Global};
use std::sync::Arc;

/// The bindings where two values are the same, else none.
fn keep_if_equal(left: &Value, right: &Value, bindings: Vec<Binding>) -> Option<Vec<Binding>>
    ensures { MatchOption result (¬ (value_view left.now ≡ value_view right.now)) (λ kept. (kept.items ≡ bindings.items) × (value_view left.now ≡ value_view right.now)) }
{
    if left.equal(right) {
        Some(bindings)
    } else {
        None
    }
}

/// The bindings with one more, of the next slot.
fn with_binding(
    alloc: Global,
    name: &Arc<String>,
    value: &Value,
    mut bindings: Vec<Binding>,
) -> Result<Vec<Binding>, AllocError>
    ensures same { IfOk result (λ new. (v : Valuation) → Solves v new.items ↔ (Solves v bindings.items × (v (string_bytes name.now.value) ≡ value_view value.now))) }
    ensures names { IfOk result (λ new. bound_names new.items ≡ bound_names bindings.items ++ string_bytes name.now.value ∷ []) }
{
    bindings.push(Binding {
        name: name.clone()?,
        value: value.share(alloc)?,
    })?;
    Ok(bindings)
}

/// Whether the variable of a slot is bound to this value.
fn is_bound_to(bindings: &[Binding], slot: usize, value: &Value) -> bool
    requires { slot < length bindings.now }
    ensures { (v : Valuation) (x : Text) → Solves v bindings.now → stands_at (bound_names bindings.now) x slot ≡ true → IsTrue result ↔ (v x ≡ value_view value.now) }
{
    bound_at(bindings, slot).equal(value)
}

/// The bindings where this is so, else none.
fn keep_if(is_so: bool, bindings: Vec<Binding>) -> Option<Vec<Binding>>
    ensures { MatchOption result (¬ IsTrue is_so) (λ kept. (kept.items ≡ bindings.items) × IsTrue is_so) }
{
    if is_so { Some(bindings) } else { None }
}

/// Binds a variable to a value where its slot is the next one, else compares the value with that of the slot.
fn match_variable(
    alloc: Global,
    name: &Arc<String>,
    slot: usize,
    value: &Value,
    bindings: Vec<Binding>,
) -> Result<Option<Vec<Binding>>, AllocError>
    requires { let x = string_bytes name.now.value in stands_at (with_name (bound_names bindings.items) x) x slot ≡ true }
    ensures solvable { StaysSolvable result bindings.items }
    ensures matches { Matches result bindings.items (IsSame (left_bound (string_bytes name.now.value)) (value_view value.now)) }
    ensures names { IfOk result (λ o. IfSome o (λ new. bound_names new.items ≡ with_name (bound_names bindings.items) (string_bytes name.now.value))) }
{
    if slot < bindings.len() {
        let is_same = is_bound_to(&bindings, slot, value);
        return Ok(keep_if(is_same, bindings));
    }
    Ok(Some(with_binding(alloc, name, value, bindings)?))
}

impl CompiledLeft {
    /// The bindings under which the left term's instance is the value, from those so far; None where there are none.
    #[cycle(matching)]
    pub fn match_value(
        &self,
        alloc: Global,
        value: &Value,
        bindings: Vec<Binding>,
    ) -> Result<Option<Vec<Binding>>, AllocError>
        requires { is_numbered (bound_names bindings.items) (left_places self.now) ≡ true }
        ensures solvable { StaysSolvable result bindings.items }
        ensures matches { Matches result bindings.items (IsSame (left_view self.now) (value_view value.now)) }
        ensures names { BindsNames result bindings.items (left_places self.now) }
    {
        match self {
            CompiledLeft::Variable { name, slot } => {
                Ok(match_variable(alloc, name, *slot, value, bindings)?)
            }
            CompiledLeft::Fixed { value: fixed } => Ok(keep_if_equal(fixed, value, bindings)),
            CompiledLeft::Built {
                constructor,
                arguments,
            } => match value {
                Value::Constructed {
                    constructor: found,
                    arguments: values,
                } => {
                    if same_name(constructor, found) {
                        Ok(CompiledLeft::match_all(alloc, arguments, values, bindings)?)
                    } else {
                        Ok(None)
                    }
                }
                _ => Ok(None),
            },
        }
    }

    /// The same of lists, one by one.
    #[cycle(matching)]
    fn match_all(
        alloc: Global,
        lefts: &[CompiledLeft],
        values: &[Value],
        mut bindings: Vec<Binding>,
    ) -> Result<Option<Vec<Binding>>, AllocError>
        requires { is_numbered (bound_names bindings.items) (joined (map left_places lefts.now)) ≡ true }
        ensures solvable { StaysSolvable result bindings.items }
        ensures matches { Matches result bindings.items (AreSame lefts.now values.now) }
        ensures names { BindsNames result bindings.items (joined (map left_places lefts.now)) }
    {
        if lefts.len() != values.len() {
            return Ok(None);
        }
        for i in 0..lefts.len() {
            match lefts[i].match_value(alloc, &values[i], bindings)? {
                Some(more) => bindings = more,
                None => return Ok(None),
            }
        }
        Ok(Some(bindings))
    }
}
