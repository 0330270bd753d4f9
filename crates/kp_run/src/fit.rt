// Whether a value has the shape of a left term, before any variable is bound.
ghost use Rattle.std.specs.Prelude.{IsTrue};
ghost use Rattle.kp_kore.specs.Instance.{Valuation};
ghost use Rattle.kp_ground.specs.LeftView.{left_view};
ghost use Rattle.kp_ground.specs.Matches.{AreSame, IsSame};
ghost use Rattle.kp_ground.specs.View.{value_view};

use kp_ground::names::same_name;
use kp_ground::{CompiledLeft, Value};

/// Whether a value has the shape of a left term, whatever each variable stands for: each instance has it.
#[cycle(fitting)]
fn fits(left: &CompiledLeft, value: &Value) -> bool
    ensures { (v : Valuation) → IsSame (left_view left.now) (value_view value.now) v → IsTrue result }
{
    match left {
        CompiledLeft::Variable { .. } => true,
        CompiledLeft::Fixed { value: fixed } => fixed.equal(value),
        CompiledLeft::Built {
            constructor,
            arguments,
        } => match value {
            Value::Constructed {
                constructor: found,
                arguments: values,
            } => {
                if same_name(constructor, found) {
                    all_fit(arguments, values)
                } else {
                    false
                }
            }
            _ => false,
        },
    }
}

/// The same of lists, one by one.
#[cycle(fitting)]
fn all_fit(lefts: &[CompiledLeft], values: &[Value]) -> bool
    ensures { (v : Valuation) → AreSame lefts.now values.now v → IsTrue result }
{
    if lefts.len() != values.len() {
        return false;
    }
    for i in 0..lefts.len() {
        if !fits(&lefts[i], &values[i]) {
            return false;
        }
    }
    true
}

/// Whether the parts of a value have the shapes of a left term's: each instance's have. What stands at the top isn't
/// looked at.
pub fn parts_fit(left: &CompiledLeft, value: &Value) -> bool
    ensures { (v : Valuation) → IsSame (left_view left.now) (value_view value.now) v → IsTrue result }
{
    match left {
        CompiledLeft::Built { arguments, .. } => match value {
            Value::Constructed {
                arguments: values,
                ..
            } => all_fit(arguments, values),
            _ => true,
        },
        _ => true,
    }
}
