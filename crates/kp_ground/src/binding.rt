ghost use Rattle.std.specs.Prelude.{◌≡◌, ◌≢◌, ◌<◌, ℕ, List, IfSome, IfNone, All, length, string_bytes, true};
ghost use Rattle.kp_kore.specs.Syntax.{Text};
ghost use Rattle.kp_kore.specs.Instance.{Valuation};
ghost use Rattle.kp_ground.specs.Slots.{stands_at};
ghost use Rattle.kp_ground.specs.Solves.{Solves, bound_names};
ghost use Rattle.kp_ground.specs.View.{value_view};

use crate::value::Value;
use std::sync::Arc;

/// What a variable stands for. Its place among the bindings is the variable's slot; the name, which left terms share,
/// only says whose it is.
pub struct Binding {
    pub name: Arc<String>,
    pub value: Value,
}

// Written out: a derived one is proved again in each crate that owns such a value.
impl Drop for Binding {
    fn drop(self) {
        let Binding {
            name: _name,
            value: _value,
        } = self;
    }
}

/// What the variable of a slot is bound to.
pub fn bound_at(bindings: &[Binding], slot: usize) -> &Value
    requires { slot < length bindings.now }
    ensures { (v : Valuation) (x : Text) → Solves v bindings.now → stands_at (bound_names bindings.now) x slot ≡ true → v x ≡ value_view result.now }
{
    &bindings[slot].value
}

/// What a variable is bound to, if it is.
pub fn find_binding<'a>(bindings: &'a [Binding], name: &str) -> Option<&'a Value>
    ensures found { IfSome result (λ u. (v : Valuation) → Solves v bindings.now → v name.now ≡ value_view u.now) }
    ensures none { IfNone result (All (λ b. string_bytes b.name.value ≢ name.now) bindings.now) }
{
    for binding in bindings {
        if binding.name.as_str() == name {
            return Some(&binding.value);
        }
    }
    None
}
