// What stands at the top of values.
ghost use Rattle.std.specs.Prelude.{◌≡◌};
ghost use Rattle.kp_ground.specs.View.{value_view};
ghost use Rattle.kp_rule_sets.specs.Tops.{top_of};
ghost use Rattle.kp_rule_sets.specs.HeadView.{head_view};

use kp_ground::Value;

/// What stands at the top of a value: a constructor, or a literal of this kind.
#[derive(Drop)]
pub enum ValueTop<'a> {
    Number,
    Truth,
    Token,
    Constructor(&'a str),
}

/// The head of a value.
pub fn head_of(value: &Value) -> ValueTop<'_>
    ensures { head_view result ≡ top_of (value_view value.now) }
{
    match value {
        Value::Whole { .. } => ValueTop::Number,
        Value::Truth { .. } => ValueTop::Truth,
        Value::Token { .. } => ValueTop::Token,
        Value::Constructed { constructor, .. } => ValueTop::Constructor(constructor.as_str()),
    }
}
