// What a part of a left side asks of a term.
ghost use Rattle.std.specs.Prelude.{◌≡◌, ◌<◌, length, get_or};
ghost use Rattle.kp_ground.specs.View.{value_view};
ghost use Rattle.kp_rules.specs.Skeletons as model;
ghost use Rattle.kp_rules.specs.Skeletons.{skeleton_view};
ghost use Rattle.kp_unify.specs.Forms.{form_view, members_view, IsAsked};

use kp_ground::Value;
use kp_kore::Sort;
use kp_rules::skeleton::Skeleton;
use std::sync::Arc;

/// A part of a left side: of a skeleton, or of a value in it.
#[derive(Clone, Copy)]
pub enum LeftPart<'a> {
    Skeleton { skeleton: &'a Skeleton },
    Value { value: &'a Value },
}

/// What a part of a left side asks of a term.
#[derive(Clone, Copy)]
pub enum Ask<'a> {
    Anything,
    Nothing,
    /// Any value of the sort.
    Any {
        sort: &'a Sort,
    },
    /// The value of the rule's variable.
    Variable {
        name: &'a Arc<String>,
        sort: &'a Sort,
    },
    /// A whole number, a truth value or a token.
    Literal {
        value: &'a Value,
    },
    /// A constructor and its members.
    Constructor {
        symbol: &'a Arc<String>,
        members: Members<'a>,
    },
}

/// The members of a constructor in a left side.
#[derive(Clone, Copy)]
pub enum Members<'a> {
    Skeletons { skeletons: &'a [Skeleton] },
    Values { values: &'a [Value] },
}

/// What a part of a left side asks.
pub fn ask_of<'a>(form: LeftPart<'a>) -> Ask<'a>
    ensures { IsAsked result (form_view form.entry) }
{
    match form {
        LeftPart::Skeleton { skeleton } => ask_of_skeleton(skeleton),
        LeftPart::Value { value } => ask_of_value(value),
    }
}

/// What a skeleton asks.
fn ask_of_skeleton<'a>(skeleton: &'a Skeleton) -> Ask<'a>
    ensures { IsAsked result (skeleton_view skeleton.now) }
{
    match skeleton {
        Skeleton::Anything => Ask::Anything,
        Skeleton::Nothing => Ask::Nothing,
        Skeleton::Any { sort } => Ask::Any { sort },
        Skeleton::Variable { name, sort } => Ask::Variable { name, sort },
        Skeleton::Fixed { value } => ask_of_value(value),
        Skeleton::Built {
            constructor,
            arguments,
        } => Ask::Constructor {
            symbol: constructor,
            members: Members::Skeletons {
                skeletons: arguments,
            },
        },
    }
}

/// What a value asks: a constructor's asks its members.
fn ask_of_value<'a>(value: &'a Value) -> Ask<'a>
    ensures { IsAsked result (model.fixed (value_view value.now)) }
{
    match value {
        Value::Constructed {
            constructor,
            arguments,
        } => Ask::Constructor {
            symbol: constructor,
            members: Members::Values { values: arguments },
        },
        Value::Whole { .. } | Value::Truth { .. } | Value::Token { .. } => Ask::Literal { value },
    }
}

impl<'a> Members<'a> {
    ghost use Rattle.std.specs.Prelude.{◌≡◌, ◌<◌, length, get_or};
    ghost use Rattle.kp_rules.specs.Skeletons as model;
    ghost use Rattle.kp_unify.specs.Forms.{form_view, members_view};

    /// How many there are.
    pub fn count(self) -> usize
        ensures { result ≡ length (members_view self.entry) }
    {
        match self {
            Members::Skeletons { skeletons } => skeletons.len(),
            Members::Values { values } => values.len(),
        }
    }

    /// The member at this place.
    pub fn at(self, place: usize) -> LeftPart<'a>
        requires { place < length (members_view self) }
        ensures { (f : model.Form) → form_view result ≡ get_or (members_view self.entry) place f }
    {
        match self {
            Members::Skeletons { skeletons } => LeftPart::Skeleton {
                skeleton: &skeletons[place],
            },
            Members::Values { values } => LeftPart::Value {
                value: &values[place],
            },
        }
    }
}
