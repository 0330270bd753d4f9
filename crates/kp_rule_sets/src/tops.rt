// What stands at the top of left terms.
ghost use Rattle.std.specs.Prelude.{◌≡◌};
ghost use Rattle.kp_ground.specs.LeftView.{left_view};
ghost use Rattle.kp_rules.specs.Skeletons.{skeleton_view};
ghost use Rattle.kp_rule_sets.specs.Tops.{left_tops, form_tops, body_tops};
ghost use Rattle.kp_rule_sets.specs.HeadView.{tops_view};

use crate::head::{ValueTop, head_of};
use kp_ground::CompiledLeft;
use kp_rules::{RuleBody, Skeleton};

/// What the instances of a left term have at their tops.
#[derive(Drop)]
pub enum Tops<'a> {
    Any,
    Nothing,
    Only(ValueTop<'a>),
}

/// Of a left term that is read. A variable may stand for any value, under `inj` too, which values don't have.
fn of_left(left: &CompiledLeft) -> Tops<'_>
    ensures { tops_view result ≡ left_tops (left_view left.now) }
{
    match left {
        CompiledLeft::Variable { .. } => Tops::Any,
        CompiledLeft::Fixed { value } => Tops::Only(head_of(value)),
        CompiledLeft::Built { constructor, .. } => Tops::Only(ValueTop::Constructor(
            constructor.as_str(),
        )),
    }
}

/// Of what a foreign rule's left side may stand for.
fn of_skeleton(skeleton: &Skeleton) -> Tops<'_>
    ensures { tops_view result ≡ form_tops (skeleton_view skeleton.now) }
{
    match skeleton {
        Skeleton::Anything => Tops::Any,
        Skeleton::Nothing => Tops::Nothing,
        Skeleton::Any { .. } => Tops::Any,
        Skeleton::Variable { .. } => Tops::Any,
        Skeleton::Fixed { value } => Tops::Only(head_of(value)),
        Skeleton::Built { constructor, .. } => Tops::Only(ValueTop::Constructor(
            constructor.as_str(),
        )),
    }
}

/// Of a rule's left side.
pub fn tops_of(body: &RuleBody) -> Tops<'_>
    ensures { tops_view result ≡ body_tops body.now }
{
    match body {
        RuleBody::Rewrite(rewrite) => of_left(&rewrite.left),
        RuleBody::Foreign(skeleton) => of_skeleton(skeleton),
    }
}
