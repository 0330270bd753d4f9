ghost use Rattle.std.specs.Prelude.{◌≡◌};
ghost use Rattle.std.proofs.Props.{props};
ghost use Rattle.kp_ground.specs.Slots.{left_variables};
ghost use Rattle.kp_ground.specs.Solves.{bound_names};

use kp_ground::Binding;
use kp_rules::Rewrite;

/// A rule that fires, with its priority and what its left term's variables are bound to.
#[derive(Drop)]
pub struct GroundFiring<'a> {
    pub priority: u32,
    pub rewrite: &'a Rewrite,
    pub bindings: Vec<Binding>,
    ghost bound: { bound_names bindings.items ≡ left_variables rewrite.now.left } by { Prim.hlevel props },
}
