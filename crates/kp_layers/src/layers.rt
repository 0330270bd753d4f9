// The layers of claims.
ghost use Rattle.std.specs.Prelude.{IfOk};
ghost use Rattle.kp_layers.specs.Walks.{numbers_of, IsRight};

use crate::walk::{Step, Walk};
use std::alloc::{AllocError, Global};

/// What the dependencies of claims make of them.
#[derive(Drop)]
pub enum Layering {
    /// The layer of each claim, from 1.
    Layers(Vec<usize>),
    /// A claim that depends on itself, at once or over others.
    Cycle(usize),
}

/// The layer of each claim, or a claim in a cycle; `needs` has for each claim the numbers of those that it depends on.
pub fn layers_of(alloc: Global, needs: &[Vec<usize>]) -> Result<Layering, AllocError>
    ensures { IfOk result (IsRight (numbers_of needs.now)) }
{
    let mut walk = Walk::start(alloc, needs.len())?;
    loop {
        match walk.step(needs)? {
            Step::More => {}
            Step::Cycle(claim) => return Ok(Layering::Cycle(claim)),
            Step::Over => break,
        }
    }
    Ok(Layering::Layers(walk.layers))
}
