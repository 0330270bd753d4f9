// Patterns with the texts by which they are ordered.
ghost use Rattle.std.specs.Prelude.{◌≡◌, IfOk};
ghost use Rattle.std.proofs.Props.{props};
ghost use Rattle.kp_kore.specs.View.{view};
ghost use Rattle.kp_outward.specs.Order.{json_text as text_of};

use kp_json::value_of;
use kp_kore::Pattern;
use std::alloc::{AllocError, Global};

/// A pattern and the compact text of its JSON, empty where Kore JSON has no tag for it.
#[derive(Drop)]
pub struct Spelled {
    pub text: Vec<u8>,
    pub pattern: Box<Pattern>,
    ghost told: { text.items ≡ text_of (view pattern.value) } by { Prim.hlevel props },
}

/// The compact text of a pattern's JSON; empty where Kore JSON has no tag for it.
fn json_text(alloc: Global, pattern: &Pattern) -> Result<Vec<u8>, AllocError>
    ensures { IfOk result (λ t. t.items ≡ text_of (view pattern.now)) }
{
    match value_of(alloc, pattern)? {
        Some(tree) => tree.to_vec(alloc),
        None => Ok(Vec::new(alloc)),
    }
}

/// The pattern with its text.
pub fn spell(alloc: Global, pattern: Box<Pattern>) -> Result<Spelled, AllocError>
    ensures { IfOk result (λ s. view s.pattern.value ≡ view pattern.value) }
{
    let text = json_text(alloc, &pattern)?;
    Ok(Spelled { text, pattern })
}
