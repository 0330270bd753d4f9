// The order of a signature's sorts, with what is asked of each sort.
ghost use Rattle.std.specs.Prelude.{◌≡◌, IfOk};
ghost use Rattle.kp_signature.specs.View.{signature_view};
ghost use Rattle.kp_rules.specs.Index.{IsIndexOf};

use crate::alone::alone_marks;
use crate::own_heads::own_heads;
use kp_signature::Signature;
use kp_signature::order::SortOrder;
use std::alloc::{AllocError, Global};

/// The order of a signature's sorts, and of each sort that has a number whether some head has it for its own, and
/// whether it is marked as sharing lower sorts with comparable ones alone.
#[derive(Drop)]
pub struct SortIndex<'a> {
    pub order: &'a SortOrder,
    pub heads: Vec<bool>,
    pub alone: Vec<bool>,
}

impl<'a> SortIndex<'a> {
    /// The index of the sorts of a signature, made in proportion to it.
    pub fn new(alloc: Global, signature: &'a Signature) -> Result<SortIndex<'a>, AllocError>
        ensures { IfOk result (IsIndexOf (signature_view signature.now)) }
    {
        let order = signature.order();
        let heads = own_heads(alloc, signature, order)?;
        let alone = alone_marks(alloc, order)?;
        Ok(SortIndex {
            order,
            heads,
            alone,
        })
    }
}
