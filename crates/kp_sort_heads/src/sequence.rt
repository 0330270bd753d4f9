// The heads of a sort, and those of them that some value has.
ghost use Rattle.std.specs.Prelude.{◌≡◌};
ghost use Rattle.std.specs.Option.{option_map};
ghost use Rattle.kp_kore.specs.Signature.{heads_of};
ghost use Rattle.kp_kore.specs.View.{sort_view};
ghost use Rattle.kp_signature.specs.View.{signature_view};
ghost use Rattle.kp_heads.specs.Made.{IsHeadTableOf};
ghost use Rattle.kp_sort_heads.specs.Remaining.{IsNext, remaining_heads};
ghost use Rattle.kp_sort_heads.specs.Live.{IsNextLive};
ghost use Rattle.kp_sort_heads.specs.Views.{head_view, left_of};

use crate::head::{SortHead, is_head, is_live};
use crate::remaining::{RemainingHeads, Stage};
use kp_heads::HeadTable;
use kp_kore::Sort;
use kp_signature::Signature;

/// The heads of a sort that are still to come.
#[derive(Drop)]
pub struct HeadSequence<'a> {
    pub(crate) signature: &'a Signature,
    pub(crate) sort: &'a Sort,
    pub(crate) left: RemainingHeads<'a>,
}

/// The heads of a sort, in the order of the definition: whole numbers, truth values, tokens of the sort and of each that
/// stands on the left of a subsort pair, constructors as they are declared.
pub fn heads<'a>(signature: &'a Signature, sort: &'a Sort) -> HeadSequence<'a>
    ensures left { left_of result ≡ heads_of (signature_view signature.now) (sort_view sort.now) }
    ensures signature { result.signature.now ≡ signature.now }
{
    let left = RemainingHeads {
        stage: Stage::Integers,
        pairs: signature.subsorts(),
        symbols: signature.symbols(),
    };
    HeadSequence {
        signature,
        sort,
        left,
    }
}

impl<'a> HeadSequence<'a> {
    /// The next head, none where no more is left. Takes no memory.
    pub fn next(&mut self) -> Option<SortHead<'a>>
        ensures next { IsNext (option_map head_view result) (left_of self.old) (left_of self.new) }
        ensures signature { self.new.signature.now ≡ self.old.signature.now }
    {
        next_head(self.signature, self.sort, &mut self.left)
    }

    /// The next head that some value has, none where no more is left; what is passed, none has. The table is the
    /// signature's. Takes no memory.
    pub fn next_live(&mut self, table: &HeadTable) -> Option<SortHead<'a>>
        ensures next { let g = signature_view self.old.signature.now in IsHeadTableOf g table.now → IsNextLive g (option_map head_view result) (left_of self.old) (left_of self.new) }
        ensures signature { self.new.signature.now ≡ self.old.signature.now }
    {
        next_live_head(table, self.signature, self.sort, &mut self.left)
    }
}

/// The next of what is left that is a head of the sort.
fn next_head<'a>(
    signature: &Signature,
    sort: &'a Sort,
    left: &mut RemainingHeads<'a>,
) -> Option<SortHead<'a>>
    ensures { let g = signature_view signature.now in let s = sort_view sort.now in IsNext (option_map head_view result) (remaining_heads g s left.old) (remaining_heads g s left.new) }
{
    while let Some(head) = left.next(sort) {
        if is_head(signature, sort, &head) {
            return Some(head);
        }
    }
    None
}

/// The next of what is left that is a head of the sort, and that some value has.
fn next_live_head<'a>(
    table: &HeadTable,
    signature: &Signature,
    sort: &'a Sort,
    left: &mut RemainingHeads<'a>,
) -> Option<SortHead<'a>>
    ensures { let g = signature_view signature.now in let s = sort_view sort.now in IsHeadTableOf g table.now → IsNextLive g (option_map head_view result) (remaining_heads g s left.old) (remaining_heads g s left.new) }
{
    while let Some(head) = next_head(signature, sort, left) {
        if is_live(table, signature, &head) {
            return Some(head);
        }
    }
    None
}
