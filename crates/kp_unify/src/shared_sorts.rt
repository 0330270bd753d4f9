// Which heads two sorts share, and the sort that has exactly these.
ghost use Rattle.std.specs.Prelude.{◌≡◌, ◌&&◌, ◌↔◌, not, IsTrue, MatchOption, map};
ghost use Rattle.std.specs.Option.{option_map};
ghost use Rattle.std.specs.List.{find};
ghost use Rattle.kp_kore.specs.Signature.{is_below, is_head};
ghost use Rattle.kp_kore.specs.Syntax.{KoreSort};
ghost use Rattle.kp_kore.specs.View.{sort_view};
ghost use Rattle.kp_signature.specs.Pairs.{subsort_view};
ghost use Rattle.kp_signature.specs.View.{signature_view};
ghost use Rattle.kp_heads.specs.Made.{IsHeadTableOf};
ghost use Rattle.kp_sort_heads.specs.Views.{head_view};
ghost use Rattle.kp_case_laws.specs.Courses.{IsMeet};
ghost use Rattle.kp_unify.specs.Heads as model;

use kp_heads::HeadTable;
use kp_kore::Sort;
use kp_literals::value_kinds::lies_below;
use kp_signature::{Signature, Subsort};
use kp_sort_heads::{SortHead, heads, is_head};

/// Whether some value has both sorts, where the table is the signature's.
pub fn share_values(table: &HeadTable, signature: &Signature, first: &Sort, second: &Sort) -> bool
    requires { IsHeadTableOf (signature_view signature.now) table.now }
    ensures { IsTrue result ↔ model.ShareValues (signature_view signature.now) (sort_view first.now) (sort_view second.now) }
{
    let mut left = heads(signature, first);
    while let Some(head) = left.next_live(table) {
        if is_head(signature, second, &head) {
            return true;
        }
    }
    false
}

/// Whether the first sort has the head, and the second hasn't.
fn is_lost(signature: &Signature, first: &Sort, second: &Sort, head: &SortHead) -> bool
    ensures { let g = signature_view signature.now in result ≡ (is_head g (sort_view first.now) (head_view head.now) && not (is_head g (sort_view second.now) (head_view head.now))) }
{
    is_head(signature, first, head) && !is_head(signature, second, head)
}

/// Whether each head that the first two sorts share is one of the third.
fn has_common_heads(signature: &Signature, first: &Sort, second: &Sort, third: &Sort) -> bool
    ensures { result ≡ model.has_common_heads (signature_view signature.now) (sort_view first.now) (sort_view second.now) (sort_view third.now) }
{
    let mut left = heads(signature, first);
    while let Some(head) = left.next() {
        if is_lost(signature, second, third, &head) {
            return false;
        }
    }
    true
}

/// Whether the sort lies below both others.
fn lies_below_both(signature: &Signature, sort: &Sort, first: &Sort, second: &Sort) -> bool
    ensures { let pairs = (signature_view signature.now).subsorts in result ≡ (is_below pairs (sort_view sort.now) (sort_view first.now) && is_below pairs (sort_view sort.now) (sort_view second.now)) }
{
    lies_below(signature, sort, first) && lies_below(signature, sort, second)
}

/// Whether the sort lies below both and has exactly the heads that they share.
fn is_meet(signature: &Signature, first: &Sort, second: &Sort, sort: &Sort) -> bool
    ensures { result ≡ model.is_meet (signature_view signature.now) (sort_view first.now) (sort_view second.now) (sort_view sort.now) }
{
    lies_below_both(signature, sort, first, second)
        && has_common_heads(signature, first, second, sort)
}

/// The first lower sort of the pairs that is such a sort.
fn meet_among<'a>(
    signature: &Signature,
    pairs: &'a [Subsort],
    first: &Sort,
    second: &Sort,
) -> Option<&'a Sort>
    ensures { let is_it = model.is_meet (signature_view signature.now) (sort_view first.now) (sort_view second.now) in
        option_map (λ m. sort_view m.now) result ≡ find is_it (map (λ p. p.0) (map subsort_view pairs.now)) }
{
    for pair in pairs {
        if is_meet(signature, first, second, &pair.lower) {
            return Some(&pair.lower);
        }
    }
    None
}

/// A sort below both with exactly the heads that they share, if there is one: the lower of both, where one lies below the
/// other.
pub fn meet_of<'a>(signature: &'a Signature, first: &'a Sort, second: &'a Sort) -> Option<&'a Sort>
    ensures found { option_map (λ m. sort_view m.now) result ≡ model.meet_found (signature_view signature.now) (sort_view first.now) (sort_view second.now) }
    ensures meant { let IsIt = IsMeet (signature_view signature.now) (sort_view first.now) (sort_view second.now) in MatchOption result ((m : KoreSort) → ¬ IsIt m) (λ m. IsIt (sort_view m.now)) }
{
    if lies_below(signature, second, first) {
        return Some(second);
    }
    if lies_below(signature, first, second) {
        return Some(first);
    }
    meet_among(signature, signature.subsorts(), first, second)
}
