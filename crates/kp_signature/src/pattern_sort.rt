// The sort that a pattern has.
ghost use Rattle.std.specs.Prelude.{◌≡◌, IfOk, string_bytes};
ghost use Rattle.std.specs.Option.{option_map};
ghost use Rattle.kp_kore.specs.Sorting.{result_sort};
ghost use Rattle.kp_kore.specs.View.{view, sort_view, sorts_view};
ghost use Rattle.kp_signature.specs.Places.{own_sort as own_sort_of};
ghost use Rattle.kp_signature.specs.View.{signature_view};

use crate::instance::sort_at;
use crate::nodes::sort_of_texts;
use crate::signature::Signature;
use kp_kore::{Name, Pattern, Sort};
use std::alloc::{AllocError, Global};

/// The sort of a pattern, none where its symbol isn't declared.
pub fn own_sort(
    alloc: Global,
    signature: &Signature,
    pattern: &Pattern,
) -> Result<Option<Sort>, AllocError>
    ensures { IfOk result (λ o. option_map sort_view o ≡ own_sort_of (signature_view signature.now) (view pattern.now)) }
{
    match pattern {
        Pattern::Application { symbol, sorts, .. } => Ok(applied_sort(
            alloc, signature, symbol, sorts,
        )?),
        Pattern::StringLiteral { .. } => Ok(Some(sort_of_texts(alloc)?)),
        Pattern::Variable { sort, .. }
        | Pattern::SetVariable { sort, .. }
        | Pattern::Literal { sort, .. }
        | Pattern::Top { sort }
        | Pattern::Bottom { sort }
        | Pattern::Not { sort, .. }
        | Pattern::Next { sort, .. }
        | Pattern::And { sort, .. }
        | Pattern::Or { sort, .. }
        | Pattern::Implies { sort, .. }
        | Pattern::Iff { sort, .. }
        | Pattern::Rewrites { sort, .. }
        | Pattern::Exists { sort, .. }
        | Pattern::Forall { sort, .. }
        | Pattern::Ceil { sort, .. }
        | Pattern::Floor { sort, .. }
        | Pattern::Equals { sort, .. }
        | Pattern::In { sort, .. }
        | Pattern::Mu { sort, .. }
        | Pattern::Nu { sort, .. } => Ok(Some(sort.copy(alloc)?)),
    }
}

/// The result sort of a symbol at these sorts.
fn applied_sort(
    alloc: Global,
    signature: &Signature,
    symbol: &Name,
    sorts: &[Sort],
) -> Result<Option<Sort>, AllocError>
    ensures { IfOk result (λ o. option_map sort_view o ≡ result_sort (signature_view signature.now) (string_bytes symbol.now) (sorts_view sorts.now)) }
{
    match signature.profile(symbol) {
        Some(profile) => Ok(Some(sort_at(profile.result_sort, alloc, profile.parameters, sorts)?)),
        None => Ok(None),
    }
}
