// The sorts that are hooked.
ghost use Rattle.std.specs.Prelude.{◌≡◌, IfOk, codes, map, string_bytes};
ghost use Rattle.std.specs.Option.{option_map};
ghost use Rattle.kp_kore.specs.Signature.{has_hook as hook_test};
ghost use Rattle.kp_kore.specs.View.{sort_sentence_view};
ghost use Rattle.kp_signature.specs.Table.{name_hooked, name_other_than};

use crate::attributes::text_of;
use kp_kore::{Name, SortSentence};
use std::alloc::AllocError;

/// The name of the first of these that is hooked with the hook.
pub fn first_hooked(sorts: &[SortSentence], hook: &str) -> Result<Option<Name>, AllocError>
    ensures { IfOk result (λ o. option_map string_bytes o ≡ name_hooked hook.now (map sort_sentence_view sorts.now)) }
{
    for sort in sorts {
        if has_hook(sort, hook) {
            return Ok(Some(sort.name.clone()?));
        }
    }
    Ok(None)
}

/// The second name, where it isn't the first.
pub fn other_than(first: &Option<Name>, second: Option<Name>) -> Option<Name>
    ensures { option_map string_bytes result ≡ name_other_than (option_map string_bytes first.now) (option_map string_bytes second) }
{
    match first {
        Some(first) => match second {
            Some(second) => { if first == &second { None } else { Some(second) } }
            None => None,
        },
        None => second,
    }
}

/// Whether the sort has this hook.
fn has_hook(sort: &SortSentence, hook: &str) -> bool
    ensures { result ≡ hook_test hook.now (sort_sentence_view sort.now) }
{
    if !sort.hooked {
        return false;
    }
    match text_of(&sort.attributes, "hook") {
        Some(text) => text.as_str() == hook,
        None => false,
    }
}
