// The heads of a sort in the order of the definition, and those of them that some value has: one by one, without
// memory.
#![tactic(auto)]

mod head;
mod remaining;
mod sequence;

pub use head::{SortHead, is_head, is_named};
pub use sequence::{HeadSequence, heads};
