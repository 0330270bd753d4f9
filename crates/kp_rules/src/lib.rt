// Rules of a definition, and foreign rules with what their left side may stand for; where a rule fires, and which values
// a foreign rule may rewrite. Which sorts split by heads: the order of a signature's sorts, with what is asked of each sort.
#![tactic(auto)]

pub mod alone;
pub mod fires;
mod foreign_left_sides;
pub mod inject;
pub mod own_heads;
pub mod right_side;
pub mod rule;
pub mod shape;
pub mod sides;
pub mod skeleton;
pub mod sort_index;
pub mod splits;
mod values;

pub use right_side::{RightSide, is_named};
pub use rule::{Rewrite, Rule, RuleBody, RuleSource, SortTest};
pub use sides::ReadSides;
pub use skeleton::Skeleton;
pub use sort_index::SortIndex;
pub use values::has_sort;
