// One claim sentence: what it states, with variables and predicates on both sides, and the faults that it has by itself.
// specs/Claims.antt says what a claim states, specs/Faults.antt which faults there are.
#![tactic(auto)]

mod chosen;
mod depends;
mod fresh;
mod item;
mod names;
pub mod outline;
mod sides;

pub use depends::{comma_parts, dependencies_of};
pub use item::FiledClaim;
pub use sides::check_sides;
