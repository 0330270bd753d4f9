// The cases of a symbolic state under a rule's left side: its variables are narrowed by constructors and by sorts, what is
// repeated becomes equations that stay apart, and each narrowing splits off the part without it. What the calls promise stands by
// name in specs/Promises.
#![tactic(auto)]

pub mod clash;
pub mod course;
pub mod head_clauses;
pub mod head_sorts;
pub mod left_parts;
pub mod literals;
pub mod meeting;
pub mod narrow;
pub mod new_names;
pub mod pairs;
pub mod part;
pub mod refined;
pub mod repeats;
pub mod shared_sorts;
pub mod term_sorts;

pub use meeting::{cases, meet};
pub use part::{Meeting, MetPart, Part, Setting};
