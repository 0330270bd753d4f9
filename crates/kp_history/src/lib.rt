// A value that many passes share, in threads of their own: one after the other has the turn, takes the value out of its
// slot, and puts it back with an entry more or none. So what each pass sees is a beginning of one list of entries, which
// only grows, and of its own entries each pass knows the positions. specs/Rule.antt is the rule that each step keeps;
// specs/Passes.antt says what a pass is between two calls and while it has the turn.
#![tactic(auto)]

mod archive;
mod history;
pub mod laws;
mod pass;
mod places;
mod plays;
mod turns;
mod view;

pub use archive::{Archive, Law};
pub use history::History;
pub use pass::HistoryPass;
pub use places::Full;
pub use view::{Terms, View};
