// Which sorts of a signature have a value at all, and which constructors head one: told by a table that is made once
// and asked without memory.
#![tactic(auto)]

mod constructor;
mod made;
mod row;
mod spread;
mod table;
mod users;

pub use table::HeadTable;
