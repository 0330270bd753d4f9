// What a consequent asks of an antecedent: its term as a left side without variables of its own, what its bound variables stand
// for in the part that it meets, and the clauses that are left to be asked there. To be read in the order Consequents, Gives,
// Goals, Exact.
#![tactic(auto)]

mod consequent;
mod equations;
mod given;
mod goals;
mod left;
mod solved;
mod sums;

pub use consequent::{Consequent, consequent_of};
pub use equations::{has_bound, is_among};
pub use given::match_clauses;
pub use goals::{asked_in, is_unbound};
pub use left::left_of;
pub use sums::shifted;
