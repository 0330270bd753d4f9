// Symbolic terms, literals, clauses, predicates and states as Kore patterns: what is written is what kp_symbolic's Writing says,
// with literals and clauses in the order of their compact JSON texts. New names: `Fresh` and the least number from 1 with which
// the name isn't used.
#![tactic(auto)]

pub mod binder;
pub mod clause;
pub mod error;
pub mod fresh;
pub mod incoming_names;
pub mod joined;
pub mod laws;
pub mod literal;
pub mod order;
pub mod own_clause;
pub mod quoted;
pub mod sort_places;
pub mod state;
pub mod sum;
pub mod term;
pub mod test;
pub mod texts;

pub use clause::clause_out;
pub use error::WritingError;
pub use literal::{boxed_term, equality_out, literal_out};
pub use state::{predicate_out, state_out};
pub use term::term_out;
