// From verified patterns to the ground engine's terms, left terms and conditions, with the meaning that
// kp_kore/specs/Instance.antt gives to patterns: a compiled term has the pattern's instance under every valuation,
// and a compiled condition holds exactly where its predicates are true. inj is seen through. \equals and \in are the
// equality of two terms. \ceil of a term is its equality with itself, of two conjoined terms their equality; \ceil and \floor of
// a predicate are that predicate. What has no such condition is a Shape: quantifiers, \equals and \in of what is no
// term, and \floor of a term, which tells whether the term's sort has one value.
// Ground states: reading a request's term, and the one normal spelling in which a configuration is written. Patterns told
// apart by their form: predicates, and the members of a conjunction in any nesting.
#![tactic(auto)]

mod condition;
pub mod conjunction;
mod error;
pub mod form;
mod head_sort;
mod home_sort;
mod left_side;
mod literal;
mod names;
mod pattern_parts;
mod shape;
mod spelling;
mod state;
mod state_error;
mod term;

pub use condition::compile_condition;
pub use conjunction::conjuncts;
pub use error::CompileError;
pub use form::{is_conjoined_pair, is_predicate};
pub use head_sort::own_sort;
pub use home_sort::is_home;
pub use left_side::compile_left;
pub use literal::literal_value;
pub use names::{NameSet, has_name, no_names, slot_of};
pub use pattern_parts::{add_subpatterns, subpatterns};
pub use shape::is_term;
pub use spelling::{has_injection, injects, placed_at, places_of, spelled, spelled_at};
pub use state::{GroundState, first_foreign, state_of};
pub use state_error::{SpellingError, StateError};
pub use term::compile_term;
