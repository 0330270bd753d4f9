// Predicates and states read into clauses, in code: connectives are gone through with both signs at once, down to the
// predicates that have none; each conjunct's clauses are made unless they hold too many literals, each clause stands once; and a
// pattern is read as a state exactly where it is one term and predicates without foreign symbols. Its equations aren't solved here.
#![tactic(auto)]

pub mod conjunct;
pub mod fault;
pub mod opened;
pub mod state;

pub use conjunct::{clauses_of, clauses_of_all};
pub use opened::open_predicate;
pub use state::{TermFault, open_state};
