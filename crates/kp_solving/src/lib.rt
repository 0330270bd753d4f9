// The equations of a symbolic state, solved in code: the first that can be solved is, until none can, and the state is
// exactly the one that kp_symbolic says. Clauses in which the variable doesn't stand are shared. A state with further
// clauses, and one in which a variable is a term, are those of specs/Further.antt. `inward` reads a pattern as a state.
// `substitute` puts terms in the place of variables, all at once, and solves nothing.
#![tactic(auto)]

pub mod clause;
pub mod first_equation;
pub mod further;
pub mod laws;
pub mod quoted_clause;
pub mod reading;
mod size;
pub mod solved_equation;
pub mod solving;
pub mod substitute_clause;
pub mod substitute_laws;
pub mod substitute_variables;
pub mod substituting;

pub use further::{constrain, refine};
pub use reading::inward;
pub use solving::settle;
pub use substituting::substitute;
