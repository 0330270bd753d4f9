// Literals and clauses with terms in the place of variables, opened again. What they were opened to before stands in the
// clause; specs/Replacing.antt says what they are opened to now.
#![tactic(auto)]

pub mod atom;
pub mod clause;
pub mod laws;
pub mod quoted;

pub use clause::open_clause;
