// What the literals of a state say, in code: the form of each, told without memory, and the bounds of differences that
// comparisons are; in a clause of its own a literal may also ask for the head of a variable, or be the equation of a variable
// that stands in no other clause. specs/Forms.antt says which form of kp_symbolic the code's is, specs/Readings.antt which read
// literal, specs/Equations.antt which equation, specs/Kinds.antt how the heads of a sort are tested.
#![tactic(auto)]

pub mod bounds;
pub mod clauses;
pub mod equation;
pub mod form;
pub mod names;
pub mod own_clause;
pub mod plain_clauses;
pub mod reading;
pub mod value_kinds;

pub use clauses::read_clauses;
pub use form::{AskedHeads, LiteralForm, TokenPart, WholePart, form_of};
pub use reading::ReadLiteral;
pub use value_kinds::{has_only_numbers, has_only_tokens, has_only_truths};
