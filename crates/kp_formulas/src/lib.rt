// Predicates without connectives, opened into formulas of literals, and formulas distributed into clauses, in code: equalities
// of constructor terms and Boolean expressions are opened with a sign, tests of heads too, and what isn't opened is quoted,
// exactly as kp_symbolic says. Clauses are counted while they are put together from those of the parts, and of more literals
// than a state may have the number alone is kept: specs/Distribution.antt says what that is of a formula.
#![tactic(auto)]

pub mod bound_variables;
pub mod count;
pub mod distributed;
pub mod distributing;
pub mod equality;
pub mod equality_sides;
pub mod formula;
pub mod head;
pub mod head_test;
pub mod joined;
pub mod keyed;
pub mod leaf;
pub mod question;
pub mod quotation;

pub use distributed::Distributed;
pub use distributing::distribute;
pub use equality::{open_same, open_truth};
pub use formula::Formula;
pub use leaf::open_leaf;
