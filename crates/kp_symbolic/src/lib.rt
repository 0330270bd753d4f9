// What symbolic states are: terms with variables, clauses, and states with the variables at hand. The definitions stand
// in specs/, to be read in the order Terms, Formulas, States, WellFormed, Folding, Heads, Opening, Clauses, Writing,
// Solving, Plain, Weights, Verdicts, Sources, Shown, Endings. The functions of laws, examples, rows, sourced, verdicts and weighed
// have no bodies: each carries laws of those definitions, or examples.
// In code, symbolic terms, literals, clauses and states are each seen as that data by the views of specs/View.antt. A
// shared value is seen as the same data and shares its parts, and `same` is equality of what is seen. Terms are made by
// `apply` alone, which folds: the term that a pattern is, and a term with terms in the place of variables, are those of
// the definitions.
#![tactic(auto)]

pub mod atom;
pub mod clause;
pub mod fold;
pub mod language;
pub mod laws;
pub mod made;
mod occurs;
pub mod replaced;
pub mod state;
pub mod sum;
pub mod term;
pub mod variable;
pub mod verdicts;

pub use atom::{Atom, HeadTest, Replaced};
pub use clause::{Clause, Literal};
pub use fold::term_under;
pub use language::Language;
pub use made::apply;
pub use state::State;
pub use term::Term;
pub use variable::Variable;
