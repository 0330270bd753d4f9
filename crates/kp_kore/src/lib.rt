// Kore: its syntax as Rust types, and what it means.
// The syntax: sorts, patterns, sentences, modules and definitions as Rust types, each seen as the data of
// specs/Syntax.antt by the views of specs/View.antt. A copy is seen as the same data, `equal` is equality of what is
// seen, and `free_vars` are the element variables that no binder hides.
// The meaning: values, instances, truth, rules, steps, runs, claims, and when a reply is right. The definitions stand
// in specs/, to be read in the order Value, Interpretation, Instance, Rules, Foreign, Theory, Steps, Claims, Replies,
// AtHand, Onward, Cases, Causes, Executions, Implied. The functions of laws, claim_laws and reply_laws have no bodies: each
// carries laws of those definitions. A claim is a type of the code, which all that prove claims hand on.
// The functions of whole numbers and truth values that symbols may be hooked to, and which of the model's they are.
#![tactic(auto)]

mod claim;
pub mod claim_laws;
pub mod hook;
pub mod laws;
pub mod pattern;
mod pattern_copy;
mod pattern_equal;
mod pattern_free;
pub mod reply_laws;
pub mod sentence;
mod sentence_copy;
pub mod sort;

pub use claim::Claim;
pub use hook::{Arithmetic, Comparison, Connective, Hook};
pub use pattern::Pattern;
pub use pattern_free::SortedVariable;
pub use sentence::{
    AliasSentence, AxiomSentence, Definition, Module, Sentence, SortSentence, SymbolSentence,
};
pub use sort::{Name, Sort};
