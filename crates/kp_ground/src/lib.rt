// Ground values and the terms of rules, exact to the definitions of kp_kore. A term's value is its instance under
// every valuation that the bindings allow, or it is told that a number leaves 128 bits. A match is found exactly where
// a valuation that solves the old bindings makes the left term's instance the value, and the new bindings are solved by
// exactly those valuations. A condition holds, or doesn't, under every valuation that the bindings allow. What a variable
// is bound to is found by its slot, which the compiled term holds: no name is compared.
#![tactic(auto)]

pub mod binding;
pub mod condition;
pub mod evaluate;
pub mod holds;
pub mod left_side;
pub mod matching;
pub mod names;
pub mod term;
pub mod value;

pub use binding::Binding;
pub use condition::Condition;
pub use evaluate::EvaluationError;
pub use left_side::CompiledLeft;
pub use term::CompiledTerm;
pub use value::Value;
