// From a definition and its main module to the modules in order, the signature and the rules; the rule sets of the modules
// that main reaches, each in the order of its own walk, and those of added modules: the rules of their imports, each once, and
// then their own.
#![tactic(auto)]

pub mod axioms;
pub mod extend_error;
mod extension;
mod joined_rules;
pub mod labels;
mod outlines;
mod own_rule_set;
mod own_walk;
pub mod reached_modules;
mod rules;
pub mod table;

pub use extend_error::ExtendError;
pub use extension::extend;
pub use own_rule_set::rules_of;
pub use reached_modules::reached;
pub use table::{ModuleTable, load};
