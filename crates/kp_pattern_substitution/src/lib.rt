// Closed terms in the place of a pattern's free variables: `substitute` is exact to the definition, and the laws say
// that instances and truth are those under the valuation that has the terms' instances for their names.
#![tactic(auto)]

pub mod build;
pub mod laws;
pub mod replace;

pub use replace::{Replacement, substitute};
