// Whether a symbolic state implies a consequent: the parts of the state that the consequent's term meets or doesn't, the goals that
// are asked of the part that it meets, and the substitution. To be read in the order Open, Answers, Printed.
#![tactic(auto)]

mod answer;
mod answered;
mod concluded;
mod entries;
mod goals;
mod implying;
mod matched;
mod meeting;
mod parts;
mod shown;
mod sides;
mod substitution;
mod tellings;

pub use answer::{Implication, ImpliesError};
pub use implying::implies;
