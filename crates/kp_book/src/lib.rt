// The book of registered modules as data: what a name means in it, and how it grows.
// specs/Books.antt has the definitions.
#![tactic(auto)]

pub mod laws;
