// The book of registered modules: the ids of modules, and when a book is legal. specs/Legal.antt has the definitions; what
// a name means in a book is kp_book's.
#![tactic(auto)]

pub mod book;
mod entries;
mod faults;
mod id;
pub mod laws;
pub mod seen;

pub use book::{RegisterFault, Registry, prepare};
pub use id::{Id, id_of};
pub use seen::{Book, Entry, Pass, Ready};
