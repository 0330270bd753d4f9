// What the bytes of a frame ask: one call, or a batch of calls, each on its own. A call is a request of one of the four
// methods or the cause why it is refused, with the id of its reply; without an id it is a notification. What is read of a
// JSON value is specs/Read.antt. A client's writers of simplify and add-module stand here; laws.rt says that what a client
// writes is read back.
#![tactic(auto)]

mod asked;
mod call;
mod frame;
pub mod laws;
mod params;
mod request;

pub use asked::{add_module_text, simplify_text};
pub use call::{Asked, Call};
pub use frame::{Parsed, request_of};
pub use request::{Reading, Request};
