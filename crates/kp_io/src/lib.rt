// The outside: sources, sinks and shelves as traits, whose clauses say what a call does to what is told, and that a
// call fails only where a count of faults rose. In memory all is told; over std's files and streams nothing more is
// told than std tells.
#![tactic(auto)]

pub mod bytes;
pub mod calls;
pub mod disk;
pub mod drain;
pub mod fault;
pub mod files;
pub mod shelf;
pub mod sink;
pub mod source;
pub mod stream;
pub mod whole;

pub use bytes::{Bytes, SureBytes};
pub use calls::Calls;
pub use disk::Disk;
pub use drain::{Drain, SureDrain};
pub use fault::{Failed, LoadFault, OutsideFault};
pub use files::Files;
pub use shelf::{LOAD_LIMIT, Shelf};
pub use sink::Sink;
pub use source::Source;
pub use stream::{Incoming, Outgoing};
pub use whole::{put_all, read_all};
