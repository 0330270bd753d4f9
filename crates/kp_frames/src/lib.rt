// A stream of bytes is cut into frames, however it comes in pieces: `Cutter` gives each frame with the piece that ends it, and
// keeps the rest. A frame that begins with a bracket ends where its brackets are closed, any other with its line.
// It reads each byte once, keeps at most `limit` bytes, and after want of memory answers that alone.
// specs/Frames.antt says what the frames of a stream are.
#![tactic(auto)]

mod cutter;
mod held;
mod laws;
mod nest;

pub use cutter::{Cutter, MOST_FRAME};
pub use laws::{
    a_stream_is_cut_in_one_way, every_stream_is_cut, pieces_do_not_matter, what_is_cut_stays_cut,
};
