// Frames, requests, codes and faults of the protocol: what they are as bytes and as JSON trees (specs/, in the order Frame,
// Request, Questions, Reply), examples of them, which the functions of examples.rt carry, and the code that reads a frame,
// an id and the options of a request, that writes a client's questions and the replies with an error. Requests are read by
// kp_requests; replies with a result are kp_replies'.
#![tactic(auto)]

mod fault;
mod frame;
mod id;
pub mod laws;
mod params;
mod question;
mod reply;
mod request;

pub use fault::{PatternFault, StateFault, fault_text, kind_value, named_value};
pub use frame::{FrameError, frame_of};
pub use id::{Id, id_of, id_value};
pub use params::{
    ExecuteOptions, MOST_STEPS, ParamsError, bound_of, object_at, options_of, text_at,
};
pub use question::{Object, Question, question_text, request_value, with_member_at, with_text_at};
pub use reply::{line_of, refusal_text};
pub use request::{Refusal, is_version_two, member_text};
