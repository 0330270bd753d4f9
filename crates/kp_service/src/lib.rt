// The service over a book of modules: what each frame is answered, from what was seen of the book before to what is seen
// after. specs/Meant.antt says what a request's module means, specs/Answered.antt which reply to a call is right at a book, specs/Answers.antt what the calls of a frame do in order.
#![tactic(auto)]

mod added;
mod batch;
pub mod laws;
mod member;
mod service;

pub use service::Service;
