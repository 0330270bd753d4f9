// One connection: the frames of a source, cut however its bytes come, are answered one after another by any answerer,
// and each reply is a line of a sink. specs/Conversations.antt says what is written, and where it may break off.
#![tactic(auto)]

mod answerer;
mod served;
mod serving;
mod turn;

pub use answerer::Answerer;
pub use served::Served;
pub use serving::serve;
