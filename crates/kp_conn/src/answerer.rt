ghost use Rattle.std.specs.Prelude.{ℕ, List, Option, IfOk, OnErr, option_map};
ghost use Rattle.kp_book.specs.Books.{Opening, Seen};
ghost use Rattle.kp_conn.specs.Conversations.{ForEachSeen};

use std::alloc::{AllocError, Global};
use std::sync::Wait;

/// What answers the frames of connections. Each caller has a pass of its own, which has seen the book of modules up to
/// some entry; what it has seen is told over an opening, since modules keep their rules and not their axioms.
pub trait Answerer {
    /// What one caller has; it may go to another thread.
    type Pass: Send;

    /// Over an opening of this answerer the pass has seen this book, and these entries of it are its own.
    ghost has_seen: { Self → Self.Pass → Opening → Seen → Type 0 };

    /// The pass is one of this answerer.
    ghost is_pass: { Self → Self.Pass → Type 0 };

    /// What a frame is answered, from what was seen before to what is seen after: a reply, or none to a notification.
    ghost answers: { Self → Opening → Seen → List ℕ → Option (List ℕ) → Seen → Type 0 };

    /// What a frame may have done where memory ran out before its answer.
    ghost begins: { Self → Opening → Seen → List ℕ → Seen → Type 0 };

    /// The reply to a frame, where it has one.
    fn answer<R: Wait>(
        &self,
        rt: &R,
        alloc: Global,
        pass: &mut Self::Pass,
        frame: &[u8],
    ) -> Result<Option<Vec<u8>>, AllocError>
        requires pass { is_pass self.now pass.old }
        ensures pass { is_pass self.now pass.new }
        ensures answered { let Has = has_seen self.now in IfOk result (λ reply. ForEachSeen (Has pass.old) (Has pass.new) (λ o before. answers self.now o before frame.now (option_map (λ line. line.items) reply))) }
        ensures begun { OnErr result (ForEachSeen (has_seen self.now pass.old) (has_seen self.now pass.new) (λ o before. begins self.now o before frame.now)) };
}
