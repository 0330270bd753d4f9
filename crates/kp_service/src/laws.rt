// What answering a frame does to what is seen.
ghost use Rattle.std.specs.Prelude.{ℕ, List, Option};
ghost use Rattle.kp_book.specs.Books.{Opening, Seen, SeenGrows};
ghost use Rattle.kp_registry.specs.Legal.{IsLegal};
ghost use Rattle.kp_conn.specs.Conversations.{Answered, Begun, IsBroken, IsServed};
ghost use Rattle.kp_conn.specs.declared.served.Served.{Served};
ghost use Rattle.kp_additions.specs.Served.{nothing_seen};
ghost use Rattle.kp_service.specs.Alone.{AreAllOwn, IsAnswerAlone, IsBegunAlone};
ghost use Rattle.kp_service.specs.Answers.{IsAnswer, IsBegun};

/// What is seen behind an answered frame, or one that was only begun, begins with what was seen before: the book, and the
/// positions of the pass's own entries.
pub fn an_answer_grows_what_is_seen()
    ensures answered { (o : Opening) (before after : Seen) (bytes : List ℕ) (reply : Option (List ℕ)) → IsAnswer o before bytes reply after → SeenGrows before after }
    ensures begun { (o : Opening) (before after : Seen) (bytes : List ℕ) → IsBegun o before bytes after → SeenGrows before after }
{}

/// So does what is seen behind frames that are answered one after another, behind those of a connection that breaks off
/// among them, and behind a whole connection however it ends.
pub fn a_connection_grows_what_is_seen()
    ensures frames { (o : Opening) (before after : Seen) (frames : List (List ℕ)) (lines : List ℕ) → Answered (IsAnswer o) before frames lines after → SeenGrows before after }
    ensures begun { (o : Opening) (before after : Seen) (frames : List (List ℕ)) → Begun (IsBegun o) before frames after → SeenGrows before after }
    ensures connection { (o : Opening) (before after : Seen) (left left_after held held_after : Option (List ℕ)) (end : Served) → IsServed (IsAnswer o) (IsBegun o) before left left_after held held_after after end → SeenGrows before after }
{}

/// A book with which a legal book begins is legal: so where the last book that was seen is legal, each one before it is.
pub fn what_was_seen_was_legal()
    ensures { (o : Opening) (before after : Seen) → SeenGrows before after → IsLegal o after.book → IsLegal o before.book }
{}

/// Where a connection began at an empty book and all entries that were seen in the end are its own, each call was answered
/// at exactly the book that the calls before it made; so it is where the connection broke off.
pub fn a_connection_alone_is_answered_at_its_own_book()
    ensures connection { (o : Opening) (after : Seen) (left left_after held held_after : Option (List ℕ)) (end : Served) → AreAllOwn after → IsServed (IsAnswer o) (IsBegun o) nothing_seen left left_after held held_after after end → IsServed (IsAnswerAlone o) (IsBegunAlone o) nothing_seen left left_after held held_after after end }
    ensures broken { (o : Opening) (after : Seen) (left left_after held held_after : Option (List ℕ)) → AreAllOwn after → IsBroken (IsAnswer o) (IsBegun o) nothing_seen left left_after held held_after after → IsBroken (IsAnswerAlone o) (IsBegunAlone o) nothing_seen left left_after held held_after after }
{}
