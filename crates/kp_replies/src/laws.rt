// Laws of replies with results: what is written is read back.
ghost use Rattle.std.specs.Prelude.{◌≡◌, ◌≤◌, ◌<◌, ◌^◌, Some, ℕ, ℤ, pos, true, List};
ghost use Rattle.serde_json.specs.Data.{Data, depth};
ghost use Rattle.serde_json.specs.Find.{as_i64};
ghost use Rattle.serde_json.specs.Read.{max_depth, read};
ghost use Rattle.serde_json.specs.Written.{compact_text};
ghost use Rattle.kp_kore.specs.Syntax.{Text, KorePattern};
ghost use Rattle.kp_rpc.specs.Request.{RequestId};
ghost use Rattle.kp_kore.specs.Implied.{Implied};
ghost use Rattle.kp_rpc.specs.Reply.{RequestError, error_parts, error_reply, result_reply, reply_bytes};
ghost use Rattle.kp_rpc.specs.Request.{IsReadId};
ghost use Rattle.kp_results.specs.Results.{StateParts, ExecutedParts, Undecided};
ghost use Rattle.kp_replies.specs.Aborted.{aborted_tree};
ghost use Rattle.kp_replies.specs.Written.{executed_tree, implied_tree, simplified_tree, added_tree};
ghost use Rattle.kp_replies.specs.Failures.{Failure, failure_code, failure_reply};
ghost use Rattle.kp_replies.specs.Read.{Method, execute, implies, simplify, add_module, executed, unfinished, implied, simplified, added, failed, ServerReply, is_module_id, read_reply};
ghost use Rattle.kp_replies.specs.Replies.{IsReplyOf, IsOfMethod, IsSpelled, IsSpelledState, IsSpelledImplied, StandWith, IsNamedEnding, IsWritable, unfinished_parts, FailureFits};

/// What is written of a result of execute is read as that result.
pub fn what_is_executed_is_read_back()
    ensures { (id : RequestId) (x : ExecutedParts) (tree : Data) → IsWritable x → executed_tree x ≡ Some tree
        → read_reply execute (result_reply id tree) ≡ Some (executed x) }
{}

/// What is written of a run that is aborted by what isn't decided is read as its depth, its state and the name of a limit,
/// where that alone is told.
pub fn what_is_aborted_is_read_back()
    ensures { (id : RequestId) (n : ℕ) (s : StateParts) (u : Undecided) (tree : Data) → IsSpelledState s.term s.predicate → aborted_tree n s u ≡ Some tree
        → read_reply execute (result_reply id tree) ≡ Some (unfinished (unfinished_parts n s u)) }
{}

/// What is written of a result of implies is read as that result.
pub fn what_is_implied_is_read_back()
    ensures { (id : RequestId) (x : Implied) (tree : Data) → IsSpelledImplied x → implied_tree x ≡ Some tree
        → read_reply implies (result_reply id tree) ≡ Some (implied x) }
{}

/// What is written of a result of simplify is read as that result.
pub fn what_is_simplified_is_read_back()
    ensures { (id : RequestId) (p : KorePattern) (tree : Data) → IsSpelled p → simplified_tree p ≡ Some tree
        → read_reply simplify (result_reply id tree) ≡ Some (simplified p) }
{}

/// What is written of a result of add-module is read as that result.
pub fn what_is_added_is_read_back()
    ensures { (id : RequestId) (name : Text) → is_module_id name ≡ true → read_reply add_module (result_reply id (added_tree name)) ≡ Some (added name) }
{}

/// What is written of a failure is read as its code, whatever was asked.
pub fn a_failure_is_read_back()
    ensures { (method : Method) (id : RequestId) (f : Failure) (tree : Data) → failure_reply id f ≡ Some tree
        → read_reply method tree ≡ Some (failed (pos (failure_code f))) }
{}

/// What is written of an error that is found in reading a request is read as its code, whatever was asked.
pub fn an_error_is_read_back()
    ensures { (method : Method) (id : RequestId) (e : RequestError) (code : ℤ) → as_i64 (error_parts e).code ≡ Some code
        → read_reply method (error_reply id e) ≡ Some (failed code) }
{}

// ---- what is told

/// A reply to a method tells a result of that method, or an error's code.
pub fn a_reply_is_of_its_method()
    ensures { (method : Method) (line : List ℕ) (r : ServerReply) → IsReplyOf method line r → IsOfMethod method r }
{}

/// A rule's id that is read of a line is of one or more visible characters.
pub fn a_rules_id_that_is_read_is_visible()
    ensures { (line : List ℕ) (x : ExecutedParts) → IsReplyOf execute line (executed x) → IsNamedEnding x.ending }
{}

/// The next states that are read of a line stand with its reason.
pub fn next_states_that_are_read_stand_with_their_reason()
    ensures { (line : List ℕ) (x : ExecutedParts) → IsReplyOf execute line (executed x) → StandWith x.ending x.nexts }
{}

/// The state that is read of a line is spelled by trees.
pub fn a_read_state_is_spelled()
    ensures { (line : List ℕ) (x : ExecutedParts) → IsReplyOf execute line (executed x) → IsSpelledState x.state.term x.state.predicate }
{}

/// Where the text of a tree is read as that tree, its line tells nothing but what the tree tells.
pub fn a_line_tells_what_its_tree_tells()
    ensures { (method : Method) (d : Data) (r : ServerReply) → read (compact_text d) ≡ Some d → IsReplyOf method (reply_bytes d) r → read_reply method d ≡ Some r }
{}

/// The text that is written of a reply with a result of execute is read as that reply, where it nests no deeper than a
/// frame may.
pub fn what_is_executed_is_read()
    ensures { (id : RequestId) (x : ExecutedParts) (tree : Data) → IsReadId id → x.depth < 2 ^ 64 → executed_tree x ≡ Some tree
        → depth (result_reply id tree) ≤ max_depth → read (compact_text (result_reply id tree)) ≡ Some (result_reply id tree) }
{}

/// The text that is written of a reply with a result of implies is read as that reply, where it nests no deeper than a
/// frame may.
pub fn what_is_implied_is_read()
    ensures { (id : RequestId) (x : Implied) (tree : Data) → IsReadId id → implied_tree x ≡ Some tree
        → depth (result_reply id tree) ≤ max_depth → read (compact_text (result_reply id tree)) ≡ Some (result_reply id tree) }
{}

/// The line that is written of a result of execute tells that result and nothing else, however deep it nests; asked of implies, it
/// tells nothing.
pub fn a_runs_line_tells_the_run()
    ensures alone { (id : RequestId) (x : ExecutedParts) (tree : Data) (r : ServerReply) → IsReadId id → x.depth < 2 ^ 64 → StandWith x.ending x.nexts
        → executed_tree x ≡ Some tree → IsReplyOf execute (reply_bytes (result_reply id tree)) r → r ≡ executed x }
    ensures nothing { (id : RequestId) (x : ExecutedParts) (tree : Data) (r : ServerReply) → IsReadId id → x.depth < 2 ^ 64
        → executed_tree x ≡ Some tree → ¬ IsReplyOf implies (reply_bytes (result_reply id tree)) r }
{}

/// The line that is written of a run that is aborted by what isn't decided tells its depth, its state and the name of a
/// limit, where that alone is told, and nothing else, however deep it nests and whatever numbers stand in it; asked of
/// implies, it tells nothing.
pub fn an_aborted_runs_line_tells_the_run()
    ensures alone { (id : RequestId) (n : ℕ) (s : StateParts) (u : Undecided) (tree : Data) (r : ServerReply) → IsReadId id → n < 2 ^ 64
        → aborted_tree n s u ≡ Some tree → IsReplyOf execute (reply_bytes (result_reply id tree)) r → r ≡ unfinished (unfinished_parts n s u) }
    ensures nothing { (id : RequestId) (n : ℕ) (s : StateParts) (u : Undecided) (tree : Data) (r : ServerReply) → IsReadId id → n < 2 ^ 64
        → aborted_tree n s u ≡ Some tree → ¬ IsReplyOf implies (reply_bytes (result_reply id tree)) r }
{}

/// The line that is written of a result of implies tells that result and nothing else, however deep it nests; asked of execute, it
/// tells nothing.
pub fn an_implications_line_tells_the_implication()
    ensures alone { (id : RequestId) (x : Implied) (tree : Data) (r : ServerReply) → IsReadId id → implied_tree x ≡ Some tree
        → IsReplyOf implies (reply_bytes (result_reply id tree)) r → r ≡ implied x }
    ensures nothing { (id : RequestId) (x : Implied) (tree : Data) (r : ServerReply) → IsReadId id → implied_tree x ≡ Some tree
        → ¬ IsReplyOf execute (reply_bytes (result_reply id tree)) r }
{}

/// The line that is written of a simplified state tells that state and nothing else, however deep it nests.
pub fn a_simplified_states_line_tells_the_state()
    ensures { (id : RequestId) (p : KorePattern) (tree : Data) (r : ServerReply) → IsReadId id
        → simplified_tree p ≡ Some tree → IsReplyOf simplify (reply_bytes (result_reply id tree)) r → r ≡ simplified p }
{}

/// The line that is written of an added module tells its id and nothing else.
pub fn an_added_modules_line_tells_its_id()
    ensures { (id : RequestId) (name : Text) (r : ServerReply) → IsReadId id → is_module_id name ≡ true
        → IsReplyOf add_module (reply_bytes (result_reply id (added_tree name))) r → r ≡ added name }
{}

/// The line that is written of a failure tells its code and nothing else, whatever was asked.
pub fn a_failures_line_tells_its_code()
    ensures { (method : Method) (id : RequestId) (f : Failure) (tree : Data) (r : ServerReply) → IsReadId id → FailureFits f
        → failure_reply id f ≡ Some tree → IsReplyOf method (reply_bytes tree) r → r ≡ failed (pos (failure_code f)) }
{}

/// The line that is written of an error tells its code and nothing else, whatever was asked.
pub fn an_errors_line_tells_its_code()
    ensures { (method : Method) (id : RequestId) (e : RequestError) (r : ServerReply) → IsReadId id
        → IsReplyOf method (reply_bytes (error_reply id e)) r → (code : ℤ) × (as_i64 (error_parts e).code ≡ Some code) × (r ≡ failed code) }
{}
