// Examples of replies with a result.
ghost use Rattle.std.specs.Prelude.{◌≡◌, ◌∷◌, ◌++◌, [], Some};
ghost use Rattle.std.specs.Option.{option_map};
ghost use Rattle.serde_json.specs.Data.{unsigned};
ghost use Rattle.kp_rpc.specs.Request.{id_number};
ghost use Rattle.kp_rpc.specs.Reply.{result_reply, reply_bytes};
ghost use Rattle.kp_replies.specs.Written.{executed_tree};
ghost use Rattle.kp_replies.specs.Aborted.{aborted_tree};
ghost use Rattle.kp_examples.specs.Replies.{done_result, done_reply_text, odd_result, odd_reply_text, up_last, up_fault, up_reply_text};

/// The reply done, stuck at depth 3, has these bytes.
pub fn the_reply_is_written()
    ensures { option_map (λ r. reply_bytes (result_reply (id_number (unsigned 1)) r)) (executed_tree done_result) ≡ Some (done_reply_text ++ 10 ∷ []) }
{}

/// The reply odd(1), aborted at depth 0 because of the foreign rule, has these bytes.
pub fn the_aborted_reply_is_written()
    ensures { option_map (λ r. reply_bytes (result_reply (id_number (unsigned 1)) r)) (executed_tree odd_result) ≡ Some (odd_reply_text ++ 10 ∷ []) }
{}

/// The reply up(2^127 - 1), aborted at depth 0 because the next number leaves signed 128 bits, has these bytes.
pub fn the_undecided_reply_is_written()
    ensures { option_map (λ r. reply_bytes (result_reply (id_number (unsigned 1)) r)) (aborted_tree 0 up_last up_fault) ≡ Some (up_reply_text ++ 10 ∷ []) }
{}
