// Examples of requests and of replies with an error.
ghost use Rattle.std.specs.Prelude.{◌≡◌, ◌∷◌, ◌++◌, [], List, codes};
ghost use Rattle.serde_json.specs.Written.{compact_text};
ghost use Rattle.kp_rpc.specs.Request.{IsExecute, bound_of, id_null, id_text};
ghost use Rattle.kp_rpc.specs.Reply.{error_reply, parse_error, no_module, reply_bytes};
ghost use Rattle.kp_examples.specs.Requests.{request_members, count_two_request, parse_error_text, module_error_text, no_options};

/// The request to execute count(2), as a tree, is that request; its bound is 10,000.
pub fn the_request_is_read()
    ensures spelled { IsExecute request_members count_two_request }
    ensures bound { bound_of no_options ≡ 10000 }
{}

/// Error replies have these bytes.
pub fn error_replies_are_written()
    ensures parse_error { reply_bytes (error_reply id_null parse_error) ≡ parse_error_text ++ 10 ∷ [] }
    ensures no_module { reply_bytes (error_reply (id_text (codes "a")) (no_module (codes "NOPE"))) ≡ module_error_text ++ 10 ∷ [] }
{}
