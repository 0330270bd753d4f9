// Claims over the example, and one reply that is right.
ghost use Rattle.std.specs.Prelude.{[], codes};
ghost use Rattle.kp_kore.specs.Claims.{Holds};
ghost use Rattle.kp_kore.specs.Replies.{After};
ghost use Rattle.kp_kore.specs.Executions.{IsRightExecuted, stuck, depth_bound};
ghost use Rattle.kp_toys.specs.Toys.{integer};
ghost use Rattle.kp_toys.specs.ToysTheory.{toys, count_of, done, vh_of};
ghost use Rattle.kp_toys.specs.ToysClaims.{back_to_start, back_somewhere, x, vf_of, fresh};
ghost use Rattle.kp_toys.specs.ToysReplies.{to_bound};
ghost use Rattle.kp_toys.specs.SmallTheories.{keeping};

/// vf(X) to vh(Y) holds for some Y; vf(X) to vh(X) doesn't, since the X of the end is that of the start.
pub fn claims_keep_the_variables_of_the_left()
    ensures somewhere { Holds toys back_somewhere }
    ensures start { ¬ Holds toys back_to_start }
{}

/// The reply to execute of count(2) is done, stuck at depth 3; at the bound 0 it is count(2) itself.
pub fn the_reply_to_count_two_is_right()
    ensures stuck { IsRightExecuted toys (to_bound 10000) (count_of (integer (codes "2"))) (record { depth = 3; reason = stuck; state = done }) }
    ensures bound { let the_integer = integer (codes "2") in IsRightExecuted toys (to_bound 0) (count_of the_integer) (record { depth = 0; reason = depth_bound; state = count_of the_integer }) }
{}

/// A step that keeps its number is after the start with the same variable, and not with a new one: both states have
/// the same instances, but not under the same valuations.
#[tactic(auto, using(crate::proofs::Keeping::keeps_the_variable, crate::proofs::Keeping::not_a_new_variable))]
pub fn what_is_after_keeps_the_valuation()
    ensures same { After keeping [] (vf_of x) (vh_of x) 1 }
    ensures not_new { ¬ After keeping [] (vf_of x) (vh_of fresh) 1 }
{}
