// Replies that are right over the example, and such that aren't.
ghost use Rattle.std.specs.Prelude.{[], ◌∷◌, List};
ghost use Rattle.kp_kore.specs.Executions.{IsRightExecuted, vacuous, stuck, depth_bound, branching};
ghost use Rattle.kp_kore.specs.Cases.{AreNextStates};
ghost use Rattle.kp_toys.specs.ToysTheory.{toys, done, vg, vh_of, y};
ghost use Rattle.kp_toys.specs.ToysClaims.{x, vf_of, fresh};
ghost use Rattle.kp_toys.specs.SmallTheories.{keeping, lone, at_once_by_two};
ghost use Rattle.kp_toys.specs.ToysReplies.{to_bound, at_once, count_x, counted_down, stopped, below_zero, exchanged_down, exchanged_stop, whenever, whatever_follows, first_half, second_half, count_of_none, done_for_nobody, pick_p, picked, not_picked, back_to, another, kept_as, stop_before, stop_behind, stop_around, count_two_pattern, before_stop, behind_stop, stuck_behind_stop, to_done_of_lone, to_goal_of_lone, impossible, vacuous_later, odd_one, aborted_by_odd, aborted_by_stop};

/// count(X) has three next states: by dec where X > 0, by stop where X = 0, and itself where neither is so.
#[tactic(auto, using(crate::proofs::CountReplies::three_next_states))]
pub fn count_x_has_three_next_states()
    ensures { IsRightExecuted toys (to_bound 1) count_x (at_once (branching (counted_down ∷ stopped ∷ below_zero ∷ [])) count_x) }
{}

/// They aren't right without the remainder, with two rules exchanged, with a predicate that is always true, with a state
/// without its condition, with one next state in two parts that overlap, or with a next state in no case.
#[tactic(auto, using(crate::proofs::CountReplies::no_remainder, crate::proofs::CountReplies::exchanged, crate::proofs::CountReplies::always_true, crate::proofs::CountReplies::unconditional, crate::proofs::CountReplies::overlapping, crate::proofs::CountReplies::impossible_case))]
pub fn other_next_states_of_count_x_are_wrong()
    ensures no_remainder { ¬ IsRightExecuted toys (to_bound 1) count_x (at_once (branching (counted_down ∷ stopped ∷ [])) count_x) }
    ensures exchanged { ¬ IsRightExecuted toys (to_bound 1) count_x (at_once (branching (exchanged_down ∷ exchanged_stop ∷ below_zero ∷ [])) count_x) }
    ensures always_true { ¬ IsRightExecuted toys (to_bound 1) count_x (at_once (branching (whenever ∷ stopped ∷ below_zero ∷ [])) count_x) }
    ensures unconditional { ¬ IsRightExecuted toys (to_bound 1) count_x (at_once (branching (whatever_follows ∷ stopped ∷ below_zero ∷ [])) count_x) }
    ensures overlapping { ¬ IsRightExecuted toys (to_bound 1) count_x (at_once (branching (first_half ∷ second_half ∷ stopped ∷ below_zero ∷ [])) count_x) }
    ensures impossible { ¬ IsRightExecuted toys (to_bound 1) count_x (at_once (branching (counted_down ∷ stopped ∷ below_zero ∷ impossible ∷ [])) count_x) }
{}

/// count(X) where X > 0 and X < 1 is vacuous, at once and no later, and not stuck.
pub fn a_state_without_instances_is_vacuous()
    ensures vacuous { IsRightExecuted toys (to_bound 10000) count_of_none (at_once vacuous count_of_none) }
    ensures not_stuck { ¬ IsRightExecuted toys (to_bound 10000) count_of_none (at_once stuck count_of_none) }
    ensures not_later { ¬ IsRightExecuted toys (to_bound 10000) count_of_none vacuous_later }
{}

/// A request with a variable of a sort without values is vacuous, and not stuck, whatever state the reply has.
#[tactic(auto, using(crate::proofs::CountReplies::vacuous_for_nobody, crate::proofs::CountReplies::not_stuck_for_nobody))]
pub fn a_variable_without_values_makes_a_request_vacuous()
    ensures vacuous { IsRightExecuted toys (to_bound 10000) done_for_nobody (at_once vacuous done_for_nobody) }
    ensures not_stuck { ¬ IsRightExecuted toys (to_bound 10000) done_for_nobody (at_once stuck done) }
{}

/// pick(P) is done where P is pa, and stays where it isn't.
#[tactic(auto, using(crate::proofs::Picking::two_next_states))]
pub fn pick_p_has_two_next_states()
    ensures { IsRightExecuted toys (to_bound 10000) pick_p (at_once (branching (picked ∷ not_picked ∷ [])) pick_p) }
{}

/// vg steps to vh of a new variable, which is named Fresh and a number.
#[tactic(auto, using(crate::proofs::Renaming::new_variable, crate::proofs::Renaming::other_name))]
pub fn a_new_variable_is_named_fresh()
    ensures fresh { IsRightExecuted toys (to_bound 1) vg (record { depth = 1; reason = depth_bound; state = vh_of fresh }) }
    ensures other_name { ¬ IsRightExecuted toys (to_bound 1) vg (record { depth = 1; reason = depth_bound; state = vh_of y }) }
{}

/// A next state's new variable has no name that stands in the request, also where the state has lost it.
#[tactic(auto, using(crate::proofs::Renaming::new_to_the_request, crate::proofs::Renaming::name_of_the_request))]
pub fn names_of_the_request_are_not_new()
    ensures right { AreNextStates toys (vf_of fresh) vg (back_to another ∷ []) }
    ensures wrong { ¬ AreNextStates toys (vf_of fresh) vg (back_to fresh ∷ []) }
{}

/// Where a rule keeps a number, the next state has the same variable and no new one: for each valuation it has exactly
/// the successors, and not only together.
#[tactic(auto, using(crate::proofs::Renaming::kept_and_not_new))]
pub fn next_states_go_with_the_valuation()
    ensures { ¬ AreNextStates keeping (vf_of x) (vf_of x) (kept_as fresh ∷ []) }
{}

/// count(2) stops before stop at count(0), and behind it at done.
#[tactic(auto, using(crate::proofs::Stopping::cut_point_reply, crate::proofs::Stopping::terminal_reply))]
pub fn a_run_stops_before_and_behind_a_rule()
    ensures before { IsRightExecuted toys stop_before count_two_pattern before_stop }
    ensures behind { IsRightExecuted toys stop_behind count_two_pattern behind_stop }
{}

/// It stops before a rule that is in both lists, and doesn't go past a rule of either.
#[tactic(auto, using(crate::proofs::Stopping::cut_point_goes_first, crate::proofs::Stopping::listed_rule_is_not_passed))]
pub fn a_run_goes_past_no_listed_rule()
    ensures in_both { ¬ IsRightExecuted toys stop_around count_two_pattern behind_stop }
    ensures passed { ¬ IsRightExecuted toys stop_behind count_two_pattern stuck_behind_stop }
{}

/// Two rules of one priority have their turns at once: two cases, each with its next state.
#[tactic(auto, using(crate::proofs::Stopping::two_at_once))]
pub fn cases_of_two_rules_overlap()
    ensures { IsRightExecuted at_once_by_two (to_bound 10000) lone (at_once (branching (to_done_of_lone ∷ to_goal_of_lone ∷ [])) lone) }
{}

/// odd(1), which a foreign rule might rewrite, is aborted by that rule and by no other, and isn't stuck.
#[tactic(auto, using(crate::proofs::CountReplies::aborted_odd, crate::proofs::CountReplies::not_by_stop, crate::proofs::CountReplies::odd_is_not_stuck))]
pub fn a_foreign_rule_aborts_a_run()
    ensures aborted { IsRightExecuted toys (to_bound 10000) odd_one aborted_by_odd }
    ensures by_another { ¬ IsRightExecuted toys (to_bound 10000) odd_one aborted_by_stop }
    ensures not_stuck { ¬ IsRightExecuted toys (to_bound 10000) odd_one (at_once stuck odd_one) }
{}

/// A run below its bound doesn't end for its bound.
#[tactic(auto, using(crate::proofs::CountReplies::below_the_bound))]
pub fn the_bound_is_reached_where_it_is_told()
    ensures { ¬ IsRightExecuted toys (to_bound 1) odd_one (at_once depth_bound odd_one) }
{}
