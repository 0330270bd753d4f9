// Results of implies and simplify that are right over the example, and such that aren't.
ghost use Rattle.std.specs.Prelude.{codes};
ghost use Rattle.kp_kore.specs.Syntax.{top, bottom};
ghost use Rattle.kp_kore.specs.Implied.{IsRightImplied, not_valid, valid, IsRightSimplified, state, nothing};
ghost use Rattle.kp_kore.specs.Sides.{IsSidesFault, unused_binder, other_terms, unclear_name};
ghost use Rattle.kp_toys.specs.Toys.{sort_s};
ghost use Rattle.kp_toys.specs.ToysTheory.{toys_signature, done, count_of, y};
ghost use Rattle.kp_toys.specs.SmallTheories.{goal_of_lone};
ghost use Rattle.kp_toys.specs.ToysReplies.{one_less, some_count, y_is_one_less, y_is_x, done_for_nobody, count_of_none, two_more_slowly, two_more, three_more, done_above_x};

/// count(X - 1) is count(Y) for some Y, namely X - 1, and not X.
pub fn a_count_is_some_count()
    ensures right { IsRightImplied toys_signature one_less some_count (valid (top sort_s) y_is_one_less) }
    ensures wrong { ¬ IsRightImplied toys_signature one_less some_count (valid (top sort_s) y_is_x) }
{}

/// done is no goal; what has no instance implies anything, and isn't refuted.
#[tactic(auto, using(crate::proofs::Implications::done_is_no_goal, crate::proofs::Implications::nobody_is_a_goal, crate::proofs::Implications::nobody_is_not_refuted))]
pub fn what_is_refuted_has_an_instance()
    ensures refuted { IsRightImplied toys_signature done goal_of_lone not_valid }
    ensures vacuous { IsRightImplied toys_signature done_for_nobody goal_of_lone (valid (bottom sort_s) (top sort_s)) }
    ensures not_refuted { ¬ IsRightImplied toys_signature done_for_nobody goal_of_lone not_valid }
{}

/// count(X + 3 - 1) is count(X + 2), and neither count(X + 3) nor nothing; count(X) where X > 0 and X < 1 is nothing, and no state.
#[tactic(auto, using(crate::proofs::Implications::sum_is_folded, crate::proofs::Implications::another_sum, crate::proofs::Implications::some_is_left, crate::proofs::Implications::none_is_left, crate::proofs::Implications::none_as_a_state))]
pub fn a_state_is_simplified()
    ensures folded { IsRightSimplified toys_signature two_more_slowly (state two_more) }
    ensures other { ¬ IsRightSimplified toys_signature two_more_slowly (state three_more) }
    ensures some { ¬ IsRightSimplified toys_signature two_more_slowly (nothing sort_s) }
    ensures none_as_a_state { ¬ IsRightSimplified toys_signature count_of_none (state count_of_none) }
    ensures none { IsRightSimplified toys_signature count_of_none (nothing sort_s) }
{}

/// The faults of two sides: a binder that stands in no term, a side without a term, a free name that is bound too.
pub fn sides_that_are_not_compared()
    ensures unused { IsSidesFault toys_signature done done_above_x (unused_binder (codes "Y")) }
    ensures no_term { IsSidesFault toys_signature (top sort_s) done other_terms }
    ensures unclear { IsSidesFault toys_signature (count_of y) some_count (unclear_name (codes "Y")) }
{}
