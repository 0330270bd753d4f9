// What stems from a state and a rule beside it, and what is shown.
ghost use Rattle.std.specs.Prelude.{◌≡◌, List, [], ◌∷◌, Some};
ghost use Rattle.kp_toys.specs.ToysTheory.{toys_signature, sq_rule};
ghost use Rattle.kp_kore.specs.Instance.{Valuation};
ghost use Rattle.kp_symbolic.specs.Terms.{unknown};
ghost use Rattle.kp_symbolic.specs.Sources.{rule_beside, IsMatch, IsSourced};
ghost use Rattle.kp_symbolic.specs.Weights.{bits};
ghost use Rattle.kp_symbolic.specs.Shown.{unknown_clauses, weight_passed, question_of, IsMetButRough};
ghost use Rattle.kp_symbolic.specs.Endings.{IsShownOfState};
ghost use Rattle.kp_examples.specs.Clauses.{x_name, alone};
ghost use Rattle.kp_examples.specs.Weights.{rule_name, squared_below, square_below, below_turned, sq_state, sq_beside, sq_put, sq_situation, square_predicate, done_where, wide_predicate, wide_shown};

/// The rule from sq(N) beside sq(X): its literal is sourced with X in the place of N, not with N itself, and not what means
/// the same.
pub fn a_rules_literal_is_sourced_under_the_match()
    ensures reads { rule_beside toys_signature 1 sq_rule.body ≡ Some sq_beside }
    ensures sourced { IsSourced toys_signature sq_state (sq_beside ∷ []) sq_put square_below }
    ensures not_as_it_stands { ¬ IsSourced toys_signature sq_state (sq_beside ∷ []) sq_put (squared_below (unknown rule_name)) }
    ensures not_by_meaning { ¬ IsSourced toys_signature sq_state (sq_beside ∷ []) sq_put below_turned }
    ensures asked { question_of toys_signature sq_situation sq_beside ≡ alone square_below }
{}

/// done with X * X < 0 is left undecided, and the predicate is shown; with X <= 2 ^ 126, and its weight is.
pub fn simplified_states_show_their_predicates()
    ensures square { IsShownOfState toys_signature (done_where square_predicate) (unknown_clauses square_predicate) }
    ensures wide { IsShownOfState toys_signature (done_where wide_predicate) (weight_passed wide_shown bits 128) }
    ensures not_less { ¬ IsShownOfState toys_signature (done_where wide_predicate) (weight_passed wide_shown bits 127) }
{}
