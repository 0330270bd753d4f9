// A run and implications over the example definition that are left undecided, and what is shown of them.
ghost use Rattle.std.specs.Prelude.{◌≡◌, negsuc, true, List, [], ◌∷◌, codes};
ghost use Rattle.kp_toys.specs.Toys.{sort_s};
ghost use Rattle.kp_kore.specs.Syntax.{equals};
ghost use Rattle.kp_toys.specs.ToysTheory.{toys, toys_signature};
ghost use Rattle.kp_symbolic.specs.Terms.{unknown, offset};
ghost use Rattle.kp_symbolic.specs.Weights.{product};
ghost use Rattle.kp_symbolic.specs.Writing.{written_clause};
ghost use Rattle.kp_symbolic.specs.Shown.{unknown_clauses, weight_passed, question_of};
ghost use Rattle.kp_symbolic.specs.Endings.{IsShownOfRun, IsRightEnded, IsShownOfImplication, IsEasyImplication};
ghost use Rattle.kp_examples.specs.Clauses.{x_name, y_name, above, x, y, less_one, equality};
ghost use Rattle.kp_examples.specs.Weights.{square_predicate};
ghost use Rattle.kp_toys.specs.Toys.{sort_int};
ghost use Rattle.kp_examples.specs.Causes.{sq_x, ten_thousand, undecided_at_once, some_counter, some_odd_counter, counter_of_x, counter_less_one, counter_beside, less_situation, square_not_below};

/// sq(X) may not be decided: the reply that shows X * X < 0 at once is right. X > 0 isn't shown, nor a weight that isn't passed.
pub fn a_run_shows_what_its_rule_asks()
    ensures shown { IsShownOfRun toys sq_x sq_x (unknown_clauses square_predicate) }
    ensures reply { IsRightEnded toys ten_thousand sq_x (undecided_at_once (unknown_clauses square_predicate)) }
    ensures not_plain { ¬ IsShownOfRun toys sq_x sq_x (unknown_clauses (above x (codes "0"))) }
    ensures not_opposed { ¬ IsRightEnded toys ten_thousand sq_x (undecided_at_once (weight_passed square_predicate product 1)) }
{}

/// That count(X - 1) is some count(Y) asks nothing: it must not be left undecided, and Y = X - 1 is written.
pub fn an_implication_of_counters_is_easy()
    ensures asks_nothing { question_of toys_signature less_situation (counter_beside []) ≡ [] }
    ensures easy { IsEasyImplication toys_signature counter_less_one some_counter }
    ensures written { let the_equality = equality true sort_int (unknown y_name) (offset x_name (negsuc 0)) ∷ [] in written_clause toys_signature sort_s the_equality ≡ equals sort_int sort_s y less_one }
{}

/// That count(X) is some count(Y) where Y * Y < 0 may not be decided: shown is that predicate of X, or its opposite.
pub fn an_implication_shows_what_its_consequent_asks()
    ensures opposite { IsShownOfImplication toys_signature counter_of_x some_odd_counter (unknown_clauses square_not_below) }
    ensures itself { IsShownOfImplication toys_signature counter_of_x some_odd_counter (unknown_clauses square_predicate) }
{}
