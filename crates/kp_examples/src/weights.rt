// What is plain in states over the example definition, and how much it weighs.
ghost use Rattle.std.specs.Prelude.{◌≡◌, ◌+◌, pos, negsuc, true, false, codes, List, [], ◌∷◌, Some, None};
ghost use Rattle.kp_kore.specs.Hooks.{equal, different, less, at_most, greater, at_least};
ghost use Rattle.kp_toys.specs.ToysTheory.{toys_signature};
ghost use Rattle.kp_toys.specs.Toys.{sort_p, sort_int};
ghost use Rattle.kp_symbolic.specs.Terms.{unknown};
ghost use Rattle.kp_symbolic.specs.States.{one_head, head_of_sort};
ghost use Rattle.kp_examples.specs.Clauses.{x_name, p_name, q_name, alone, is_above, number_test};
ghost use Rattle.kp_symbolic.specs.Plain.{compares, asks, gives, plain_clauses, rough_clauses, IsPlainState};
ghost use Rattle.kp_symbolic.specs.Weights.{bits, literals, product, IsWeight, IsOver};
ghost use Rattle.kp_examples.specs.Weights.{state_of, count_with, forms_of, read, number, of_x, of_y, x_to, is_zero, square_below, pa_literal, fresh_one, q_fresh, y_over_x, wide_bound};

/// X > 0, X = 0, and neither: comparisons; that X isn't 0 counts as two literals.
pub fn a_counter_is_plain()
    ensures above { forms_of (count_with (alone (is_above true 0))) ≡ (Some (compares greater (of_x (pos 0)) (number (pos 0))) ∷ []) ∷ [] }
    ensures zero { forms_of (count_with (alone (is_zero true))) ≡ (Some (compares equal (of_x (pos 0)) (number (pos 0))) ∷ []) ∷ [] }
    ensures neither { let x_side = of_x (pos 0) in let zero_side = number (pos 0) in forms_of (count_with ((is_zero false ∷ []) ∷ (is_above false 0 ∷ []) ∷ [])) ≡
        (Some (compares different x_side zero_side) ∷ []) ∷ (Some (compares at_most x_side zero_side) ∷ []) ∷ [] }
    ensures many { IsWeight literals (read (count_with ((is_zero false ∷ []) ∷ (is_above false 0 ∷ []) ∷ []))) 3 }
    ensures choices { IsWeight product (read (count_with ((is_zero false ∷ []) ∷ (is_above false 0 ∷ []) ∷ []))) 2 }
    ensures size { IsWeight bits (read (count_with ((is_zero false ∷ []) ∷ (is_above false 0 ∷ []) ∷ []))) 2 }
{}

/// X > 0 with X < 1, and with X >= 5.
pub fn bounds_are_plain()
    ensures never { let x_side = of_x (pos 0) in forms_of (count_with ((is_above true 0 ∷ []) ∷ (x_to true (codes "Lbllt") 1 ∷ []) ∷ [])) ≡
        (Some (compares greater x_side (number (pos 0))) ∷ []) ∷ (Some (compares less x_side (number (pos 1))) ∷ []) ∷ [] }
    ensures size { IsWeight bits (read (count_with ((is_above true 0 ∷ []) ∷ (x_to true (codes "Lbllt") 1 ∷ []) ∷ []))) 2 }
    ensures five { IsWeight bits (read (count_with ((is_above true 0 ∷ []) ∷ (x_to true (codes "Lblge") 5 ∷ []) ∷ []))) 4 }
    ensures one_choice { IsWeight product (read (count_with ((is_above true 0 ∷ []) ∷ (x_to true (codes "Lblge") 5 ∷ []) ∷ []))) 1 }
{}

/// P = pa asks for a head, and so does its opposite, also beside the variable; Q = Fresh1 is solved, also beside Q, but not where
/// another clause asks of Q; in a clause of several no head is asked for.
pub fn heads_are_plain_in_their_own_clause()
    ensures solved { IsPlainState toys_signature (state_of (codes "Lblcount") (unknown x_name) (alone (pa_literal true))) }
    ensures constant { let state = state_of (codes "Lblpick") (unknown p_name) (alone (pa_literal true)) in forms_of state ≡ (Some (asks p_name (one_head (codes "Lblpa")) true) ∷ []) ∷ [] }
    ensures beside { IsPlainState toys_signature (state_of (codes "Lblnum") (unknown q_name) (alone q_fresh)) }
    ensures not_solved { let two = (q_fresh ∷ []) ∷ (number_test false ∷ []) ∷ [] in rough_clauses toys_signature (count_with two) ≡ alone q_fresh }
    ensures other { let state = state_of (codes "Lblpick") (unknown p_name) (alone (pa_literal false)) in forms_of state ≡ (Some (asks p_name (one_head (codes "Lblpa")) false) ∷ []) ∷ [] }
    ensures number { let state = state_of (codes "Lblcount") (unknown x_name) (alone q_fresh) in forms_of state ≡ (Some (gives (record { variable = q_name; term = unknown fresh_one })) ∷ []) ∷ [] }
    ensures no_number { let state = state_of (codes "Lblnum") (unknown q_name) (alone (number_test false)) in forms_of state ≡ (Some (asks q_name (head_of_sort sort_int) false) ∷ []) ∷ [] }
    ensures one_of_two { let the_number_test = number_test false ∷ is_above true 0 ∷ [] in rough_clauses toys_signature (count_with (the_number_test ∷ [])) ≡ the_number_test ∷ [] }
{}

/// X * X < 0 isn't plain; beside it the plain clauses are the others. Y > X is.
pub fn squares_are_not_plain()
    ensures square { forms_of (count_with (alone square_below)) ≡ (None ∷ []) ∷ [] }
    ensures plain { plain_clauses toys_signature (count_with ((square_below ∷ []) ∷ (is_above true 0 ∷ []) ∷ [])) ≡ alone (is_above true 0) }
    ensures rough { rough_clauses toys_signature (count_with ((square_below ∷ []) ∷ (is_above true 0 ∷ []) ∷ [])) ≡ alone square_below }
    ensures two { forms_of (count_with (alone y_over_x)) ≡ (Some (compares greater (of_y (pos 0)) (of_x (pos 0))) ∷ []) ∷ [] }
    ensures two_weigh { IsWeight bits (read (count_with (alone y_over_x))) 3 }
{}

/// X <= 2 ^ 126 weighs 128 bits: 127 of the constant, and one variable.
pub fn a_wide_bound_is_too_heavy()
    ensures plain { let the_pos = pos 85070591730234615865843651857942052864 in forms_of (count_with (alone wide_bound)) ≡ (Some (compares at_most (of_x (pos 0)) (number the_pos)) ∷ []) ∷ [] }
    ensures over { IsOver bits (read (count_with (alone wide_bound))) 128 }
{}
