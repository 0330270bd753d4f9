// Whole states over the example definition, as they are read and written.
ghost use Rattle.std.specs.Prelude.{◌≡◌, true, codes, List, [], ◌∷◌};
ghost use Rattle.kp_toys.specs.Toys.{sort_s};
ghost use Rattle.kp_toys.specs.ToysTheory.{toys_signature, count_of};
ghost use Rattle.kp_symbolic.specs.Solving.{IsReadAs};
ghost use Rattle.kp_symbolic.specs.Writing.{written_state};
ghost use Rattle.kp_symbolic.specs.Plain.{rough_clauses, plain_clauses};
ghost use Rattle.kp_examples.specs.Clauses.{is_above, alone};
ghost use Rattle.kp_examples.specs.Weights.{square_below, x_to};
ghost use Rattle.kp_symbolic.specs.States.{SymbolicState};
ghost use Rattle.kp_examples.specs.States.{remainder, remainder_state, never_pattern, never_state, later, later_state, picked, picked_state, picked_written, not_picked, not_picked_state, numbered, numbered_state, numbered_written, folded_sum, folded_sum_state, folded_sum_written, undecided_done, undecided_done_state};

/// count(X) where X isn't 0 and isn't above 0; and where it is above 0 and below 1.
pub fn counters_are_read()
    ensures remainder { IsReadAs toys_signature remainder remainder_state }
    ensures remainder_written { written_state toys_signature remainder_state ≡ remainder }
    ensures never { IsReadAs toys_signature never_pattern never_state }
    ensures never_plain { rough_clauses toys_signature never_state ≡ [] }
    ensures later { IsReadAs toys_signature later later_state }
{}

/// pick(P) with P = pa is pick(pa) with that equation; with its opposite it stays.
pub fn a_constructor_is_put_in()
    ensures read { IsReadAs toys_signature picked picked_state }
    ensures written { written_state toys_signature picked_state ≡ picked_written }
    ensures other { IsReadAs toys_signature not_picked not_picked_state }
    ensures other_written { written_state toys_signature not_picked_state ≡ not_picked }
{}

/// num(Q) with Q = inj(Fresh1) is num(inj(Fresh1)), written with inj again.
pub fn a_number_is_put_in()
    ensures read { IsReadAs toys_signature numbered numbered_state }
    ensures written { written_state toys_signature numbered_state ≡ numbered_written }
{}

/// count(X + 3 - 1) is count(X + 2); done with X * X < 0 beside two bounds: two clauses are plain.
pub fn states_are_simplified()
    ensures read { IsReadAs toys_signature folded_sum folded_sum_state }
    ensures written { written_state toys_signature folded_sum_state ≡ folded_sum_written }
    ensures done { IsReadAs toys_signature undecided_done undecided_done_state }
    ensures rough { rough_clauses toys_signature undecided_done_state ≡ alone square_below }
    ensures plain { plain_clauses toys_signature undecided_done_state ≡ (is_above true 0 ∷ []) ∷ (x_to true (codes "Lbllt") 1 ∷ []) ∷ [] }
{}
