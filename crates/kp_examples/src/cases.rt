// Examples over the example definition, and what isn't a division.
ghost use Rattle.std.specs.Prelude.{◌≡◌, List, [], ◌∷◌, Some, codes, false, true};
ghost use Rattle.kp_toys.specs.Toys.{sort_int};
ghost use Rattle.kp_toys.specs.ToysTheory.{toys_signature};
ghost use Rattle.kp_symbolic.specs.Terms.{unknown, known};
ghost use Rattle.kp_symbolic.specs.States.{head_of_sort, has_head};
ghost use Rattle.kp_examples.specs.Clauses.{x_name, p_name, q_name, one_term, two_terms, alone};
ghost use Rattle.kp_rules.specs.Skeletons.{one_of, no_forms, next_form};
ghost use Rattle.kp_case_laws.specs.Parts.{IsDivided};
ghost use Rattle.kp_case_laws.specs.Narrowings.{are_never, constructor_term, has_other_head, head_clauses, heads_outside};
ghost use Rattle.kp_case_laws.specs.Courses.{equality_clauses, paired, put_in};
ghost use Rattle.kp_examples.specs.Cases.{picks, pa, pb, p_is, picks_where, pa_pb, s_name, counter_and_any, pairs_of_s, counter_of_x, s_counts};

/// pick(P) is divided into P = pa and P not pa. It isn't divided into pa and pb, where pc is left out, nor into pa and all of it.
pub fn a_state_is_divided_by_a_constructor()
    ensures divided { IsDivided toys_signature picks (picks_where true pa ∷ picks_where false pa ∷ []) }
    ensures left_out { ¬ IsDivided toys_signature picks (picks_where true pa ∷ picks_where true pb ∷ []) }
    ensures kept { ¬ IsDivided toys_signature picks (picks_where true pa ∷ picks ∷ []) }
{}

/// P by pa: another value. Q by a number: another head. Of the heads of SortE, SortInt has the numbers' alone.
pub fn variables_of_the_example_are_narrowed()
    ensures constructor { constructor_term toys_signature (codes "Lblpa") [] ≡ known pa }
    ensures others { has_other_head toys_signature p_name (codes "Lblpa") [] ≡ p_is false pa }
    ensures counter { constructor_term toys_signature (codes "Lblcount") (x_name ∷ []) ≡ counter_of_x }
    ensures number { head_clauses toys_signature false q_name (head_of_sort sort_int) ≡ alone (record { holds = false; atom = has_head q_name (head_of_sort sort_int) }) }
    ensures outside { heads_outside toys_signature q_name sort_int ≡ alone (record { holds = false; atom = has_head q_name (head_of_sort sort_int) }) }
{}

/// A variable twice against pa and pb asks what is never true. count(N) and M against S and S: where S is count(X), N stands for X
/// and M for count(X).
pub fn variables_that_stand_twice()
    ensures never { are_never (equality_clauses toys_signature pa_pb) ≡ true }
    ensures pairs { paired counter_and_any (two_terms (unknown s_name) (unknown s_name)) ≡ Some pairs_of_s }
    ensures put { put_in toys_signature s_counts (unknown s_name) ≡ counter_of_x }
    ensures members { paired (next_form (one_of (codes "N") sort_int) no_forms) (one_term (unknown x_name)) ≡ Some (record { form = one_of (codes "N") sort_int; term = unknown x_name } ∷ []) }
{}
