// What predicates and states over the example definition are read as, and what is written for them.
ghost use Rattle.std.specs.Prelude.{◌≡◌, pos, negsuc, true, false, codes, List, [], ◌∷◌, map};
ghost use Rattle.kp_kore.specs.Syntax.{negation};
ghost use Rattle.kp_kore.specs.Value.{whole, constructed, no_values};
ghost use Rattle.kp_toys.specs.Toys.{sort_int, sort_bool, sort_s, sort_p, call, integer};
ghost use Rattle.kp_toys.specs.ToysTheory.{toys_signature, count_of};
ghost use Rattle.kp_kore.specs.Syntax.{equals, equivalence, variable, forall, membership, disjunction, conjunction};
ghost use Rattle.kp_toys.specs.Toys.{patterns};
ghost use Rattle.kp_symbolic.specs.Terms.{unknown, offset, known, headed};
ghost use Rattle.kp_kore.specs.Value.{truth};
ghost use Rattle.kp_symbolic.specs.States.{same, quoted};
ghost use Rattle.kp_symbolic.specs.Solving.{IsReadAs, negated};
ghost use Rattle.kp_symbolic.specs.Folding.{folded};
ghost use Rattle.kp_symbolic.specs.Clauses.{clauses_of};
ghost use Rattle.kp_symbolic.specs.Writing.{written_term, written_clause, written_under};
ghost use Rattle.kp_examples.specs.Clauses.{x_name, y_name, p_name, x, y, test, above, one_term, comparison, alone, equality, three_less_one, less_one, square, square_term, is_pa, is_number, number_test, nested_iff, is_above, all_above, only_x, y_above, both_above, repeated, many_choices, same_count, solved_count, logical_signature, b_name, c_name, of_name, true_if, never, is_b, is_c, gt_zero, gt_zero_term};

/// X + 3 - 1 is X + 2, and is written so.
pub fn sums_are_folded()
    ensures folded { folded toys_signature [] three_less_one ≡ headed (codes "Lblcount") (one_term (offset x_name (pos 2))) }
    ensures written { written_term toys_signature sort_s (headed (codes "Lblcount") (one_term (offset x_name (pos 2)))) ≡ count_of (call (codes "Lbladd") (x ∷ integer (codes "2") ∷ [])) }
    ensures less { written_term toys_signature sort_int (offset x_name (negsuc 0)) ≡ less_one }
    ensures none { folded toys_signature [] (call (codes "Lblsub") (x ∷ integer (codes "0") ∷ [])) ≡ unknown x_name }
{}

/// Comparisons, and what they deny.
pub fn comparisons_are_opened()
    ensures not_zero { clauses_of toys_signature [] (negation sort_s (test (codes "Lbleq") x (integer (codes "0")))) ≡ alone (comparison false (codes "Lbleq") (unknown x_name) (known (whole (pos 0)))) }
    ensures both { clauses_of toys_signature [] (conjunction sort_s (patterns (above x (codes "0") ∷ above x (codes "5") ∷ []))) ≡ (is_above true 0 ∷ []) ∷ (is_above true 5 ∷ []) ∷ [] }
    ensures implied { clauses_of toys_signature [] (conjunction sort_s (patterns (above x (codes "0") ∷ disjunction sort_s (patterns (above x (codes "0") ∷ above x (codes "5") ∷ [])) ∷ []))) ≡ (is_above true 0 ∷ []) ∷ (is_above true 0 ∷ is_above true 5 ∷ []) ∷ [] }
    ensures once { clauses_of toys_signature [] (conjunction sort_s (patterns (above x (codes "0") ∷ above x (codes "0") ∷ []))) ≡ alone (is_above true 0) }
    ensures square { clauses_of toys_signature [] (test (codes "Lbllt") square (integer (codes "0"))) ≡ alone (comparison true (codes "Lbllt") square_term (known (whole (pos 0)))) }
    ensures at_once { clauses_of toys_signature [] (test (codes "Lblge") x x) ≡ [] }
    ensures never { clauses_of toys_signature [] (test (codes "Lblgt") x (call (codes "Lbladd") (x ∷ integer (codes "1") ∷ []))) ≡ [] ∷ [] }
    ensures within { clauses_of toys_signature [] (membership sort_int sort_s y less_one) ≡ alone (equality true sort_int (unknown y_name) (offset x_name (negsuc 0))) }
    ensures equal { clauses_of toys_signature [] (equals sort_int sort_s y less_one) ≡ alone (equality true sort_int (unknown y_name) (offset x_name (negsuc 0))) }
{}

/// A variable's constructor, and whether it is a whole number.
pub fn heads_are_opened()
    ensures constructor { clauses_of toys_signature [] is_pa ≡ alone (equality true sort_p (unknown p_name) (known (constructed (codes "Lblpa") no_values))) }
    ensures other { clauses_of toys_signature [] (negation sort_s is_pa) ≡ alone (equality false sort_p (unknown p_name) (known (constructed (codes "Lblpa") no_values))) }
    ensures number { clauses_of toys_signature [] is_number ≡ alone (number_test true) }
    ensures no_number { clauses_of toys_signature [] (negation sort_s is_number) ≡ alone (number_test false) }
    ensures written { written_clause toys_signature sort_s (number_test false ∷ []) ≡ negation sort_s is_number }
{}

/// Connectives under connectives; what isn't opened; too many choices.
pub fn connectives_are_opened()
    ensures iff { clauses_of toys_signature [] nested_iff ≡
        (is_above false 0 ∷ is_above false 1 ∷ is_above true 2 ∷ []) ∷ (is_above true 0 ∷ is_above true 1 ∷ is_above true 2 ∷ []) ∷
        (is_above false 0 ∷ is_above true 1 ∷ is_above false 2 ∷ []) ∷ (is_above true 0 ∷ is_above false 1 ∷ is_above false 2 ∷ []) ∷ [] }
    ensures not_iff { clauses_of toys_signature [] (negation sort_s (equivalence sort_s (above x (codes "0")) (above x (codes "1")))) ≡ (is_above false 0 ∷ is_above false 1 ∷ []) ∷ (is_above true 0 ∷ is_above true 1 ∷ []) ∷ [] }
    ensures not_all { clauses_of toys_signature [] (negation sort_s all_above) ≡ alone (record { holds = false; atom = quoted all_above [] }) }
    ensures not_only { clauses_of toys_signature [] (negation sort_s only_x) ≡ alone (record { holds = false; atom = quoted only_x [] }) }
    ensures too_many { clauses_of toys_signature [] (many_choices 16) ≡ alone (record { holds = true; atom = quoted (many_choices 16) [] }) }
    ensures too_many_denied { clauses_of toys_signature [] (negation sort_s (conjunction sort_s (patterns (map (negation sort_s) (repeated 16))))) ≡ alone (record { holds = false; atom = quoted (conjunction sort_s (patterns (map (negation sort_s) (repeated 16)))) [] }) }
    ensures few { clauses_of toys_signature [] (many_choices 1) ≡ clauses_of toys_signature [] both_above }
    ensures denied { clauses_of toys_signature [] (negation sort_s (many_choices 16)) ≡ (is_above false 0 ∷ y_above false 0 ∷ []) ∷ [] }
{}

/// Boolean expressions: variables and their opposites, connectives, an expression that is false, two that are the same.
pub fn boolean_expressions_are_opened()
    ensures variable { clauses_of logical_signature [] (negation sort_s (true_if (of_name b_name))) ≡ alone (is_b false) }
    ensures both { clauses_of logical_signature [] (true_if (call (codes "Lbland") (of_name b_name ∷ call (codes "Lblnot") (of_name c_name ∷ []) ∷ []))) ≡ (is_b true ∷ []) ∷ (is_c false ∷ []) ∷ [] }
    ensures not_both { clauses_of logical_signature [] (negation sort_s (true_if (call (codes "Lbland") (of_name b_name ∷ of_name c_name ∷ [])))) ≡ (is_b false ∷ is_c false ∷ []) ∷ [] }
    ensures as_written { clauses_of logical_signature [] (equals sort_bool sort_s gt_zero never) ≡ alone (equality true sort_bool gt_zero_term (known (truth false))) }
    ensures alone { clauses_of logical_signature [] (equals sort_bool sort_s (of_name b_name) gt_zero) ≡ alone (equality true sort_bool (unknown b_name) gt_zero_term) }
    ensures denied { clauses_of logical_signature [] (negation sort_s (equals sort_bool sort_s (of_name b_name) gt_zero)) ≡ (is_b false ∷ is_above false 0 ∷ []) ∷ (is_b true ∷ is_above true 0 ∷ []) ∷ [] }
    ensures iff { clauses_of logical_signature [] (true_if (call (codes "Lbliff") (of_name b_name ∷ gt_zero ∷ []))) ≡ (is_b false ∷ is_above true 0 ∷ []) ∷ (is_b true ∷ is_above false 0 ∷ []) ∷ [] }
    ensures members { clauses_of logical_signature [] (true_if (call (codes "Lblsame") (count_of x ∷ count_of y ∷ []))) ≡ alone (equality true sort_int (unknown x_name) (unknown y_name)) }
{}

/// Of X = Y, however it is written, X goes; the equation stays and is written with X first.
pub fn equations_are_solved()
    ensures solved { IsReadAs toys_signature same_count (solved_count (same sort_int (unknown y_name) (unknown x_name))) }
    ensures written { written_clause toys_signature sort_s (equality true sort_int (unknown y_name) (unknown x_name) ∷ []) ≡ equals sort_int sort_s x y }
{}

/// The opposite of two clauses is that one of them is false.
pub fn clauses_are_negated()
    ensures one { negated toys_signature sort_s ((is_above true 0 ∷ is_above false 5 ∷ []) ∷ []) ≡ (is_above false 0 ∷ []) ∷ (is_above true 5 ∷ []) ∷ [] }
    ensures two { negated toys_signature sort_s ((is_above true 0 ∷ []) ∷ (is_above false 5 ∷ []) ∷ []) ≡ (is_above false 0 ∷ is_above true 5 ∷ []) ∷ [] }
    ensures none { negated toys_signature sort_s [] ≡ [] ∷ [] }
{}

/// A term that comes under a binder isn't bound by it: \forall Y. Y < X, with Y for X, is \forall Fresh1. Fresh1 < Y.
pub fn binders_are_renamed()
    ensures { written_under toys_signature (record { name = codes "X"; term = unknown y_name } ∷ []) (forall sort_s (codes "Y") sort_int (test (codes "Lbllt") y x))
        ≡ forall sort_s (codes "Fresh1") sort_int (test (codes "Lbllt") (variable (codes "Fresh1") sort_int) y) }
{}
