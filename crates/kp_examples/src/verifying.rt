// What the definitions say of small patterns.
ghost use Rattle.std.specs.Prelude.{codes, List, [], ◌∷◌};
ghost use Rattle.kp_kore.specs.Syntax.{sort_variable, literal};
ghost use Rattle.kp_signature.specs.Verify.{VerifiesAs, FailsWith, unknown_sort, unknown_symbol, wrong_number, sort_differs, number_too_wide, term_too_deep, no_literal};
ghost use Rattle.kp_examples.specs.Verifying.{small, sort_int, sort_bool, sort_e, sort_nope, list_of_nope, integer, named, call, injected, pair_of, minus_times, both_of, some_integer, x_int, x_e};

/// A pattern without a fault has the sort of its symbol, variable or literal.
pub fn a_pattern_has_one_sort()
    ensures pair { VerifiesAs small (pair_of (integer (codes "-02")) (named (codes "X") sort_int)) sort_e }
    ensures injected { VerifiesAs small (injected sort_int sort_e (integer (codes "2"))) sort_e }
    ensures same { VerifiesAs small (injected sort_e sort_e (named (codes "X") sort_e)) sort_e }
    ensures truth { VerifiesAs small (literal sort_bool (codes "true")) sort_bool }
{}

/// V1 tells the outermost sort that isn't known; a sort variable isn't.
pub fn an_unknown_sort_is_told()
    ensures undeclared { FailsWith small (named (codes "X") sort_nope) (unknown_sort sort_nope) }
    ensures argument { FailsWith small (named (codes "X") list_of_nope) (unknown_sort sort_nope) }
    ensures parameter { FailsWith small (named (codes "X") (sort_variable (codes "R"))) (unknown_sort (sort_variable (codes "R"))) }
{}

/// V2 and V3 tell the symbol, before anything of its arguments.
pub fn a_symbol_is_declared_with_its_number()
    ensures undeclared { FailsWith small (call (codes "nope") (named (codes "X") sort_nope ∷ [])) (unknown_symbol (codes "nope")) }
    ensures arguments { FailsWith small (call (codes "minus") []) (wrong_number (codes "minus")) }
    ensures sorts { FailsWith small (call (codes "inj") (integer (codes "2") ∷ [])) (wrong_number (codes "inj")) }
{}

/// V4 tells the sort that the place wants and the one that is found, above what is wrong below.
pub fn a_place_wants_its_sort()
    ensures argument { FailsWith small (call (codes "minus") (literal sort_bool (codes "maybe") ∷ [])) (sort_differs sort_int sort_bool) }
    ensures second { FailsWith small (pair_of (integer (codes "2")) (literal sort_bool (codes "true"))) (sort_differs sort_int sort_bool) }
    ensures upwards { FailsWith small (injected sort_e sort_int (named (codes "X") sort_e)) (sort_differs sort_int sort_e) }
{}

/// V4 tells of a variable at two sorts in one scope: the earlier sort is expected. A binder hides an outer variable.
pub fn a_variable_has_one_sort_in_its_scope()
    ensures twice { FailsWith small (both_of x_e x_int) (sort_differs sort_e sort_int) }
    ensures bound { FailsWith small (some_integer x_e) (sort_differs sort_int sort_e) }
    ensures hidden { VerifiesAs small (both_of x_e (some_integer x_int)) sort_e }
    ensures after { VerifiesAs small (both_of (some_integer x_int) x_e) sort_e }
{}

/// V7 tells a text that is no literal of its sort, also where the sort has none.
pub fn a_literal_is_of_its_sort()
    ensures number { FailsWith small (integer (codes "2x")) (no_literal (codes "2x")) }
    ensures sign { FailsWith small (integer (codes "-")) (no_literal (codes "-")) }
    ensures truth { FailsWith small (literal sort_bool (codes "maybe")) (no_literal (codes "maybe")) }
    ensures none { FailsWith small (literal sort_e (codes "2")) (no_literal (codes "2")) }
{}

/// V5 tells the first numbers that leave 128 bits; the last that fit are read.
pub fn a_number_fits_in_128_bits()
    ensures most { VerifiesAs small (integer (codes "170141183460469231731687303715884105727")) sort_int }
    ensures wide { FailsWith small (integer (codes "170141183460469231731687303715884105728")) (number_too_wide (codes "170141183460469231731687303715884105728")) }
    ensures least { VerifiesAs small (integer (codes "-170141183460469231731687303715884105728")) sort_int }
{}

/// V6 tells a term deeper than 48, after the other faults of the node that is too deep; a part of another pattern begins anew.
pub fn a_term_is_no_deeper_than_48()
    ensures deep { VerifiesAs small (minus_times 47 (integer (codes "2"))) sort_int }
    ensures deeper { FailsWith small (minus_times 48 (integer (codes "2"))) term_too_deep }
    ensures first { FailsWith small (minus_times 48 (integer (codes "x"))) (no_literal (codes "x")) }
{}
