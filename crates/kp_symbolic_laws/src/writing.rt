// Laws of what is written for symbolic states: new names, tests of heads.
ghost use Rattle.std.specs.Prelude.{◌≡◌, ◌↔◌, ◌+◌, ◌<◌, ◌^◌, true, false, Some, None, List, [], ◌∷◌, length};
ghost use Rattle.std.specs.List.{AllByRecursion, list_any};
ghost use Rattle.std.specs.Str.{bytes_eq};
ghost use Rattle.kp_kore.specs.Syntax.{Text, KoreSort, KoreSorts, KorePattern, variable};
ghost use Rattle.kp_kore.specs.Attributes.{sorts_equal};
ghost use Rattle.kp_kore.specs.Parts.{SortedName, sort_list, free_variables};
ghost use Rattle.kp_kore.specs.Signature.{KoreSignature, injection, construction, meaning_of};
ghost use Rattle.kp_kore.specs.Value.{Value, HasSort};
ghost use Rattle.kp_kore.specs.Instance.{Valuation, GivesSorts, IsInstance, AllTrueUnder, is_named, is_predicate};
ghost use Rattle.kp_compile.specs.Spelled.{places_of, injection_name};
ghost use Rattle.kp_kore.specs.Foreign.{none_within, has_foreign_head};
ghost use Rattle.kp_signature.specs.Places.{Place};
ghost use Rattle.kp_signature.specs.Verify.{first_fault};
ghost use Rattle.kp_symbolic.specs.Terms.{Replaced};
ghost use Rattle.kp_symbolic.specs.WellFormed.{AreWellPlaced, AreAtHand};
ghost use Rattle.kp_symbolic.specs.States.{one_head, head_of_sort, has_head, quoted, AreGiven, Literal, AreTrue, SymbolicState, IsStateInstance};
ghost use Rattle.kp_symbolic_laws.specs.Runs.{HasRoom, IsSortedLiteral, IsSortedState, IsPredicateAtom, IsSoundPredicate, IsWrittenAtom, IsWrittenOfThese, IsWrittenRight};
ghost use Rattle.kp_symbolic.specs.Opening.{head_question, are_variables};
ghost use Rattle.kp_symbolic.specs.Writing.{least_fresh, new_variables, variables_of, written_test, InjectsWhereItStands, IsSaid, written_clause, written_clauses, written_state};

/// The least new name isn't among those in use; new variables aren't either, and are each of another name.
pub fn new_names_are_not_in_use()
    ensures least { (used : List Text) → length used < 2 ^ 64 → list_any (bytes_eq (least_fresh used)) used ≡ false }
    ensures variables { (used : List Text) (ss : KoreSorts) (y : Text) → length used + length (sort_list ss) < 2 ^ 64 → list_any (bytes_eq y) used ≡ true → is_named y (new_variables used ss) ≡ false }
    ensures apart { (used : List Text) (ss : KoreSorts) → length used + length (sort_list ss) < 2 ^ 64 → are_variables (new_variables used ss) ss (variables_of (new_variables used ss)) ≡ true }
{}

/// What is written for a test of a variable's head is read as that test, where inj is what it should be.
pub fn written_tests_are_read_back()
    ensures constructor { (g : KoreSignature) (sort : KoreSort) (x : SortedName) (c : Text) → meaning_of g injection_name ≡ injection → meaning_of g c ≡ construction →
        1 + length (sort_list (places_of g c)) < 2 ^ 64 →
        head_question g [] (written_test g sort x (one_head c)) ≡ Some (record { subject = variable x.name x.sort; test = one_head c }) }
    ensures sort { (g : KoreSignature) (sort s : KoreSort) (x : SortedName) → meaning_of g injection_name ≡ injection → sorts_equal s x.sort ≡ false →
        head_question g [] (written_test g sort x (head_of_sort s)) ≡ Some (record { subject = variable x.name x.sort; test = head_of_sort s }) }
{}

/// What is written for a test of a variable's head says what the test says, where the variable has a value of its sort and
/// inj is what it should be.
pub fn written_tests_say_what_they_said()
    ensures constructor { (g : KoreSignature) (v : Valuation) (sort : KoreSort) (x : SortedName) (c : Text) → HasSort g x.sort (v x.name) →
        meaning_of g injection_name ≡ injection → meaning_of g c ≡ construction → 1 + length (sort_list (places_of g c)) < 2 ^ 64 → IsSaid g v sort (has_head x (one_head c)) }
    ensures sort { (g : KoreSignature) (v : Valuation) (sort s : KoreSort) (x : SortedName) → HasSort g x.sort (v x.name) →
        meaning_of g injection_name ≡ injection → IsSaid g v sort (has_head x (head_of_sort s)) }
{}

/// What is written for a clause, and for a state, has no variables but those at hand, where what isn't opened is a predicate.
pub fn written_clauses_have_their_variables()
    ensures clause { (g : KoreSignature) (s : SymbolicState) (c : List Literal) → AllByRecursion (IsSortedLiteral g s.variables) c →
        AllByRecursion (λ l. IsPredicateAtom l.atom) c → IsWrittenOfThese g s c }
    ensures state { (g : KoreSignature) (s : SymbolicState) → IsSortedState g s → AllByRecursion (AllByRecursion (λ l. IsPredicateAtom l.atom)) s.clauses →
        AreAtHand (free_variables (written_state g s)) s.variables }
{}

/// Each term of a verified predicate without foreign symbols has the sort of its place, also with well-sorted terms in the
/// place of its variables.
pub fn verified_predicates_are_sound()
    ensures { (g : KoreSignature) (c : Place) (p : KorePattern) → first_fault g c p ≡ None → none_within (has_foreign_head g) p ≡ true →
        is_predicate p ≡ true → IsSoundPredicate g p }
{}

/// What is written for a predicate that isn't opened, with terms in the place of its variables, says what the predicate says
/// where these stand for the terms' instances; inj is what it should be, and there is room for new names.
pub fn written_quotations_say_what_they_said()
    ensures { (g : KoreSignature) (rs : List Replaced) (v : Valuation) (sort : KoreSort) (p : KorePattern) → meaning_of g injection_name ≡ injection →
        is_predicate p ≡ true → IsSoundPredicate g p → AreWellPlaced g rs (free_variables p) → AreGiven g rs v (free_variables p) →
        HasRoom rs p → IsSaid g v sort (quoted p rs) }
{}

/// What is written for a clause, and for all of a state, says what they say, and what is written for it has its instances, where
/// the variables at hand have values of their sorts and inj is what it should be or isn't written: of equalities, tests of
/// heads, and predicates of well-sorted terms that aren't opened.
pub fn written_clauses_say_what_their_literals_say()
    ensures clause { (g : KoreSignature) (v : Valuation) (s : SymbolicState) (c : List Literal) → InjectsWhereItStands g (written_clause g s.sort c) → GivesSorts g v s.variables →
        AllByRecursion (IsSortedLiteral g s.variables) c → AllByRecursion (λ l. IsWrittenAtom g l.atom) c → IsWrittenRight g v s c }
    ensures clauses { (g : KoreSignature) (v : Valuation) (s : SymbolicState) → meaning_of g injection_name ≡ injection → GivesSorts g v s.variables →
        IsSortedState g s → AllByRecursion (AllByRecursion (λ l. IsWrittenAtom g l.atom)) s.clauses →
        AllTrueUnder g v (written_clauses g s.sort s.clauses) ↔ AreTrue g v s.clauses }
    ensures state { (g : KoreSignature) (v : Valuation) (s : SymbolicState) (u : Value) → InjectsWhereItStands g (written_state g s) → GivesSorts g v s.variables →
        IsSortedState g s → AllByRecursion (AllByRecursion (λ l. IsWrittenAtom g l.atom)) s.clauses →
        IsInstance g v (written_state g s) u ↔ IsStateInstance g v s u }
{}
