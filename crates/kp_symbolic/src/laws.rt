// Laws of literals, clauses and formulas.
ghost use Rattle.std.specs.Prelude.{◌≡◌, ◌↔◌, Bool, true, Some, None, List, [], ◌∷◌};
ghost use Rattle.std.specs.List.{AllByRecursion};
ghost use Rattle.kp_kore.specs.Syntax.{Text, KoreSort, KorePattern};
ghost use Rattle.kp_kore.specs.Parts.{SortedName, is_term, free_variables};
ghost use Rattle.kp_kore.specs.Signature.{KoreSignature};
ghost use Rattle.kp_kore.specs.Instance.{Valuation, GivesSorts, instance, is_predicate, conjoined_predicates, IsTrueUnder, AllTrueUnder, IsInstance};
ghost use Rattle.kp_kore.specs.Foreign.{none_within, has_foreign_head};
ghost use Rattle.kp_kore.specs.Value.{Value, truth, HasSort};
ghost use Rattle.kp_symbolic.specs.Terms.{SymbolicTerm, term_instance, term_variables, Replaced, under_replaced};
ghost use Rattle.kp_signature.specs.Places.{Place, own_sort};
ghost use Rattle.kp_signature.specs.Verify.{first_fault};
ghost use Rattle.kp_symbolic.specs.WellFormed.{IsWellSorted, IsWellSortedAtom, AreAtHand, AreWellPlaced, IsFolded, IsGivenSorts, IsGivenAtom, AreGivenLiterals};
ghost use Rattle.kp_symbolic.specs.Formulas.{Formula, Holds};
ghost use Rattle.kp_symbolic.specs.Folding.{folded, replaced, AreWritten};
ghost use Rattle.kp_symbolic.specs.Clauses.{distributed, without_repeats, opened_atom, clauses_of, denied};
ghost use Rattle.kp_symbolic.specs.Opening.{is_left, Leaf, signed, opened, opened_same, opened_truth, opened_predicate};
ghost use Rattle.kp_symbolic.specs.Solving.{opened_state, replacement, Solvable, first_solvable, solved_at, IsReadyAtom, IsReadAs};
ghost use Rattle.kp_symbolic.specs.Writing.{InjectsWhereItStands, written_term, IsSaid, written_clause, written_clauses};
ghost use Rattle.kp_symbolic.specs.States.{Atom, same, atom_variables, IsAtomTrue, Literal, IsLiteralTrue, IsClauseTrue, AreTrue, AreGiven, SymbolicState, IsStateInstance};

/// A literal that can't be refuted is true.
pub fn literals_are_stable()
    ensures { (g : KoreSignature) (v : Valuation) (l : Literal) → ¬ ¬ IsLiteralTrue g v l → IsLiteralTrue g v l }
{}

/// The clauses of a formula say what it says; so do clauses without those that repeat.
pub fn clauses_say_the_formula()
    ensures formula { (g : KoreSignature) (v : Valuation) (f : Formula Literal) → AreTrue g v (distributed f) ↔ Holds (IsLiteralTrue g v) f }
    ensures repeats { (g : KoreSignature) (v : Valuation) (cs : List (List Literal)) → AreTrue g v (without_repeats cs) ↔ AreTrue g v cs }
{}

/// A folded term has the instance of what it was folded from, where its variables have values of their sorts.
pub fn folding_keeps_instances()
    ensures { (g : KoreSignature) (rs : List Replaced) (v : Valuation) (p : KorePattern) → AreGiven g rs v (free_variables p) →
        term_instance g v (folded g rs p) ≡ instance g (under_replaced g rs v) p }
{}

/// An opened predicate says what it said, for any way to open what is left to it that says what that said.
pub fn opening_keeps_truth()
    ensures { (g : KoreSignature) (rs : List Replaced) (v : Valuation) (leaf : Leaf) →
        ((alone b : Bool) (p : KorePattern) → is_left p ≡ true → AreGiven g rs v (free_variables p) → Holds (IsLiteralTrue g v) (leaf alone b p) ↔ signed b (IsTrueUnder g (under_replaced g rs v) p)) →
        (alone b : Bool) (p : KorePattern) → AreGiven g rs v (free_variables p) → Holds (IsLiteralTrue g v) (opened leaf alone b p) ↔ signed b (IsTrueUnder g (under_replaced g rs v) p) }
{}

/// A verified predicate without foreign symbols is opened to what it says, and its clauses are true exactly where it is, with
/// well-sorted terms in the place of its variables and values of their sorts for the variables of these.
pub fn opened_predicates_say_what_they_said()
    ensures opened { (g : KoreSignature) (rs : List Replaced) (v : Valuation) (c : Place) (p : KorePattern) →
        first_fault g c p ≡ None → none_within (has_foreign_head g) p ≡ true → is_predicate p ≡ true →
        AreWellPlaced g rs (free_variables p) → AreGiven g rs v (free_variables p) →
        (b : Bool) → Holds (IsLiteralTrue g v) (opened_predicate g rs b p) ↔ signed b (IsTrueUnder g (under_replaced g rs v) p) }
    ensures clauses { (g : KoreSignature) (rs : List Replaced) (v : Valuation) (c : Place) (p : KorePattern) →
        first_fault g c p ≡ None → none_within (has_foreign_head g) p ≡ true → is_predicate p ≡ true →
        AreWellPlaced g rs (free_variables p) → AreGiven g rs v (free_variables p) →
        AreTrue g v (clauses_of g rs p) ↔ IsTrueUnder g (under_replaced g rs v) p }
    ensures as_it_stands { (g : KoreSignature) (v : Valuation) (c : Place) (p : KorePattern) →
        first_fault g c p ≡ None → none_within (has_foreign_head g) p ≡ true → is_predicate p ≡ true → GivesSorts g v (free_variables p) →
        AreTrue g v (clauses_of g [] p) ↔ IsTrueUnder g v p }
{}

/// A verified term is folded to a well-sorted one; with well-sorted terms in the place of its variables a well-sorted term is
/// one; its instance has the sort.
pub fn terms_are_well_sorted()
    ensures folded { (g : KoreSignature) (rs : List Replaced) (c : Place) (p : KorePattern) (s : KoreSort) → first_fault g c p ≡ None → own_sort g p ≡ Some s →
        is_term p ≡ true → none_within (has_foreign_head g) p ≡ true → AreWellPlaced g rs (free_variables p) → IsWellSorted g s (folded g rs p) }
    ensures replaced { (g : KoreSignature) (rs : List Replaced) (s : KoreSort) (t : SymbolicTerm) → IsWellSorted g s t →
        AreWellPlaced g rs (term_variables t) → IsWellSorted g s (replaced g rs t) }
    ensures instances { (g : KoreSignature) (v : Valuation) (s : KoreSort) (t : SymbolicTerm) → IsWellSorted g s t →
        GivesSorts g v (term_variables t) → HasSort g s (term_instance g v t) }
{}

/// A folded term is in normal form: folding it again leaves it, where the terms in the place of its variables are.
pub fn folding_gives_normal_forms()
    ensures { (g : KoreSignature) (rs : List Replaced) (p : KorePattern) → AllByRecursion (λ r. IsFolded g r.term) rs → IsFolded g (folded g rs p) }
{}

/// The term that is written for a well-sorted one has its instance, where inj is what it should be or isn't written.
pub fn written_terms_have_the_instance()
    ensures { (g : KoreSignature) (v : Valuation) (s : KoreSort) (t : SymbolicTerm) → IsWellSorted g s t →
        InjectsWhereItStands g (written_term g s t) → instance g v (written_term g s t) ≡ term_instance g v t }
{}

/// The predicates that are written for clauses say what they say, where each atom's does; that of an equality does.
pub fn written_clauses_say_what_they_said()
    ensures equalities { (g : KoreSignature) (v : Valuation) (sort s : KoreSort) (t u : SymbolicTerm) → IsWellSorted g s t → IsWellSorted g s u →
        InjectsWhereItStands g (written_term g s t) → InjectsWhereItStands g (written_term g s u) →
        IsSaid g v sort (same s t u) }
    ensures clause { (g : KoreSignature) (v : Valuation) (sort : KoreSort) (c : List Literal) →
        AllByRecursion (λ l. IsSaid g v sort l.atom) c →
        IsTrueUnder g v (written_clause g sort c) ↔ IsClauseTrue g v c }
    ensures clauses { (g : KoreSignature) (v : Valuation) (sort : KoreSort) (cs : List (List Literal)) →
        AllByRecursion (AllByRecursion (λ l. IsSaid g v sort l.atom)) cs →
        AllTrueUnder g v (written_clauses g sort cs) ↔ AreTrue g v cs }
{}

/// A verified pattern of one term and predicates has the instances of the state that it is opened as, whatever its variables
/// stand for; the state's term is well-sorted.
pub fn opened_states_have_the_instances()
    ensures instances { (g : KoreSignature) (c : Place) (p : KorePattern) (s : SymbolicState) (v : Valuation) (u : Value) →
        first_fault g c p ≡ None → none_within (has_foreign_head g) p ≡ true → AllByRecursion (λ q. is_predicate q ≡ true) (conjoined_predicates p) →
        opened_state g p ≡ Some s → GivesSorts g v (free_variables p) → IsInstance g v p u ↔ IsStateInstance g v s u }
    ensures term { (g : KoreSignature) (c : Place) (p : KorePattern) (s : SymbolicState) (v : Valuation) →
        first_fault g c p ≡ None → none_within (has_foreign_head g) p ≡ true → opened_state g p ≡ Some s → GivesSorts g v (free_variables p) → IsWellSorted g s.sort s.term }
{}

/// A state in which an equation was solved has the instances that it had, where the term's and the clauses' variables have
/// values of their sorts, and all is well-sorted; its clauses are true where they were, and there the equation holds.
pub fn solving_keeps_instances()
    ensures clauses { (g : KoreSignature) (v : Valuation) (s : SymbolicState) (o : Solvable) → first_solvable g s ≡ Some o →
        AllByRecursion (AllByRecursion (λ l. IsReadyAtom g v s.sort o.equation l.atom)) s.clauses →
        (AreTrue g v s.clauses → (v o.equation.variable.name ≡ term_instance g v o.equation.term) × AreTrue g v (solved_at g o s).clauses)
        × (AreTrue g v (solved_at g o s).clauses → (v o.equation.variable.name ≡ term_instance g v o.equation.term) × AreTrue g v s.clauses) }
    ensures instances { (g : KoreSignature) (v : Valuation) (s : SymbolicState) (o : Solvable) (u : Value) → first_solvable g s ≡ Some o →
        AllByRecursion (AllByRecursion (λ l. IsReadyAtom g v s.sort o.equation l.atom)) s.clauses →
        IsWellSorted g s.sort s.term → AreGiven g (replacement o.equation) v (term_variables s.term) →
        IsStateInstance g v s u ↔ IsStateInstance g v (solved_at g o s) u }
{}

/// Two readings of one pattern are the same state.
pub fn reading_is_a_function()
    ensures { (g : KoreSignature) (p : KorePattern) (s t : SymbolicState) → IsReadAs g p s → IsReadAs g p t → s ≡ t }
{}

/// An opened equality says that both sides have one value, by its sign, and an opened Boolean expression that it is true:
/// where the variables have values of their sorts, symbols are given arguments of theirs, and the sides have the sort.
pub fn opened_terms_say_what_they_said()
    ensures equality { (g : KoreSignature) (v : Valuation) (alone b : Bool) (s : KoreSort) (t u : SymbolicTerm) →
        GivesSorts g v (term_variables t) → GivesSorts g v (term_variables u) → IsGivenSorts g v t → IsGivenSorts g v u →
        HasSort g s (term_instance g v t) → HasSort g s (term_instance g v u) →
        Holds (IsLiteralTrue g v) (opened_same g alone b s t u) ↔ signed b (term_instance g v t ≡ term_instance g v u) }
    ensures expression { (g : KoreSignature) (v : Valuation) (alone b : Bool) (t : SymbolicTerm) →
        GivesSorts g v (term_variables t) → IsGivenSorts g v t →
        Holds (IsLiteralTrue g v) (opened_truth g alone b t) ↔ signed b (term_instance g v t ≡ truth true) }
{}

/// Each literal that an equality of well-sorted sides opens to is well-sorted, and its variables are among those at hand.
pub fn opened_equalities_are_well_sorted()
    ensures { (g : KoreSignature) (hand : List SortedName) (alone b : Bool) (s : KoreSort) (t u : SymbolicTerm) →
        IsWellSorted g s t → IsWellSorted g s u → AreAtHand (term_variables t) hand → AreAtHand (term_variables u) hand →
        AllByRecursion (AllByRecursion (λ l. IsWellSortedAtom g l.atom × AreAtHand (atom_variables l.atom) hand)) (distributed (opened_same g alone b s t u)) }
{}

/// A literal that is opened again says what it said, by its sign; the clauses of the opposite say that not all are true.
pub fn opposites_of_clauses_say_so()
    ensures literal { (g : KoreSignature) (v : Valuation) (alone b : Bool) (a : Atom) → IsGivenAtom g v a →
        Holds (IsLiteralTrue g v) (opened_atom g alone b a) ↔ signed b (IsAtomTrue g v a) }
    ensures clauses { (g : KoreSignature) (v : Valuation) (cs : List (List Literal)) → AreGivenLiterals g v cs →
        AreTrue g v (distributed (denied g cs)) ↔ (¬ AreTrue g v cs) }
{}

/// A term with terms in the place of variables has the instance that it has where the variables stand for theirs; where a
/// variable is equal to a term, a term with that in its place keeps its instance.
pub fn replacing_keeps_instances()
    ensures replaced { (g : KoreSignature) (rs : List Replaced) (v : Valuation) (t : SymbolicTerm) → AreWritten g t → AreGiven g rs v (term_variables t) →
        term_instance g v (replaced g rs t) ≡ term_instance g (under_replaced g rs v) t }
    ensures solved { (g : KoreSignature) (v : Valuation) (x : Text) (t u : SymbolicTerm) → AreWritten g u → AreGiven g (record { name = x; term = t } ∷ []) v (term_variables u) →
        v x ≡ term_instance g v t → term_instance g v (replaced g (record { name = x; term = t } ∷ []) u) ≡ term_instance g v u }
{}
