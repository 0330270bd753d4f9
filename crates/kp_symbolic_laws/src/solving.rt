// Laws of the whole of solving, from a state to the one in which no equation can be solved.
ghost use Rattle.std.specs.Prelude.{◌≡◌, ◌↔◌, true, Some, None};
ghost use Rattle.std.specs.List.{AllByRecursion};
ghost use Rattle.kp_kore.specs.Syntax.{KorePattern};
ghost use Rattle.kp_kore.specs.Parts.{free_variables};
ghost use Rattle.kp_kore.specs.Signature.{KoreSignature, injection, meaning_of};
ghost use Rattle.kp_compile.specs.Spelled.{injection_name};
ghost use Rattle.kp_kore.specs.Value.{Value};
ghost use Rattle.kp_kore.specs.Instance.{Valuation, GivesSorts, is_predicate, conjoined_predicates};
ghost use Rattle.kp_kore.specs.Foreign.{none_within, has_foreign_head};
ghost use Rattle.kp_signature.specs.Places.{Place};
ghost use Rattle.kp_signature.specs.Verify.{first_fault};
ghost use Rattle.kp_symbolic.specs.States.{SymbolicState, IsStateInstance, HasInstancesOf};
ghost use Rattle.kp_symbolic.specs.WellFormed.{IsWellFormed};
ghost use Rattle.kp_symbolic.specs.Solving.{Solvable, first_solvable, solved_at, Solving, opened_state, IsReadAs};
ghost use Rattle.kp_symbolic_laws.specs.Runs.{IsSortedState, IsSoundState, OfKeptAt, HasRoomIn, IsWrittenOfThese, IsWrittenRight, OfEachKept, AreWrittenAtoms};

/// Where an equation is solved, a state with the sorts of its places keeps them, and its instances; what stays one literal
/// for its size is written of the variables at hand, and right.
pub fn a_step_keeps_sorts_and_instances()
    ensures sorts { (g : KoreSignature) (s : SymbolicState) (o : Solvable) → IsSortedState g s → first_solvable g s ≡ Some o →
        OfKeptAt g (IsWrittenOfThese g) s o → IsSortedState g (solved_at g o s) }
    ensures instances { (g : KoreSignature) (v : Valuation) (s : SymbolicState) (o : Solvable) (u : Value) → IsSortedState g s → GivesSorts g v s.variables →
        first_solvable g s ≡ Some o → OfKeptAt g (IsWrittenRight g v) s o →
        IsStateInstance g v s u ↔ IsStateInstance g v (solved_at g o s) u }
{}

/// A state that is solved from another has the sorts of its places where that has, and the same instances, whatever the
/// variables at hand stand for; what stays one literal for its size is written of the variables at hand, and right.
pub fn solving_keeps_sorts_and_instances()
    ensures sorts { (g : KoreSignature) (s t : SymbolicState) → IsSortedState g s → OfEachKept g (IsWrittenOfThese g) s → Solving g s t → IsSortedState g t }
    ensures instances { (g : KoreSignature) (v : Valuation) (s t : SymbolicState) (u : Value) → IsSortedState g s → GivesSorts g v s.variables →
        OfEachKept g (IsWrittenOfThese g) s → OfEachKept g (IsWrittenRight g v) s → Solving g s t →
        IsStateInstance g v s u ↔ IsStateInstance g v t u }
{}

/// A verified pattern of one term and predicates is opened as, and read as, a state with the sorts of its places; that which
/// it is read as has its instances. What stays one literal for its size is written of the variables at hand, and right.
pub fn a_pattern_has_the_instances_of_what_it_is_read_as()
    ensures opened { (g : KoreSignature) (c : Place) (p : KorePattern) (s : SymbolicState) → first_fault g c p ≡ None → none_within (has_foreign_head g) p ≡ true →
        AllByRecursion (λ q. is_predicate q ≡ true) (conjoined_predicates p) → opened_state g p ≡ Some s → IsSortedState g s }
    ensures read { (g : KoreSignature) (c : Place) (p : KorePattern) (s : SymbolicState) → first_fault g c p ≡ None → none_within (has_foreign_head g) p ≡ true →
        AllByRecursion (λ q. is_predicate q ≡ true) (conjoined_predicates p) → (r : IsReadAs g p s) → OfEachKept g (IsWrittenOfThese g) r.opened → IsSortedState g s }
    ensures instances { (g : KoreSignature) (c : Place) (p : KorePattern) (s : SymbolicState) → first_fault g c p ≡ None → none_within (has_foreign_head g) p ≡ true →
        AllByRecursion (λ q. is_predicate q ≡ true) (conjoined_predicates p) → (r : IsReadAs g p s) → OfEachKept g (IsWrittenOfThese g) r.opened →
        ((v : Valuation) → GivesSorts g v (free_variables p) → OfEachKept g (IsWrittenRight g v) r.opened) → HasInstancesOf g p s }
{}

/// A verified pattern is read as a state with the sorts of its places and with its instances, where inj is what it should be
/// and each clause that stays one literal has only literals that are written right.
pub fn a_pattern_whose_large_clauses_are_written_right_has_its_instances()
    ensures { (g : KoreSignature) (c : Place) (p : KorePattern) (s : SymbolicState) → meaning_of g injection_name ≡ injection → first_fault g c p ≡ None →
        none_within (has_foreign_head g) p ≡ true → AllByRecursion (λ q. is_predicate q ≡ true) (conjoined_predicates p) →
        (r : IsReadAs g p s) → OfEachKept g (AreWrittenAtoms g) r.opened → IsSortedState g s × HasInstancesOf g p s }
{}

/// A verified pattern of one term and predicates is read as a well-formed state.
pub fn a_verified_pattern_is_read_as_a_well_formed_state()
    ensures { (g : KoreSignature) (c : Place) (p : KorePattern) (s : SymbolicState) → first_fault g c p ≡ None → none_within (has_foreign_head g) p ≡ true →
        AllByRecursion (λ q. is_predicate q ≡ true) (conjoined_predicates p) → IsReadAs g p s → IsWellFormed g s }
{}

/// A verified pattern is read as a state with its instances, whose literals are written right where there is room for new names,
/// where inj is what it should be and each clause that stays one literal has that room.
pub fn a_pattern_whose_large_clauses_have_room_has_its_instances()
    ensures { (g : KoreSignature) (c : Place) (p : KorePattern) (s : SymbolicState) → meaning_of g injection_name ≡ injection → first_fault g c p ≡ None →
        none_within (has_foreign_head g) p ≡ true → AllByRecursion (λ q. is_predicate q ≡ true) (conjoined_predicates p) →
        (r : IsReadAs g p s) → OfEachKept g (HasRoomIn g) r.opened → IsSoundState g s × HasInstancesOf g p s }
{}
