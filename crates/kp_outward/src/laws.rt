// What is written for clauses in order says what the clauses say.
ghost use Rattle.std.specs.Prelude.{◌≡◌, ◌↔◌, List};
ghost use Rattle.std.specs.List.{AllByRecursion};
ghost use Rattle.kp_kore.specs.Syntax.{KoreSort};
ghost use Rattle.kp_kore.specs.Signature.{KoreSignature};
ghost use Rattle.kp_kore.specs.Value.{Value};
ghost use Rattle.kp_kore.specs.Instance.{Valuation, GivesSorts, IsInstance, AllTrueUnder};
ghost use Rattle.kp_symbolic.specs.States.{Literal, SymbolicState, AreTrue, IsStateInstance};
ghost use Rattle.kp_symbolic.specs.Writing.{InjectsWhereItStands, IsSaid, written_clauses, written_state};
ghost use Rattle.kp_symbolic_laws.specs.Runs.{IsSortedState, IsWrittenAtom};
ghost use Rattle.kp_outward.specs.Arranged.{AreArranged, with_clauses};

/// Arranged clauses are true where the clauses are, and so is what is written for them, where each atom's written form says
/// what the atom says.
pub fn arranged_clauses_say_what_they_said()
    ensures clauses { (g : KoreSignature) (v : Valuation) (sort : KoreSort) (cs ds : List (List Literal)) →
        AllByRecursion (AllByRecursion (λ l. IsSaid g v sort l.atom)) cs → AreArranged g sort cs ds → AreTrue g v ds ↔ AreTrue g v cs }
    ensures written { (g : KoreSignature) (v : Valuation) (sort : KoreSort) (cs ds : List (List Literal)) →
        AllByRecursion (AllByRecursion (λ l. IsSaid g v sort l.atom)) cs → AreArranged g sort cs ds → AllTrueUnder g v (written_clauses g sort ds) ↔ AreTrue g v cs }
{}

/// What is written for a state, its clauses arranged, has exactly the state's instances, where the variables at hand have
/// values of their sorts and `inj` is what it should be or isn't written: of equalities, tests of heads, and verified predicates that aren't
/// opened.
#[tactic(auto, using(crate::proofs::LawLemmas::arranged_state_says))]
pub fn a_written_state_has_the_instances()
    ensures { (g : KoreSignature) (v : Valuation) (s : SymbolicState) (ds : List (List Literal)) (u : Value) → InjectsWhereItStands g (written_state g (with_clauses s ds)) → GivesSorts g v s.variables →
        IsSortedState g s → AllByRecursion (AllByRecursion (λ l. IsWrittenAtom g l.atom)) s.clauses → AreArranged g s.sort s.clauses ds →
        IsInstance g v (written_state g (with_clauses s ds)) u ↔ IsStateInstance g v s u }
{}
