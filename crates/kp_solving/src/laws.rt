// Laws of states with further clauses, and of states in which a variable is a term.
ghost use Rattle.std.specs.Prelude.{◌≡◌, ◌↔◌, List};
ghost use Rattle.std.specs.List.{AllByRecursion};
ghost use Rattle.kp_kore.specs.Parts.{SortedName};
ghost use Rattle.kp_kore.specs.Signature.{KoreSignature};
ghost use Rattle.kp_kore.specs.Value.{Value};
ghost use Rattle.kp_kore.specs.Instance.{Valuation};
ghost use Rattle.kp_symbolic.specs.Solving.{Equation, replacement, IsReadyAtom};
ghost use Rattle.kp_symbolic.specs.States.{AreGiven, Literal, AreTrue, SymbolicState, IsStateInstance};
ghost use Rattle.kp_symbolic.specs.Terms.{term_instance, term_variables};
ghost use Rattle.kp_symbolic.specs.WellFormed.{IsWellSorted};
ghost use Rattle.kp_solving.specs.Further.{constrained, refined};

/// A state with further clauses has exactly the instances that it had, where these are true.
pub fn further_clauses_restrict_a_state()
    ensures { (g : KoreSignature) (v : Valuation) (s : SymbolicState) (cs : List (List Literal)) (u : Value) →
        IsStateInstance g v (constrained s cs) u ↔ (IsStateInstance g v s u × AreTrue g v cs) }
{}

/// A state in which a variable is a term has exactly the instances that it had where the variable's value is the term's:
/// where all variables have values of their sorts, before and after, all is well-sorted, and what is written says what it says.
pub fn terms_in_place_of_variables_restrict_a_state()
    ensures { (g : KoreSignature) (v : Valuation) (s : SymbolicState) (e : Equation) (new : List SortedName) (u : Value) →
        AllByRecursion (AllByRecursion (λ l. IsReadyAtom g v s.sort e l.atom)) s.clauses → IsWellSorted g s.sort s.term → AreGiven g (replacement e) v (term_variables s.term) →
        IsStateInstance g v (refined g e new s) u ↔ (IsStateInstance g v s u × (v e.variable.name ≡ term_instance g v e.term)) }
{}
