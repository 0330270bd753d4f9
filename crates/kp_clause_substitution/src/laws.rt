// Laws of terms in the place of variables.
ghost use Rattle.std.specs.Prelude.{◌≡◌, ◌↔◌, Bool, List};
ghost use Rattle.std.specs.List.{AllByRecursion};
ghost use Rattle.kp_kore.specs.Syntax.{KoreSort};
ghost use Rattle.kp_kore.specs.Signature.{KoreSignature};
ghost use Rattle.kp_kore.specs.Value.{Value};
ghost use Rattle.kp_kore.specs.Instance.{Valuation};
ghost use Rattle.kp_symbolic.specs.Terms.{term_variables, Replaced, under_replaced};
ghost use Rattle.kp_symbolic.specs.Formulas.{Holds};
ghost use Rattle.kp_symbolic.specs.States.{Atom, IsAtomTrue, Literal, IsLiteralTrue, IsClauseTrue, AreTrue, AreGiven, SymbolicState, IsStateInstance};
ghost use Rattle.kp_symbolic.specs.WellFormed.{IsWellSorted};
ghost use Rattle.kp_symbolic.specs.Opening.{signed};
ghost use Rattle.kp_symbolic.specs.Clauses.{distributed};
ghost use Rattle.kp_symbolic.specs.Solving.{Equation, replacement, opened_clause};
ghost use Rattle.kp_clause_substitution.specs.Replacing.{opened_under, clause_under};
ghost use Rattle.kp_clause_substitution.specs.Substituted.{substituted, IsReady};

/// A literal and a clause with terms in the place of variables say what they say where the variables stand for the instances
/// of the terms; of one variable that an equation solves they are what solving makes of them.
pub fn replacing_keeps_truth()
    ensures literal { (g : KoreSignature) (v : Valuation) (sort : KoreSort) (qs : List Replaced) (alone b : Bool) (a : Atom) → IsReady g v sort qs a →
        Holds (IsLiteralTrue g v) (opened_under g qs alone b a) ↔ signed b (IsAtomTrue g (under_replaced g qs v) a) }
    ensures clause { (g : KoreSignature) (v : Valuation) (sort : KoreSort) (qs : List Replaced) (c : List Literal) → AllByRecursion (λ l. IsReady g v sort qs l.atom) c →
        AreTrue g v (distributed (clause_under g qs c)) ↔ IsClauseTrue g (under_replaced g qs v) c }
    ensures solved { (g : KoreSignature) (e : Equation) (c : List Literal) → clause_under g (replacement e) c ≡ opened_clause g e c }
{}

/// A state with terms in the place of variables has the instances that it has where the variables stand for those of the terms.
pub fn substituted_states_have_the_instances()
    ensures { (g : KoreSignature) (v : Valuation) (qs : List Replaced) (s : SymbolicState) (u : Value) →
        AllByRecursion (AllByRecursion (λ l. IsReady g v s.sort qs l.atom)) s.clauses → IsWellSorted g s.sort s.term → AreGiven g qs v (term_variables s.term) →
        IsStateInstance g v (substituted g qs s) u ↔ IsStateInstance g (under_replaced g qs v) s u }
{}
