// Laws of plain clauses, of verdicts, and of what refutes a clause.
ghost use Rattle.std.specs.Prelude.{◌↔◌, List, [], map};
ghost use Rattle.std.specs.List.{AllByRecursion};
ghost use Rattle.kp_kore.specs.Signature.{KoreSignature};
ghost use Rattle.kp_kore.specs.Instance.{Valuation};
ghost use Rattle.kp_kore.specs.Steps.{AnyByRecursion};
ghost use Rattle.kp_symbolic.specs.States.{Literal, IsLiteralTrue, IsClauseTrue, SymbolicState, CanBeTrue};
ghost use Rattle.kp_symbolic.specs.Plain.{read_clauses, plain_part, IsPlainState, plain_clauses};
ghost use Rattle.kp_symbolic.specs.Weights.{IsWithinLimits};
ghost use Rattle.kp_symbolic.specs.WellFormed.{AreClausesAtHand};
ghost use Rattle.kp_symbolic.specs.Shown.{RuleShape, IsEasy};
ghost use Rattle.kp_symbolic.specs.Verdicts.{Verdict, IsRightVerdict, IsDecision};

/// A right verdict on plain clauses within the limits is a decision.
pub fn plain_clauses_are_decided()
    ensures { (g : KoreSignature) (s : SymbolicState) (a : Verdict) → IsRightVerdict g s a → IsPlainState g s → IsWithinLimits g s → IsDecision a }
{}

/// A state that is easy by itself, its variables at hand, is plain and within the limits: a right verdict on it is a decision.
pub fn easy_states_are_decided()
    ensures plain { (g : KoreSignature) (s : SymbolicState) (rules : List RuleShape) → IsEasy g s rules → IsPlainState g s }
    ensures limits { (g : KoreSignature) (s : SymbolicState) → IsEasy g s [] → AreClausesAtHand s → IsWithinLimits g s }
    ensures decided { (g : KoreSignature) (s : SymbolicState) (a : Verdict) → IsRightVerdict g s a → IsEasy g s [] → AreClausesAtHand s → IsDecision a }
{}

/// Clauses that can be true can be so without those that aren't plain: where the plain ones can't, there is no valuation.
pub fn plain_clauses_are_among_the_clauses()
    ensures { (g : KoreSignature) (s : SymbolicState) → CanBeTrue g s.variables s.clauses → CanBeTrue g s.variables (plain_clauses g s) }
{}

/// Clauses that are each true by a plain literal are true.
pub fn plain_literals_make_clauses_true()
    ensures { (g : KoreSignature) (s : SymbolicState) → CanBeTrue g s.variables (map plain_part (read_clauses g s)) → CanBeTrue g s.variables s.clauses }
{}

/// A clause is false exactly where each of its literals is; to refute a true clause its literals may be gone through.
pub fn literals_refute_a_clause()
    ensures false_literals { (g : KoreSignature) (v : Valuation) (c : List Literal) → (¬ IsClauseTrue g v c) ↔ AllByRecursion (λ l. ¬ IsLiteralTrue g v l) c }
    ensures by_cases { (g : KoreSignature) (v : Valuation) (c : List Literal) → IsClauseTrue g v c → (AnyByRecursion (IsLiteralTrue g v) c → ⊥) → ⊥ }
{}
