// Laws of states that must not be left undecided.
ghost use Rattle.std.specs.Prelude.{◌≡◌, ℕ, List};
ghost use Rattle.std.specs.List.{AllByRecursion};
ghost use Rattle.kp_kore.specs.Signature.{KoreSignature};
ghost use Rattle.kp_symbolic.specs.States.{clause_variables, Literal, SymbolicState};
ghost use Rattle.kp_symbolic.specs.WellFormed.{AreAtHand};
ghost use Rattle.kp_symbolic.specs.Shown.{Situation, RuleShape, IsEasy, IsHeavyPredicate};
ghost use Rattle.kp_symbolic.specs.Weights.{Weight, bits};
ghost use Rattle.kp_symbolic.specs.Verdicts.{Verdict, IsRightVerdict, IsDecision};

/// A right verdict on a state that is easy beside any rules, its variables at hand, is a decision.
pub fn states_that_are_easy_beside_rules_are_decided()
    ensures { (g : KoreSignature) (s : SymbolicState) (rules : List RuleShape) (a : Verdict) → IsRightVerdict g s a → IsEasy g s rules →
        AllByRecursion (λ c. AreAtHand (clause_variables c) s.variables) s.clauses → IsDecision a }
{}

/// Of a state that is easy beside its rules no weight is shown but bits, whether by a run, an implication or simplify: the own
/// bound of literals and of product isn't passed.
pub fn easy_states_show_no_weight_but_bits()
    ensures { (g : KoreSignature) (b : Situation) (rules : List RuleShape) (cs : List (List Literal)) (w : Weight) (told : ℕ) →
        IsHeavyPredicate g b rules cs w told → IsEasy g b.state rules → w ≡ bits }
{}
