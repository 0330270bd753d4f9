// What a right answer tells of plain clauses.
ghost use Rattle.kp_kore.specs.Signature.{KoreSignature};
ghost use Rattle.kp_symbolic.specs.Plain.{IsPlainState};
ghost use Rattle.kp_symbolic.specs.States.{SymbolicState};
ghost use Rattle.kp_symbolic.specs.Weights.{IsWithinLimits};
ghost use Rattle.kp_satisfiability.specs.Answers.{IsDecided, IsRightAnswer};
ghost use Rattle.kp_satisfiability.specs.declared.verdict.Verdict.{Verdict};

/// Plain clauses within the limits are never left open.
pub fn plain_clauses_within_limits_are_decided()
    ensures { (g : KoreSignature) (s : SymbolicState) (a : Verdict) → IsRightAnswer g s a → IsPlainState g s → IsWithinLimits g s → IsDecided a }
{}
