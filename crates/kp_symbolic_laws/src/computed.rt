// Laws of calls in what is written for symbolic states.
ghost use Rattle.std.specs.Prelude.{◌≡◌, true, None};
ghost use Rattle.std.specs.List.{AllByRecursion};
ghost use Rattle.kp_kore.specs.Syntax.{KorePattern};
ghost use Rattle.kp_kore.specs.Signature.{KoreSignature};
ghost use Rattle.kp_kore.specs.Instance.{is_predicate, conjoined_predicates};
ghost use Rattle.kp_kore.specs.Replies.{IsComputed};
ghost use Rattle.kp_signature.specs.Places.{Place};
ghost use Rattle.kp_signature.specs.Verify.{first_fault};
ghost use Rattle.kp_symbolic.specs.States.{SymbolicState};
ghost use Rattle.kp_symbolic.specs.Solving.{IsReadAs};
ghost use Rattle.kp_symbolic.specs.Writing.{InjectsWhereItStands, written_state};
ghost use Rattle.kp_symbolic_laws.specs.Reordered.{AreReordered};

/// What is written for the state that a verified pattern of terms and predicates is read as, also with the literals of its
/// clauses in another order, has no open call but those whose value leaves 128 bits, where inj is what it should be or isn't
/// written.
pub fn a_read_state_is_written_without_open_calls()
    ensures { (g : KoreSignature) (c : Place) (p : KorePattern) (s t : SymbolicState) → first_fault g c p ≡ None →
        AllByRecursion (λ q. is_predicate q ≡ true) (conjoined_predicates p) → IsReadAs g p s →
        t.term ≡ s.term → AreReordered s.clauses t.clauses →
        InjectsWhereItStands g (written_state g t) → IsComputed g (written_state g t) }
{}
