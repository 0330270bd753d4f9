// Laws of clauses that stay one literal for their size.
ghost use Rattle.std.specs.Prelude.{◌≡◌, true, None};
ghost use Rattle.std.specs.List.{AllByRecursion};
ghost use Rattle.kp_kore.specs.Syntax.{KorePattern};
ghost use Rattle.kp_kore.specs.Signature.{KoreSignature};
ghost use Rattle.kp_kore.specs.Foreign.{none_within, has_foreign_head};
ghost use Rattle.kp_kore.specs.Instance.{is_predicate, conjoined_predicates};
ghost use Rattle.kp_signature.specs.Places.{Place};
ghost use Rattle.kp_signature.specs.Verify.{first_fault};
ghost use Rattle.kp_symbolic.specs.States.{SymbolicState, HasInstancesOf};
ghost use Rattle.kp_symbolic.specs.Solving.{IsReadAs};
ghost use Rattle.kp_symbolic_laws.specs.Runs.{IsSoundState, OfEachKept};
ghost use Rattle.kp_symbolic_laws.specs.Kept.{CanBeWritten};

/// A verified pattern is read as a state with its instances, whose literals are written right where there is room for new
/// names, if each clause that stays one literal can be written: over any signature, with `inj` or without.
pub fn a_pattern_whose_large_clauses_can_be_written_has_its_instances()
    ensures { (g : KoreSignature) (c : Place) (p : KorePattern) (s : SymbolicState) → first_fault g c p ≡ None →
        none_within (has_foreign_head g) p ≡ true → AllByRecursion (λ q. is_predicate q ≡ true) (conjoined_predicates p) →
        (r : IsReadAs g p s) → OfEachKept g (CanBeWritten g) r.opened → IsSoundState g s × HasInstancesOf g p s }
{}
