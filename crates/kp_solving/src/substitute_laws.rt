// Laws of states with terms in the place of variables.
ghost use Rattle.std.specs.Prelude.{◌≡◌, List};
ghost use Rattle.kp_kore.specs.Signature.{KoreSignature, injection, meaning_of};
ghost use Rattle.kp_kore.specs.Instance.{Valuation};
ghost use Rattle.kp_compile.specs.Spelled.{injection_name};
ghost use Rattle.kp_symbolic.specs.Terms.{Replaced};
ghost use Rattle.kp_symbolic.specs.States.{AreGiven, SymbolicState};
ghost use Rattle.kp_symbolic_laws.specs.Runs.{IsSortedState};
ghost use Rattle.kp_clause_substitution.specs.Substituted.{substituted};
ghost use Rattle.kp_solving.specs.Placing.{CanBePlaced, HasWrittenLiterals, HasPredicates, HasOneSortThen, HasInstancesUnder};

/// A state whose parts have the sorts of their places, with terms of the variables' sorts in their places, has exactly the
/// instances that it has where the variables stand for those of the terms: where these have values of their sorts, inj is what
/// it should be, and there is room for new names.
pub fn a_state_with_terms_in_place_of_variables_has_the_instances()
    ensures { (g : KoreSignature) (v : Valuation) (qs : List Replaced) (s : SymbolicState) → meaning_of g injection_name ≡ injection →
        CanBePlaced g qs s → HasWrittenLiterals g s → AreGiven g qs v s.variables → HasInstancesUnder g v qs s }
{}

/// A state whose parts have the sorts of their places, with terms of the variables' sorts in their places, has such parts, and
/// no variables but those of the terms and those in whose place none stands: where each name among these has one sort, and what
/// isn't opened is a predicate.
pub fn a_state_with_terms_in_place_of_variables_keeps_its_sorts()
    ensures { (g : KoreSignature) (qs : List Replaced) (s : SymbolicState) → CanBePlaced g qs s → HasPredicates s → HasOneSortThen g qs s → IsSortedState g (substituted g qs s) }
{}
