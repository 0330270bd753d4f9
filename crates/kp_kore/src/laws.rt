// Laws of the definitions.
ghost use Rattle.std.specs.Prelude.{◌≡◌, ◌<◌, ◌↔◌, ◌⊎◌, ◌-◌, ◌^◌, ℕ, pos, negsuc, neg_ℤ, true, false, List, [], ◌∷◌, IsTrue, Some, None, codes, ⊤, length, ◌+◌};
ghost use Rattle.std.specs.Prelude.{◌++◌};
ghost use Rattle.std.specs.List.{Contains, AllByRecursion};
ghost use Rattle.kp_kore.specs.Syntax.{Text, KoreSort, KoreSorts, no_sorts, next_sort, KorePattern, KorePatterns, no_patterns, next_pattern, application, conjunction, disjunction, negation, implication, top, bottom, exists, forall, string_literal};
ghost use Rattle.kp_kore.specs.Parts.{SortedName, is_term, free_variables};
ghost use Rattle.kp_kore.specs.Signature.{KoreSignature, meaning_of, injection};
ghost use Rattle.kp_kore.specs.Hooks.{Hook, Arithmetic, addition, subtraction, multiplication, equal, different, less, at_most, greater, at_least, both, either, implies, same, other, whole_arithmetic, whole_comparison, truth_connective, truth_negation, values_equal, values_different, hook_table, hook_named};
ghost use Rattle.kp_kore.specs.Value.{Value, whole, truth, HasSort, values_same, no_values, next_value};
ghost use Rattle.kp_kore.specs.Forms.{injected, marked, marked_by, two, wholes, truths};
ghost use Rattle.kp_kore.specs.Interpretation.{interpreted};
ghost use Rattle.kp_kore.specs.Instance.{Valuation, AgreesOn, instance, IsInstance, IsConjunctionInstance, IsTrueUnder};
ghost use Rattle.kp_kore.specs.Rules.{RewriteRule, RuleBody, priority_of};
ghost use Rattle.kp_kore.specs.Claims.{ReachabilityClaim, Holds};
ghost use Rattle.kp_kore.specs.Theory.{Theory};
ghost use Rattle.kp_kore.specs.Steps.{Fires, HasTurn, NoneFires};
ghost use Rattle.kp_kore.specs.Replies.{After};
ghost use Rattle.kp_kore.specs.AtHand.{HasNewNames};
ghost use Rattle.kp_kore.specs.Onward.{Leads, Passes};
ghost use Rattle.kp_kore.specs.Scopes.{LeadsIn, IsWithin, AreExtended};
ghost use Rattle.kp_kore.specs.Division.{Part, reading, IsPartOf, IsHeldBy, Divides, NoneOf};

/// A term has exactly one instance under a valuation.
#[tactic(auto, using(crate::proofs::InstanceLemmas::one_instance))]
pub fn each_term_has_one_instance()
    ensures { (g : KoreSignature) (v : Valuation) (t : KorePattern) (u : Value) →
        is_term t ≡ true → IsInstance g v t u ↔ (u ≡ instance g v t) }
{}

/// A conjunction of one term and predicates has at most one.
#[tactic(auto, using(crate::proofs::InstanceLemmas::at_most_one_instance))]
pub fn each_conjunction_has_at_most_one_instance()
    ensures { (g : KoreSignature) (v : Valuation) (p : KorePattern) (u w : Value) →
        IsConjunctionInstance g v p u → IsConjunctionInstance g v p w → u ≡ w }
{}

/// Valuations that agree on a term's variables give it the same instance.
#[tactic(auto, using(crate::proofs::InstanceLemmas::same_instance))]
pub fn instances_depend_on_the_variables_alone()
    ensures { (g : KoreSignature) (v w : Valuation) (t : KorePattern) →
        AgreesOn (free_variables t) v w → instance g w t ≡ instance g v t }
{}

/// The instance of a term without variables doesn't depend on the valuation.
#[tactic(auto, using(crate::proofs::InstanceLemmas::closed_instance))]
pub fn closed_terms_have_one_instance_everywhere()
    ensures { (g : KoreSignature) (v w : Valuation) (t : KorePattern) →
        free_variables t ≡ [] → instance g w t ≡ instance g v t }
{}

/// inj is the identity on values, so inj through two sorts is inj through one.
#[tactic(auto, using(crate::proofs::InstanceLemmas::instance_under_inj, crate::proofs::InstanceLemmas::instance_under_two_inj))]
pub fn inj_is_the_identity_on_values()
    ensures identity { (g : KoreSignature) (v : Valuation) (f : Text) (ss : KoreSorts) (t : KorePattern) →
        meaning_of g f ≡ injection →
        instance g v (application f ss (next_pattern t no_patterns)) ≡ instance g v t }
    ensures two_are_one { (g : KoreSignature) (v : Valuation) (f : Text) (a b c : KoreSort) (t : KorePattern) →
        meaning_of g f ≡ injection →
        instance g v (injected f b c (injected f a b t)) ≡ instance g v (injected f a c t) }
{}

/// The conjunction of none is true, that of one is its member; the disjunction of none is false, that of one is
/// its member.
pub fn connectives_of_none_and_of_one()
    ensures none_conjoined { (g : KoreSignature) (v : Valuation) (s : KoreSort) →
        IsTrueUnder g v (conjunction s no_patterns) ↔ IsTrueUnder g v (top s) }
    ensures one_conjoined { (g : KoreSignature) (v : Valuation) (s : KoreSort) (p : KorePattern) →
        IsTrueUnder g v (conjunction s (next_pattern p no_patterns)) ↔ IsTrueUnder g v p }
    ensures none_disjoined { (g : KoreSignature) (v : Valuation) (s : KoreSort) →
        IsTrueUnder g v (disjunction s no_patterns) ↔ IsTrueUnder g v (bottom s) }
    ensures one_disjoined { (g : KoreSignature) (v : Valuation) (s : KoreSort) (p : KorePattern) →
        IsTrueUnder g v (disjunction s (next_pattern p no_patterns)) ↔ IsTrueUnder g v p }
{}

/// Over a sort without values, what exists is false and what holds for all is true.
pub fn quantifiers_over_a_sort_without_values()
    ensures none_exists { (g : KoreSignature) (v : Valuation) (s t : KoreSort) (x : Text) (p : KorePattern) →
        ((u : Value) → ¬ HasSort g t u) → ¬ IsTrueUnder g v (exists s x t p) }
    ensures holds_for_all { (g : KoreSignature) (v : Valuation) (s t : KoreSort) (x : Text) (p : KorePattern) →
        ((u : Value) → ¬ HasSort g t u) → IsTrueUnder g v (forall s x t p) }
{}

/// The test whether two values are the same decides it.
#[tactic(auto, using(crate::proofs::SameLemmas::same_values_decide))]
pub fn the_test_of_values_decides()
    ensures { (u v : Value) → (values_same u v ≡ true) ↔ (u ≡ v) }
{}

/// Of the rules of a theory that fire, only those of the smallest priority number have their turn.
#[tactic(auto, using(crate::proofs::TurnLemmas::no_later_turn))]
pub fn a_smaller_priority_number_goes_first()
    ensures { (t : Theory) (r q : RewriteRule) (c : Value) →
        Contains t.rules r → Fires t.signature r.body c → r.priority < q.priority → ¬ HasTurn t q c }
{}

/// owise goes behind the usual 50 and before 201.
pub fn owise_goes_late()
    ensures usual { priority_of no_patterns ≡ Some 50 }
    ensures owise { priority_of (next_pattern (marked (codes "owise")) no_patterns) ≡ Some 200 }
    ensures stated { priority_of (next_pattern (marked_by (codes "priority") (codes "201")) no_patterns) ≡ Some 201 }
    ensures behind_and_before { (50 < 200) × (200 < 201) }
{}

/// Whole numbers are of any size: nothing wraps at 128 bits.
pub fn numbers_have_no_end()
    ensures sum { interpreted (whole_arithmetic addition) (wholes (pos (2 ^ 127 - 1)) (pos 1)) ≡ whole (pos (2 ^ 127)) }
    ensures difference { interpreted (whole_arithmetic subtraction) (wholes (neg_ℤ (pos (2 ^ 127))) (pos 1)) ≡ whole (negsuc (2 ^ 127)) }
    ensures product { interpreted (whole_arithmetic multiplication) (wholes (pos (2 ^ 127)) (negsuc (2 ^ 127 - 1))) ≡ whole (neg_ℤ (pos (2 ^ 254))) }
    ensures less { interpreted (whole_comparison less) (wholes (pos (2 ^ 128)) (pos (2 ^ 128 + 1))) ≡ truth true }
    ensures not_less { interpreted (whole_comparison less) (wholes (pos 3) (pos 3)) ≡ truth false }
    ensures at_most { interpreted (whole_comparison at_most) (wholes (pos 3) (pos 3)) ≡ truth true }
    ensures greater { interpreted (whole_comparison greater) (wholes (pos 0) (negsuc 0)) ≡ truth true }
    ensures at_least { interpreted (whole_comparison at_least) (wholes (negsuc 0) (pos 0)) ≡ truth false }
    ensures equal { interpreted (whole_comparison equal) (wholes (pos 2) (pos 2)) ≡ truth true }
    ensures different { interpreted (whole_comparison different) (wholes (pos 2) (pos 2)) ≡ truth false }
{}

/// The functions on truth values, at each row that tells one from another.
pub fn truth_values_connect()
    ensures both { (interpreted (truth_connective both) (truths true true) ≡ truth true)
        × (interpreted (truth_connective both) (truths true false) ≡ truth false) }
    ensures either { (interpreted (truth_connective either) (truths false true) ≡ truth true)
        × (interpreted (truth_connective either) (truths false false) ≡ truth false) }
    ensures implies { (interpreted (truth_connective implies) (truths true false) ≡ truth false)
        × (interpreted (truth_connective implies) (truths false true) ≡ truth true)
        × (interpreted (truth_connective implies) (truths false false) ≡ truth true) }
    ensures same { (interpreted (truth_connective same) (truths false false) ≡ truth true)
        × (interpreted (truth_connective same) (truths false true) ≡ truth false) }
    ensures other { (interpreted (truth_connective other) (truths false false) ≡ truth false)
        × (interpreted (truth_connective other) (truths false true) ≡ truth true) }
    ensures negation { (interpreted truth_negation (next_value (truth true) no_values) ≡ truth false)
        × (interpreted truth_negation (next_value (truth false) no_values) ≡ truth true) }
{}

/// KEQUAL compares any two values.
#[tactic(auto, using(crate::proofs::SameLemmas::equal_call, crate::proofs::SameLemmas::different_call))]
pub fn values_compare()
    ensures equal { (u v : Value) → (interpreted values_equal (two u v) ≡ truth true) ↔ (u ≡ v) }
    ensures different { (u v : Value) → (interpreted values_different (two u v) ≡ truth false) ↔ (u ≡ v) }
{}

/// The names of hooks that have a meaning: nineteen, and no other.
pub fn hooks_have_names()
    ensures nineteen { length hook_table ≡ 19 }
    ensures sum { hook_named (codes "INT.add") ≡ Some (whole_arithmetic addition) }
    ensures difference { hook_named (codes "INT.sub") ≡ Some (whole_arithmetic subtraction) }
    ensures product { hook_named (codes "INT.mul") ≡ Some (whole_arithmetic multiplication) }
    ensures comparisons { (hook_named (codes "INT.eq") ≡ Some (whole_comparison equal))
        × (hook_named (codes "INT.ne") ≡ Some (whole_comparison different))
        × (hook_named (codes "INT.lt") ≡ Some (whole_comparison less))
        × (hook_named (codes "INT.le") ≡ Some (whole_comparison at_most))
        × (hook_named (codes "INT.gt") ≡ Some (whole_comparison greater))
        × (hook_named (codes "INT.ge") ≡ Some (whole_comparison at_least)) }
    ensures division { hook_named (codes "INT.tdiv") ≡ None }
{}

/// Valuations that agree on a predicate's free variables give it the same truth: binders hide their names.
#[tactic(auto, using(crate::proofs::TruthLemmas::same_truth))]
pub fn truth_depends_on_the_free_variables_alone()
    ensures { (g : KoreSignature) (p : KorePattern) (v w : Valuation) →
        AgreesOn (free_variables p) v w → IsTrueUnder g v p ↔ IsTrueUnder g w p }
{}

/// Truth that can't be refuted is truth.
#[tactic(auto, using(crate::proofs::TruthLemmas::stable_truth))]
pub fn what_is_not_refuted_is_true()
    ensures { (g : KoreSignature) (p : KorePattern) (v : Valuation) → ¬ ¬ IsTrueUnder g v p → IsTrueUnder g v p }
{}

/// The connectives and quantifiers are classical: not both is one of the opposites, p implies q where p is false or q is
/// true, denied twice is itself, and what doesn't hold for all has a counterexample.
#[tactic(auto, using(crate::proofs::TruthLemmas::not_both, crate::proofs::TruthLemmas::implied_either, crate::proofs::TruthLemmas::twice_denied, crate::proofs::TruthLemmas::not_all))]
pub fn connectives_and_quantifiers_are_classical()
    ensures not_both { (g : KoreSignature) (v : Valuation) (s : KoreSort) (p q : KorePattern) →
        IsTrueUnder g v (negation s (conjunction s (next_pattern p (next_pattern q no_patterns))))
        ↔ IsTrueUnder g v (disjunction s (next_pattern (negation s p) (next_pattern (negation s q) no_patterns))) }
    ensures implied { (g : KoreSignature) (v : Valuation) (s : KoreSort) (p q : KorePattern) →
        IsTrueUnder g v (implication s p q)
        ↔ IsTrueUnder g v (disjunction s (next_pattern (negation s p) (next_pattern q no_patterns))) }
    ensures twice { (g : KoreSignature) (v : Valuation) (s : KoreSort) (p : KorePattern) →
        IsTrueUnder g v (negation s (negation s p)) ↔ IsTrueUnder g v p }
    ensures not_all { (g : KoreSignature) (v : Valuation) (s t : KoreSort) (x : Text) (p : KorePattern) →
        IsTrueUnder g v (negation s (forall s x t p)) ↔ IsTrueUnder g v (exists s x t (negation s p)) }
{}

/// The instances of a pattern depend on its free variables alone, also of a conjunction and under `\exists`.
#[tactic(auto, using(crate::proofs::ConjunctionLemmas::same_pattern_instance))]
pub fn instances_of_patterns_depend_on_the_free_variables_alone()
    ensures { (g : KoreSignature) (p : KorePattern) (v w : Valuation) (u : Value) →
        AgreesOn (free_variables p) v w → IsInstance g v p u → IsInstance g w p u }
{}

/// What is so many steps after a state are two facts: where the steps lead, and what they pass.
pub fn after_is_to_lead_and_to_pass()
    ensures leads { (t : Theory) (listed : List Text) (s s' : KorePattern) (d : ℕ) → After t listed s s' d → Leads t s s' d }
    ensures passes { (t : Theory) (listed : List Text) (s s' : KorePattern) (d : ℕ) → After t listed s s' d → Passes t listed s d }
    ensures both { (t : Theory) (listed : List Text) (s s' : KorePattern) (d : ℕ) →
        Leads t s s' d → Passes t listed s d → After t listed s s' d }
{}

/// Runs over scopes compose, whatever variables the state between them has lost.
pub fn runs_compose()
    ensures { (t : Theory) (a b d : List SortedName) (s s' s'' : KorePattern) (n m : ℕ) →
        IsWithin t.signature a b → IsWithin t.signature b d →
        LeadsIn t a b s s' n → LeadsIn t b d s' s'' m → LeadsIn t a d s s'' (n + m) }
{}

/// A run over a scope leads where the variables of its two states say.
#[tactic(auto, using(crate::proofs::RunLemmas::leads_of))]
pub fn runs_over_a_scope_lead()
    ensures { (t : Theory) (s s' : KorePattern) (greater : List SortedName) (d : ℕ) →
        IsWithin t.signature (free_variables s') greater → AreExtended t.signature s s' greater → HasNewNames s s s' →
        LeadsIn t (free_variables s) greater s s' d → Leads t s s' d }
{}

/// A division of which one part is divided further, where one rule more doesn't fire, is a division; a part that holds
/// nothing falls away.
pub fn parts_divide()
    ensures excluded { (g : KoreSignature) (bodies : List RuleBody) (body : RuleBody) (s p : Part) (ps qs rs : List Part) →
        Divides (reading g) g (NoneOf g bodies) s (ps ++ p ∷ qs) → IsPartOf (reading g) g s p →
        AllByRecursion (IsPartOf (reading g) g p) rs → Divides (reading g) g (λ c. ¬ Fires g body c) p rs →
        Divides (reading g) g (NoneOf g (body ∷ bodies)) s (ps ++ (rs ++ qs)) }
    ensures empty { (g : KoreSignature) (bodies : List RuleBody) (s p : Part) (ps qs : List Part) →
        Divides (reading g) g (NoneOf g bodies) s (ps ++ p ∷ qs) →
        ((v : Valuation) (c : Value) → ¬ IsHeldBy (reading g) g s p v c) →
        Divides (reading g) g (NoneOf g bodies) s (ps ++ qs) }
{}

/// Where `turns` are all rules that may have a turn on a configuration: if none of these fires, no rule fires; if none
/// of a smaller priority number fires, a rule that fires has its turn. Nothing decides whether a rule fires.
#[tactic(auto, using(crate::proofs::TurnLemmas::none_fires, crate::proofs::TurnLemmas::has_turn))]
pub fn excluding_the_turns_is_enough()
    ensures none { (t : Theory) (turns : List RewriteRule) (c : Value) →
        ((r : RewriteRule) → Contains t.rules r → HasTurn t r c → Contains turns r) →
        AllByRecursion (λ r. ¬ Fires t.signature r.body c) turns → NoneFires t c }
    ensures turn { (t : Theory) (turns : List RewriteRule) (r : RewriteRule) (c : Value) →
        ((q : RewriteRule) → Contains t.rules q → HasTurn t q c → Contains turns q) →
        AllByRecursion (λ q. q.priority < r.priority → ¬ Fires t.signature q.body c) turns →
        Fires t.signature r.body c → HasTurn t r c }
{}
