// Laws of right replies: what each makes the prover's arc say.
ghost use Rattle.std.specs.Prelude.{◌≡◌, ◌≤◌, ◌++◌, ℕ, suc, Bool, true, false, List, [], ◌∷◌, map};
ghost use Rattle.std.specs.List.{list_any};
ghost use Rattle.std.specs.Str.{bytes_eq};
ghost use Rattle.kp_kore.specs.Syntax.{Text, KoreSort, KorePattern};
ghost use Rattle.kp_kore.specs.Parts.{free_variables};
ghost use Rattle.kp_kore.specs.Value.{Value};
ghost use Rattle.kp_kore.specs.Instance.{IsInstance, conjoined_terms};
ghost use Rattle.kp_kore.specs.Rules.{RewriteRule};
ghost use Rattle.kp_kore.specs.Theory.{Theory};
ghost use Rattle.kp_kore.specs.Steps.{IsUnknown, NoneFires, StepsIn};
ghost use Rattle.kp_kore.specs.Claims.{ReachabilityClaim};
ghost use Rattle.kp_kore.specs.ClaimRules.{with_rules, MayUse};
ghost use Rattle.kp_kore.specs.ClaimModules.{SortedClaim};
ghost use Rattle.kp_kore.specs.AtHand.{OfEach, HasSome};
ghost use Rattle.kp_kore.specs.Onward.{Leads, Passes};
ghost use Rattle.kp_kore.specs.Cases.{NextState, HasTurnAlone, HaveOneSort, AreNextStates};
ghost use Rattle.kp_kore.specs.Arcs.{EdgeSays, SplitSays, BranchSays, CoverSays, VacuousSays, StuckSays};
ghost use Rattle.kp_kore.specs.Children.{split_child, branch_child, target_of};

/// One or more steps that pass no listed rule make an edge.
pub fn steps_past_no_listed_rule_make_an_edge()
    ensures { (m : Theory) (listed claims : List Text) (s t : KorePattern) (d : ℕ) → 1 ≤ d → Leads m s t d → Passes m listed s d →
        ((id : Text) → list_any (bytes_eq id) claims ≡ true → list_any (bytes_eq id) listed ≡ true) → EdgeSays m claims s t d }
{}

/// Steps that a terminal rule ends make one, if no claim's rule is that rule.
pub fn a_terminal_rule_ends_an_edge()
    ensures { (m : Theory) (listed claims : List Text) (s t : KorePattern) (n : ℕ) (id : Text) → Leads m s t (suc n) → Passes m listed s n →
        OfEach m.signature [] s (λ v c. (later : Value) → StepsIn m n c later → HasTurnAlone m id later) →
        ((x : Text) → list_any (bytes_eq x) claims ≡ true → list_any (bytes_eq x) listed ≡ true) → list_any (bytes_eq id) claims ≡ false → EdgeSays m claims s t (suc n) }
{}

/// The predicates of right next states at depth 0 split a state of one term.
pub fn right_next_states_make_a_split()
    ensures { (m : Theory) (sort : KoreSort) (s t term : KorePattern) (nexts : List NextState) → conjoined_terms s ≡ term ∷ [] →
        Leads m s t 0 → AreNextStates m s t nexts → SplitSays m s (map (λ n. split_child sort s n.predicate) nexts) }
{}

/// Right next states at depth 0 are the children of a branch.
pub fn right_next_states_make_a_branch()
    ensures { (m : Theory) (s t : KorePattern) (nexts : List NextState) → Leads m s t 0 → OfEach m.signature (s ∷ []) t (λ v c. ¬ IsUnknown m c) →
        AreNextStates m s t nexts → BranchSays m s (map branch_child nexts) }
{}

/// A state that implies the claim's target is covered, and one without an instance beside it is vacuous.
pub fn implying_the_target_makes_a_cover()
    ensures cover { (t : Theory) (c : SortedClaim) (s : KorePattern) → HaveOneSort (free_variables c.claim.left ++ free_variables c.claim.right) →
        OfEach t.signature (target_of c ∷ []) s (λ v u. IsInstance t.signature v (target_of c) u) → CoverSays t c.claim s }
    ensures vacuous { (t : Theory) (c : SortedClaim) (s : KorePattern) → HaveOneSort (free_variables c.claim.left ++ free_variables c.claim.right) →
        ¬ HasSome t.signature (target_of c ∷ []) s → VacuousSays t c.claim s }
{}

/// A vacuous reply at depth 0 makes a vacuous node.
pub fn a_vacuous_reply_makes_a_vacuous_node()
    ensures { (m : Theory) (claim : ReachabilityClaim) (s t : KorePattern) → Leads m s t 0 → ¬ HasSome m.signature (s ∷ []) t → VacuousSays m claim s }
{}

/// A stuck reply at depth 0 makes a stuck node; what is stuck with claims as rules is stuck without them.
pub fn a_stuck_reply_makes_a_stuck_node()
    ensures stuck { (m : Theory) (s t : KorePattern) → Leads m s t 0 → OfEach m.signature (s ∷ []) t (λ v c. NoneFires m c × ¬ IsUnknown m c) → StuckSays m s }
    ensures in_main { (t : Theory) (dependencies circularities : List ReachabilityClaim) (progress : Bool) (rs : List RewriteRule) (s : KorePattern) →
        MayUse dependencies circularities progress rs → StuckSays (with_rules t rs) s → StuckSays t s }
{}
