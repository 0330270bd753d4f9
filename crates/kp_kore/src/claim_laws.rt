// Laws of proofs that use claims as rules.
ghost use Rattle.std.specs.Prelude.{◌≡◌, ◌<◌, ◌+◌, ◌^◌, ◌++◌, false, List, [], ◌∷◌, length, map};
ghost use Rattle.std.specs.List.{AllByRecursion, AllZip};
ghost use Rattle.kp_kore.specs.Syntax.{Text};
ghost use Rattle.kp_kore.specs.Parts.{free_variables};
ghost use Rattle.kp_kore.specs.Signature.{KoreSignature};
ghost use Rattle.kp_kore.specs.Value.{Value};
ghost use Rattle.kp_kore.specs.Instance.{Valuation, GivesSorts, IsInstance};
ghost use Rattle.kp_kore.specs.Theory.{Theory, NumberedAxiom, rewrite_axioms_from, labels_of, rule_id, IsTheoryOfAxioms};
ghost use Rattle.kp_kore.specs.Steps.{AnyByRecursion, IsCompleteRun};
ghost use Rattle.kp_kore.specs.Claims.{ReachabilityClaim, IsReached, Holds, HoldsAfter};
ghost use Rattle.kp_kore.specs.Arcs.{HasNoFreshName};
ghost use Rattle.kp_kore.specs.Rules.{RewriteRule};
ghost use Rattle.kp_kore.specs.ClaimRules.{IsClaimRule, with_rules};
ghost use Rattle.kp_kore.specs.ClaimModules.{SortedClaim, claims_module, claim_axioms_from, IsAddedId, CanBeRule};
ghost use Rattle.kp_kore.specs.ProofTrees.{Proof};

/// A claim holds where each complete run from its left side has a member that is reached.
pub fn a_claim_that_each_run_reaches_holds()
    ensures { (t : Theory) (claim : ReachabilityClaim) →
        ((v : Valuation) (c : Value) (more : List Value) → GivesSorts t.signature v (free_variables claim.left) → IsInstance t.signature v claim.left c →
        IsCompleteRun t c more → AnyByRecursion (IsReached t.signature claim v) (c ∷ more)) → Holds t claim }
{}

/// A tree from a claim's left side makes the claim hold one step further than its circularities, if its dependencies
/// hold: these are used as rules anywhere, the circularities behind progress alone.
pub fn a_proof_holds_one_step_further()
    ensures { (t : Theory) (dependencies circularities : List ReachabilityClaim) (claim : ReachabilityClaim) → HasNoFreshName claim →
        AllByRecursion (Holds t) dependencies → Proof t dependencies circularities claim false claim.left → HoldsAfter t circularities claim }
{}

/// Claims each of which holds one step further than all of them hold.
pub fn claims_that_hold_one_step_further_hold()
    ensures { (t : Theory) (claims : List ReachabilityClaim) → AllByRecursion (HoldsAfter t claims) claims → AllByRecursion (Holds t) claims }
{}

/// A tree that uses its own claim behind progress alone makes it hold, if its dependencies hold.
pub fn a_proof_with_its_claim_as_circularity_is_sound()
    ensures { (t : Theory) (dependencies : List ReachabilityClaim) (claim : ReachabilityClaim) → HasNoFreshName claim →
        AllByRecursion (Holds t) dependencies → Proof t dependencies (claim ∷ []) claim false claim.left → Holds t claim }
{}

/// The same of a tree that doesn't use its own claim.
pub fn a_proof_without_circularities_is_sound()
    ensures { (t : Theory) (dependencies : List ReachabilityClaim) (claim : ReachabilityClaim) → HasNoFreshName claim →
        AllByRecursion (Holds t) dependencies → Proof t dependencies [] claim false claim.left → Holds t claim }
{}

/// The rewrite axioms of the module that holds claims are the claims', in order, numbered from 1.
pub fn a_module_of_claims_holds_their_axioms()
    ensures { (main id : Text) (cs : List SortedClaim) → rewrite_axioms_from id 1 (claims_module main cs).sentences ≡ claim_axioms_from id 1 cs }
{}

/// Behind main's axioms they make main's theory with the claims as rules, and main's rules keep their ids.
pub fn a_module_of_claims_means_main_with_the_claims_as_rules()
    ensures theory { (g : KoreSignature) (axioms : List NumberedAxiom) (id : Text) (cs : List SortedClaim) (t m : Theory) → IsAddedId id → 1 + length cs < 2 ^ 64 →
        AllByRecursion (CanBeRule g) cs → IsTheoryOfAxioms g axioms t → IsTheoryOfAxioms g (axioms ++ claim_axioms_from id 1 cs) m →
        (rs : List RewriteRule) × (m ≡ with_rules t rs) × AllZip IsClaimRule (map (λ c. c.claim) cs) rs }
    ensures ids { (axioms : List NumberedAxiom) (id : Text) (cs : List SortedClaim) (a : NumberedAxiom) →
        rule_id (labels_of (axioms ++ claim_axioms_from id 1 cs)) a ≡ rule_id (labels_of axioms) a }
{}
