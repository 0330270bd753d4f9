// Laws of substitution.
ghost use Rattle.std.specs.Prelude.{◌≡◌, ◌↔◌, List, not};
ghost use Rattle.std.specs.List.{filter};
ghost use Rattle.kp_kore.specs.Syntax.{KorePattern};
ghost use Rattle.kp_kore.specs.Parts.{free_variables, is_term};
ghost use Rattle.kp_kore.specs.Signature.{KoreSignature};
ghost use Rattle.kp_kore.specs.Instance.{Valuation, instance, IsTrueUnder};
ghost use Rattle.kp_pattern_substitution.specs.Substitution.{ReplacedName, substituted, is_replaced, AreClosed, with_replaced};

/// Instances and truth of a substituted pattern are those of the pattern under the valuation with the instances of the
/// terms for their names.
#[tactic(auto, using(crate::proofs::Substituted::substituted_instance, crate::proofs::Substituted::substituted_truth))]
pub fn what_is_put_in_is_what_the_variables_stand_for()
    ensures instances { (g : KoreSignature) (rs : List ReplacedName) (v : Valuation) (t : KorePattern) →
        instance g v (substituted rs t) ≡ instance g (with_replaced g rs v) t }
    ensures truth { (g : KoreSignature) (rs : List ReplacedName) (v : Valuation) (p : KorePattern) →
        AreClosed rs → IsTrueUnder g v (substituted rs p) ↔ IsTrueUnder g (with_replaced g rs v) p }
{}

/// The free variables that stay are those for whose names nothing stands; a term stays a term.
#[tactic(auto, using(crate::proofs::SubstitutedForms::substituted_free, crate::proofs::Substituted::substituted_is_term))]
pub fn other_variables_stay()
    ensures variables { (rs : List ReplacedName) (p : KorePattern) →
        AreClosed rs → free_variables (substituted rs p) ≡ filter (λ x. not (is_replaced rs x.name)) (free_variables p) }
    ensures term { (rs : List ReplacedName) (p : KorePattern) → AreClosed rs → is_term (substituted rs p) ≡ is_term p }
{}
