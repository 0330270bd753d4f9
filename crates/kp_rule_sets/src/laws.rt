// What the index of a rule set leaves out.
ghost use Rattle.std.specs.Prelude.{◌≡◌, false};
ghost use Rattle.kp_kore.specs.Signature.{KoreSignature};
ghost use Rattle.kp_kore.specs.Instance.{Valuation};
ghost use Rattle.kp_kore.specs.Value.{Value};
ghost use Rattle.kp_rules.specs.Heads.{Meets};
ghost use Rattle.kp_rules.specs.Skeletons.{IsAdmitted};
ghost use Rattle.kp_rules.specs.declared.rule.Rewrite.{Rewrite};
ghost use Rattle.kp_rules.specs.declared.rule.Rule.{Rule};
ghost use Rattle.kp_rules.specs.declared.rule.RuleBody.TheVariants as body;
ghost use Rattle.kp_rules.specs.declared.skeleton.Skeleton.{Skeleton};
ghost use Rattle.kp_rule_sets.specs.Tops.{may_have, top_of};

/// The left term of a rule that may not have a value's head has no instance that is the value, so the rule doesn't fire;
/// a foreign one may not rewrite it.
pub fn other_rules_do_not_fire()
    ensures read { (g : KoreSignature) (rule : Rule) (r : Rewrite) (v : Valuation) (u : Value) → rule.body.value ≡ body.Rewrite r → may_have (top_of u) rule ≡ false → ¬ Meets g r v u }
    ensures foreign { (g : KoreSignature) (rule : Rule) (k : Skeleton) (u : Value) → rule.body.value ≡ body.Foreign k → may_have (top_of u) rule ≡ false → ¬ IsAdmitted g k u }
{}
