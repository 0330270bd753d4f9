// Laws of what follows a rule that chooses.
ghost use Rattle.std.specs.Prelude.{◌↔◌, List};
ghost use Rattle.kp_kore.specs.Syntax.{KoreSort};
ghost use Rattle.kp_kore.specs.Signature.{KoreSignature};
ghost use Rattle.kp_kore.specs.Value.{Value};
ghost use Rattle.kp_kore.specs.Instance.{Valuation};
ghost use Rattle.kp_kore.specs.Rules.{Rewrite};
ghost use Rattle.kp_kore.specs.Steps.{LeadsTo};
ghost use Rattle.kp_pattern_substitution.specs.Substitution.{ReplacedName};
ghost use Rattle.kp_successors.specs.Choices.{IsPutIn, SpellUnder, chosen_pattern};
ghost use Rattle.kp_successors.specs.Instances.{IsSomeInstance};

/// The instances of the right side, with the left term's variables put in as a valuation has them, are exactly where the
/// rule leads under that valuation.
pub fn a_chosen_pattern_has_the_successors()
    ensures { (g : KoreSignature) (s : KoreSort) (m : Rewrite) (rs : List ReplacedName) (v : Valuation) (next : Value) → IsPutIn m rs → SpellUnder g v rs →
        IsSomeInstance g (chosen_pattern s rs m.right m.ensured m.new_variables) next ↔ LeadsTo g m v next }
{}
