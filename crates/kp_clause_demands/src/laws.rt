// Laws of what literals say as demands.
ghost use Rattle.std.specs.Prelude.{◌≡◌, ◌↔◌, true, Some};
ghost use Rattle.kp_kore.specs.Hooks.{Comparison};
ghost use Rattle.kp_kore.specs.Signature.{KoreSignature};
ghost use Rattle.kp_kore.specs.Instance.{Valuation};
ghost use Rattle.kp_kore.specs.Interpretation.{compared};
ghost use Rattle.kp_symbolic.specs.States.{Literal, IsLiteralTrue};
ghost use Rattle.kp_symbolic.specs.WellFormed.{IsGivenAtom};
ghost use Rattle.kp_symbolic.specs.Plain.{Form, form_of};
ghost use Rattle.kp_demands.specs.Demands.{Assignment, HasWay};
ghost use Rattle.kp_clause_demands.specs.Comparing.{part_number, ways_of};
ghost use Rattle.kp_clause_demands.specs.Saying.{Says};
ghost use Rattle.kp_clause_demands.specs.declared.comparing.ComparedPart.{ComparedPart};

/// A comparison holds exactly where one of its ways is met.
pub fn comparisons_are_their_ways()
    ensures { (a : Assignment) (c : Comparison) (m n : ComparedPart) → HasWay a (ways_of c m n) ↔ (compared c (part_number a.wholes m) (part_number a.wholes n) ≡ true) }
{}

/// A literal with a form is true exactly where its form says so, where its variables have values of their sorts.
pub fn literals_say_their_forms()
    ensures { (g : KoreSignature) (v : Valuation) (l : Literal) (f : Form) → IsGivenAtom g v l.atom → form_of g l ≡ Some f → IsLiteralTrue g v l ↔ Says g v f }
{}
