// Laws of the definitions.
ghost use Rattle.std.specs.Prelude.{◌↔◌, IsTrue, List};
ghost use Rattle.kp_kore.specs.Syntax.{KoreSort};
ghost use Rattle.kp_kore.specs.Signature.{IsBelow, is_below};

/// The test `is_below` tells the reflexive and transitive closure of the pairs.
pub fn the_test_tells_what_is_below()
    ensures { (pairs : List (KoreSort × KoreSort)) (a b : KoreSort) → IsTrue (is_below pairs a b) ↔ IsBelow pairs a b }
{}
