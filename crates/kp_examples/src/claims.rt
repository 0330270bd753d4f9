// Claims over the example definition. Each function has no body: it carries computed examples.
ghost use Rattle.std.specs.Prelude.{◌≡◌, Some, None, [], ◌∷◌, codes};
ghost use Rattle.kp_signature.specs.Verify.{sort_differs};
ghost use Rattle.kp_toys.specs.Toys.{sort_int, sort_s};
ghost use Rattle.kp_toys.specs.ToysTheory.{toys_signature};
ghost use Rattle.kp_claim_sentences.specs.Claims.{IsStatedAs};
ghost use Rattle.kp_claim_sentences.specs.Faults.{early_fault};
ghost use Rattle.kp_examples.specs.Claims.{two, two_read, on_one_path, circular, unlabelled, foreign, of_two_sorts};
ghost use Rattle.kp_claims.specs.Faults.{one_path, no_label, repeated_label, unverified, foreign_symbol};

/// From count(2) to done, as a circularity too.
pub fn from_count_of_two_to_done()
    ensures read { IsStatedAs two two_read }
    ensures faultless { early_fault toys_signature [] two ≡ None }
    ensures circular { early_fault toys_signature [] circular ≡ None }
{}

/// A fault of each kind.
pub fn faults_of_claims()
    ensures one_path { early_fault toys_signature [] on_one_path ≡ Some one_path }
    ensures unlabelled { early_fault toys_signature [] unlabelled ≡ Some no_label }
    ensures repeated { early_fault toys_signature (codes "T.two" ∷ []) two ≡ Some (repeated_label (codes "T.two")) }
    ensures foreign { early_fault toys_signature [] foreign ≡ Some (foreign_symbol (codes "Lblother")) }
    ensures sorts { early_fault toys_signature [] of_two_sorts ≡ Some (unverified (sort_differs sort_s sort_int)) }
{}
