// Laws of the definitions.
ghost use Rattle.std.specs.Prelude.{◌≡◌, ◌↔◌, Some};
ghost use Rattle.serde_json.specs.Data.{Data};
ghost use Rattle.kp_kore.specs.Syntax.{KorePattern};
ghost use Rattle.kp_json.specs.Faults.{read, wrapped_reading};
ghost use Rattle.kp_json.specs.Trees.{SpellsWrapped};
ghost use Rattle.kp_json.specs.Written.{wrapped_pattern};

/// What is read of a tree is what it spells: a fault is told exactly where it spells no pattern.
#[tactic(auto, using(crate::proofs::Sound::wrapped_sound, crate::proofs::Complete::wrapped_complete))]
pub fn the_reading_is_what_is_spelled()
    ensures { (d : Data) (p : KorePattern) → SpellsWrapped d p ↔ (wrapped_reading d ≡ read p) }
{}

/// A tree spells at most one pattern.
#[tactic(auto, using(crate::proofs::Complete::one_pattern))]
pub fn a_tree_spells_one_pattern()
    ensures { (d : Data) (p q : KorePattern) → SpellsWrapped d p → SpellsWrapped d q → p ≡ q }
{}

/// A pattern that some tree spells has a written tree, which spells it.
#[tactic(auto, using(crate::proofs::RoundTrip::wrapped_written))]
pub fn what_is_written_spells_the_pattern()
    ensures { (d : Data) (p : KorePattern) → SpellsWrapped d p → (e : Data) × (wrapped_pattern p ≡ Some e) × SpellsWrapped e p }
{}

/// What is written of a pattern that some tree spells is read as that pattern.
#[tactic(auto, using(crate::proofs::RoundTrip::round_trip))]
pub fn what_is_written_is_read()
    ensures { (d e : Data) (p : KorePattern) → SpellsWrapped d p → wrapped_pattern p ≡ Some e → wrapped_reading e ≡ read p }
{}

/// What is written of a pattern spells no other pattern.
#[tactic(auto, using(crate::proofs::TreesBack::tree_back))]
pub fn what_is_written_spells_no_other_pattern()
    ensures { (p q : KorePattern) (tree : Data) → wrapped_pattern p ≡ Some tree → SpellsWrapped tree q → q ≡ p }
{}
