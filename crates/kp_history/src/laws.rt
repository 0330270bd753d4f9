// What follows from the rule of a history.
ghost use Rattle.std.specs.Prelude.{◌≡◌, ◌≢◌, ◌⊎◌, ◌≤◌, ◌<◌, ℕ, Option, true, length};
ghost use mathlib.Core.Option.{some};
ghost use mathlib.Core.List.{IsPrefix};
ghost use lib.ListN.{get_elem?};
ghost use Rattle.atomic_table.specs.Table.{State};
ghost use Rattle.kp_history.specs.Rule.{IsKept};
ghost use Rattle.kp_history.specs.Views.{times};
ghost use Rattle.kp_history.specs.declared.view.Terms.{Terms};
ghost use Rattle.kp_history.specs.declared.view.View.{View};

use crate::archive::Archive;

/// Of two lists that passes have seen one begins the other.
pub fn of_two_lists_seen_one_begins_the_other<B: Archive<E, K>, E, K>()
    ensures { (k : Terms K) (s : State (Option B) (View E K)) → IsKept B.entries B.sound B.legal k s → (i j : ℕ) (v w : View E K) → get_elem? s.views i ≡ some v → get_elem? s.views j ≡ some w → IsPrefix v.seen w.seen ⊎ IsPrefix w.seen v.seen }
{}

/// No two passes have the turn.
pub fn one_pass_has_the_turn<B: Archive<E, K>, E, K>()
    ensures { (k : Terms K) (s : State (Option B) (View E K)) → IsKept B.entries B.sound B.legal k s → (i j : ℕ) (v w : View E K) → i ≢ j → get_elem? s.views i ≡ some v → get_elem? s.views j ≡ some w → v.turn ≡ true → w.turn ≡ true → ⊥ }
{}

/// A pass with all places is the only one that isn't spent.
pub fn a_pass_with_all_places_is_alone<B: Archive<E, K>, E, K>()
    ensures { (k : Terms K) (s : State (Option B) (View E K)) → IsKept B.entries B.sound B.legal k s → (i j : ℕ) (v w : View E K) → i ≢ j → get_elem? s.views i ≡ some v → get_elem? s.views j ≡ some w → v.places ≡ k.seats → w.places ≡ 0 }
{}
