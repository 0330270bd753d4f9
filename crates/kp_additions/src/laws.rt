// What holds of modules that are added again.
ghost use Rattle.std.specs.Prelude.{◌≡◌, ℕ, Bool, List, ◌∷◌, ◌++◌};
ghost use Rattle.kp_book.specs.Books.{Opening, Registration};
ghost use Rattle.kp_additions.specs.Added.{IsAdded};

/// A text that is added again, with its own name or without it as before, is the same entry: it has the same id, and its
/// names mean what they meant.
pub fn a_text_that_is_added_again_is_the_same_entry()
    ensures { (o : Opening) (before after : List Registration) (r again : Registration) (text : List ℕ) (name_as_id : Bool) →
        IsAdded o before text name_as_id r → IsAdded o (before ++ r ∷ after) text name_as_id again → again ≡ r }
{}
