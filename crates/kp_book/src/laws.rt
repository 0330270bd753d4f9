// What stays when a book grows.
ghost use Rattle.std.specs.Prelude.{◌≡◌, List, Some};
ghost use Rattle.kp_kore.specs.Syntax.{Text};
ghost use Rattle.kp_kore.specs.Theory.{NumberedAxiom};
ghost use Rattle.kp_book.specs.Books.{Opening, Registration, Grows, meaning_in};

/// What a name means stays when the book grows.
pub fn the_meaning_of_a_name_stays()
    ensures { (o : Opening) (book later : List Registration) (name : Text) (axioms : List NumberedAxiom) → Grows book later →
        meaning_in o book name ≡ Some axioms → meaning_in o later name ≡ Some axioms }
{}
