// What keeps a book legal, what extends it, and what an id means in it.
ghost use Rattle.std.specs.Prelude.{◌≡◌, ◌<◌, Bool, List, ℕ, [], ◌∷◌, ◌++◌, Some, false, length};
ghost use Rattle.std.specs.List.{AllByRecursion, AllZip};
ghost use Rattle.kp_kore.specs.Syntax.{KoreModule};
ghost use Rattle.kp_text.specs.Spelling.{SpellsModule};
ghost use Rattle.kp_kore.specs.Theory.{NumberedAxiom, imports_in};
ghost use Rattle.kp_book.specs.Books.{Opening, Registration, binds, extended, meaning_in, most_entries};
ghost use Rattle.kp_modules.specs.Made.{IsSetOf};
ghost use Rattle.kp_registry.specs.Legal.{Fits, IsExtension, IsLegal, id_of as stated_id};
ghost use mathlib.Core.List.{IsPrefix};
ghost use Rattle.kp_modules.specs.Openings.{IsTableOf};
ghost use Rattle.kp_modules.specs.declared.table.ModuleTable.{ModuleTable};
ghost use Rattle.kp_registry.specs.Passes.{HasLegalBook, HasSeen, IsEntryOf, own_name_asked};
ghost use Rattle.kp_registry.specs.Refusals.{own_name_of};
ghost use Rattle.kp_registry.specs.declared.seen.Entry.{Entry};

/// An entry that fits behind a legal book with room for it makes a legal book.
pub fn a_fitting_entry_keeps_a_book_legal()
    ensures { (o : Opening) (book : List Registration) (r : Registration) → IsLegal o book → length book < most_entries → Fits o book r → IsLegal o (book ++ r ∷ []) }
{}

/// An entry whose rule set is that of a module over what its imports mean in a book is a registration that extends the
/// book: what `prepare` makes of the rule set that `extend` gives over what `look` answers.
pub fn an_extended_entry_extends_the_book()
    ensures { (o : Opening) (book : List Registration) (m : KoreModule) (also_name : Bool) (imports : List (List NumberedAxiom)) (e : Entry) → SpellsModule e.text.items m →
        AllZip (λ name axioms. meaning_in o book name ≡ Some axioms) (imports_in m.sentences) imports → e.id ≡ stated_id e.text.items → own_name_of e ≡ own_name_asked also_name m.name →
        IsSetOf o.signature (extended imports (stated_id e.text.items) m) e.rules.value → (r : Registration) × IsEntryOf o.signature r e × IsExtension o book r }
{}

/// An id means what the first entry that binds it holds, however often its text is entered again.
pub fn an_id_means_its_first_entry()
    ensures { (o : Opening) (before after : List Registration) (r : Registration) → let the_before = before ++ r ∷ after in IsLegal o the_before → AllByRecursion (λ q. binds r.id q ≡ false) before → meaning_in o the_before r.id ≡ Some r.axioms }
{}

/// A legal book is known by its entries: two legal books of the same entries are one.
pub fn a_legal_book_is_known_by_its_entries()
    ensures { (o : Opening) (book other : List Registration) (es : List Entry) → IsLegal o book → IsLegal o other → HasSeen o.signature book es → HasSeen o.signature other es → book ≡ other }
{}

/// A legal book of what a pass had seen goes on to one of what it has seen.
pub fn a_seen_book_goes_on()
    ensures { (o : Opening) (t : ModuleTable) (xs ys : List Entry) (book : List Registration) → IsTableOf o t → HasLegalBook t ys → IsPrefix xs ys → HasSeen o.signature book xs → IsLegal o book →
        (more : List Registration) × HasSeen o.signature (book ++ more) ys × IsLegal o (book ++ more) }
{}
