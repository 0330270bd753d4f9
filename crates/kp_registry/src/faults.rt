// Why a module can't be entered into a book.
ghost use Rattle.std.specs.Prelude.{◌≡◌, ◌<◌, length, None};
ghost use Rattle.kp_book.specs.Books.{most_entries};
ghost use Rattle.kp_registry.specs.Passes.{AtEachSeenBy, IsReady, IsSound};
ghost use Rattle.kp_registry.specs.Refusals.{TellsAlsoDuplicate, TellsDuplicate, TellsFault, own_name_of};

use crate::book::RegisterFault;
use crate::entries::MOST_ENTRIES;
use crate::seen::{Book, Ready};
use kp_modules::ModuleTable;

/// Why a module can't be entered: its id before its own name, and then the number of entries.
pub(crate) fn fault(table: &ModuleTable, book: &Book, ready: &Ready) -> Option<RegisterFault>
    requires sound { IsSound book.now }
    requires ready { IsReady ready.now }
    ensures fault { AtEachSeenBy table.now book.now.entries.items (λ o registrations. TellsFault o registrations ready.now.entry result) }
    ensures few { result ≡ None → length book.now.entries.items < most_entries }
{
    if let Some(entry) = duplicate(table, book, &ready.entry.text, ready.id_name.as_str()) {
        return Some(RegisterFault::Duplicate { entry, of_id: true });
    }
    if let Some(entry) = own_duplicate(table, book, ready) {
        return Some(RegisterFault::Duplicate {
            entry,
            of_id: false,
        });
    }
    if MOST_ENTRIES <= book.entries.len() {
        return Some(RegisterFault::Many);
    }
    None
}

/// The entry that binds the own name to another text, where that name is to be bound.
fn own_duplicate(table: &ModuleTable, book: &Book, ready: &Ready) -> Option<usize>
    requires sound { IsSound book.now }
    requires ready { IsReady ready.now }
    ensures { let entry = ready.now.entry in AtEachSeenBy table.now book.now.entries.items (λ o registrations. TellsAlsoDuplicate o registrations entry.text.items (own_name_of entry) result) }
{
    match &ready.own_name {
        Some(name) => duplicate(table, book, &ready.entry.text, name.as_str()),
        None => None,
    }
}

/// The entry that binds the name to another text, counted from 1; 0 where the definition binds it.
fn duplicate(table: &ModuleTable, book: &Book, text: &[u8], name: &str) -> Option<usize>
    requires sound { IsSound book.now }
    ensures { AtEachSeenBy table.now book.now.entries.items (λ o registrations. TellsDuplicate o registrations text.now name.now result) }
{
    if table.reaches(name) {
        return Some(0);
    }
    match book.place(name) {
        Some(place) => {
            if book.has_text(place, text) {
                None
            } else {
                Some(place + 1)
            }
        }
        None => None,
    }
}
