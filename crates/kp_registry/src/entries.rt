// The names and the entries of a book.
ghost use Rattle.std.specs.Prelude.{◌≡◌, ◌<◌, ◌≤◌, IfOk, IfErr, suc, length, map, take, drop, get_or, Some, string_bytes};
ghost use Rattle.std.specs.Vec.{vec_capacity};
ghost use Rattle.kp_kore.specs.Syntax.{Text};
ghost use Rattle.kp_registry.specs.Passes.{AreAbove, AreBelow, IsRising, name_of, place_named, told_then};
ghost use Rattle.kp_registry.specs.declared.seen.NameBinding.{NameBinding};

use crate::seen::{Book, Entry, NameBinding};
use kp_kore::Name;
use kp_rule_sets::RuleSet;
use std::alloc::{AllocError, Global};
use std::cmp::Ordering;
use std::sync::Arc;

/// The most entries of a book.
pub const MOST_ENTRIES: usize = 4096;

/// The most names of a book: an id and an own name of each entry.
const MOST_NAMES: usize = 8192;

impl Book {
    ghost use Rattle.std.specs.Prelude.{◌≡◌, ◌<◌, ◌++◌, ◌∷◌, [], List, None, IfOk, length, option_map, string_bytes, get_or};
    ghost use Rattle.kp_book.specs.Books.{Opening, Registration, rules_in};
    ghost use Rattle.std.specs.Str.{bytes_eq};
    ghost use Rattle.kp_registry.specs.Passes.{HasSeen, IsSound, MeansAt, first_binding};
    ghost use Rattle.kp_registry.specs.declared.seen.Entry.{Entry};

    /// No entries, and room for all that a book may have.
    pub fn empty(alloc: Global) -> Result<Book, AllocError>
        ensures sound { IfOk result IsSound }
        ensures none { IfOk result (λ book. book.entries.items ≡ []) }
    {
        Ok(Book {
            entries: Vec::with_capacity(alloc, MOST_ENTRIES)?,
            names: Vec::with_capacity(alloc, MOST_NAMES)?,
        })
    }

    /// The place of the first entry that binds the name.
    pub fn place(&self, name: &str) -> Option<usize>
        requires sound { IsSound self.now }
        ensures { result ≡ first_binding self.now.entries.items name.now }
    {
        match search(&self.names, name) {
            Ok(at) => Some(self.names[at].place),
            Err(_) => None,
        }
    }

    /// The rule set of the entry at this place.
    pub fn rules_at(&self, place: usize) -> Result<Arc<RuleSet>, AllocError>
        requires within { place < length self.now.entries.items }
        ensures { (e : Entry) → IfOk result (λ rules. rules.value ≡ (get_or self.now.entries.items place e).rules.value) }
    {
        self.entries[place].rules.clone()
    }

    /// The rule set of the first entry that binds the name.
    pub fn rules(&self, name: &str) -> Result<Option<Arc<RuleSet>>, AllocError>
        requires sound { IsSound self.now }
        ensures { let es = self.now.entries.items in (o : Opening) (book : List Registration) → rules_in o.modules name.now ≡ None → HasSeen o.signature book es → IfOk result (λ found. MeansAt o book name.now (option_map (λ r. r.value) found)) }
    {
        match self.place(name) {
            Some(place) => Ok(Some(self.rules_at(place)?)),
            None => Ok(None),
        }
    }

    /// Whether the entry at this place has this text.
    pub fn has_text(&self, place: usize, text: &[u8]) -> bool
        requires within { place < length self.now.entries.items }
        ensures { (e : Entry) → result ≡ bytes_eq (get_or self.now.entries.items place e).text.items text.now }
    {
        self.entries[place].text.as_slice() == text
    }

    /// Enters a module behind those that are there.
    pub fn enter(&mut self, entry: Entry, id_name: Name, own_name: Option<Name>)
        requires sound { IsSound self.old }
        requires room { length self.old.entries.items < 4096 }
        requires id { string_bytes id_name ≡ entry.id }
        requires own { option_map string_bytes own_name ≡ option_map string_bytes entry.also }
        ensures sound { IsSound self.new }
        ensures entered { self.new.entries.items ≡ self.old.entries.items ++ entry ∷ [] }
    {
        let place = self.entries.len();
        self.entries.push_reserved(entry);
        bind(&mut self.names, id_name, place);
        if let Some(name) = own_name {
            bind(&mut self.names, name, place);
        }
    }
}

/// Where the name stands among these, or where it would go.
fn search(names: &[NameBinding], name: &str) -> Result<usize, usize>
    requires rising { IsRising (map name_of names.now) }
    ensures found { IfOk result (λ i. (i < length names.now) × ((d : NameBinding) → place_named names.now name.now ≡ Some (get_or names.now i d).place)) }
    ensures absent { let the_map = map name_of names.now in IfErr result (λ i. (i ≤ length names.now) × (AreBelow name.now (take i the_map) × AreAbove name.now (drop i the_map))) }
{
    let mut from = 0;
    let mut to = names.len();
    while from < to {
        let middle = from + (to - from) / 2;
        match names[middle].name.as_str().cmp(name) {
            Ordering::Less => from = middle + 1,
            Ordering::Equal => return Ok(middle),
            Ordering::Greater => to = middle,
        }
    }
    Err(from)
}

/// Binds a name to a place, unless it is bound; no memory is taken where there is room.
fn bind(names: &mut Vec<NameBinding>, name: Name, place: usize)
    requires rising { IsRising (map name_of names.old.items) }
    requires room { length names.old.items < vec_capacity names.old }
    ensures rising { IsRising (map name_of names.new.items) }
    ensures few { length names.new.items ≤ suc (length names.old.items) }
    ensures room { vec_capacity names.new ≡ vec_capacity names.old }
    ensures told { (n : Text) → place_named names.new.items n ≡ told_then (place_named names.old.items n) (string_bytes name) place n }
{
    if let Err(at) = search(names, name.as_str()) {
        match names.insert(at, NameBinding { name, place }) {
            Ok(()) => {}
            Err(_) => unreachable!(),
        }
    }
}
