// The book of modules over a table: what a name means, and the modules that are entered.
ghost use Rattle.std.specs.Prelude.{◌≡◌, ◌≤◌, ◌+◌, ◌++◌, ◌∷◌, [], List, IfOk, IfErr, OnErr, OnOk, string_bytes, option_map};
ghost use mathlib.Core.List.{IsPrefix};
ghost use Rattle.std.specs.Str.{IsUtf8};
ghost use Rattle.kp_history.specs.Passes.{Keeps, positions, seen};
ghost use Rattle.kp_history.specs.Views.{longer};
ghost use Rattle.kp_registry.specs.Legal.{id_of as stated_id};
ghost use Rattle.kp_registry.specs.Passes.{AtEachSeenBy, Extends, IsReady, MeansAt, own_name_asked};
ghost use Rattle.kp_registry.specs.Refusals.{IsRefused, own_name_of};
ghost use Rattle.kp_registry.specs.Registries.{HasGained, IsPassOf, seats_of, table_of};

use crate::faults::fault;
use crate::id::{Id, id_of};
use crate::seen::{Book, Entry, Pass, Ready};
use kp_history::{Full, History};
use kp_kore::{Module, Name};
use kp_modules::{ModuleTable, rules_of};
use kp_rule_sets::RuleSet;
use std::alloc::{AllocError, Global};
use std::sync::{Arc, Wait};

/// Why a module isn't registered.
#[derive(Clone, Copy, PartialEq, Eq, Debug)]
pub enum RegisterFault {
    /// The entry of this number, counted from 1, binds the id, or else the own name, to another text; 0 is the definition.
    Duplicate { entry: usize, of_id: bool },
    /// M9: the book has as many entries as it may have.
    Many,
}

/// The book of a table, which many passes share.
pub struct Registry {
    pub(crate) history: History<Book, Entry, ModuleTable>,
}

// Written out: a derived one is proved again in each crate that owns a registry.
impl Drop for Registry {
    fn drop(self) {
        let Registry { history: _history } = self;
    }
}

impl Registry {
    /// A book without entries, with a pass on it that has all places. There is room for all entries that a book may have.
    pub fn begin(
        alloc: Global,
        table: ModuleTable,
        seats: usize,
    ) -> Result<(Registry, Pass), AllocError>
        requires seats { (1 ≤ seats) × (seats ≤ 64) }
        ensures pass { IfOk result (λ out. IsPassOf out.0 out.1) }
        ensures none { IfOk result (λ out. (seen out.1 ≡ []) × (positions out.1 ≡ []) × (out.1.spare + 1 ≡ seats)) }
        ensures about { IfOk result (λ out. (table_of out.0 ≡ table) × (seats_of out.0 ≡ seats)) }
    {
        let book = Book::empty(alloc)?;
        let (history, pass) = History::begin(alloc, seats as u64, table, book)?;
        Ok((Registry { history }, pass))
    }

    /// The table.
    pub fn table(&self) -> &ModuleTable
        ensures { result.now ≡ table_of self.now }
    {
        self.history.about()
    }

    /// A pass more, where there is a spare place: it has seen as much, and has entered nothing.
    pub fn split(&self, pass: &mut Pass) -> Result<Pass, Full>
        requires pass { IsPassOf self.now pass.old }
        ensures pass { IsPassOf self.now pass.new × (seen pass.new ≡ seen pass.old) × (positions pass.new ≡ positions pass.old) }
        ensures new { IfOk result (λ new. IsPassOf self.now new × (seen new ≡ seen pass.old) × (positions new ≡ []) × (new.spare ≡ 0)) }
        ensures spare { IfOk result (λ new. pass.new.spare + 1 ≡ pass.old.spare) }
        ensures full { OnErr result ((pass.old.spare ≡ 0) × (pass.new ≡ pass.old)) }
    {
        self.history.split(pass)
    }

    /// One pass takes in another: it has seen what both had, and has the positions and the places of both.
    pub fn join(&self, pass: &mut Pass, other: Pass)
        requires pass { IsPassOf self.now pass.old }
        requires other { IsPassOf self.now other }
        ensures pass { IsPassOf self.now pass.new }
        ensures seen { IsPrefix (seen pass.old) (seen pass.new) × IsPrefix (seen other) (seen pass.new) }
        ensures longer { seen pass.new ≡ longer (seen pass.old) (seen other) }
        ensures own { (positions pass.new ≡ positions pass.old ++ positions other) × (pass.new.spare ≡ pass.old.spare + other.spare + 1) }
    {
        self.history.join(pass, other);
    }

    /// The rule set that a name means: that of the definition's module, in the order of the module's own walk, or that
    /// of the first entry that binds it. A name of the definition is looked up without the turn, and memory is taken for
    /// a module of the definition other than main alone.
    pub fn look<R: Wait>(
        &self,
        rt: &R,
        alloc: Global,
        pass: &mut Pass,
        name: &str,
    ) -> Result<Option<Arc<RuleSet>>, AllocError>
        requires pass { IsPassOf self.now pass.old }
        ensures pass { IsPassOf self.now pass.new }
        ensures seen { IsPrefix (seen pass.old) (seen pass.new) }
        ensures own { Keeps pass.old pass.new }
        ensures found { AtEachSeenBy (table_of self.now) (seen pass.new) (λ o book. IfOk result (λ found. MeansAt o book name.now (option_map (λ r. r.value) found))) }
    {
        let table = self.table();
        if table.reaches(name) {
            return rules_of(alloc, table, name);
        }
        let book = self.history.take(rt, pass);
        let found = book.rules(name);
        self.history.put_back(pass, book);
        found
    }

    /// Enters a module at the end of the book, without memory; a refusal hands it back.
    pub fn register<R: Wait>(
        &self,
        rt: &R,
        pass: &mut Pass,
        ready: Ready,
    ) -> Result<Id, (RegisterFault, Ready)>
        requires pass { IsPassOf self.now pass.old }
        requires ready { IsReady ready }
        requires extends { Extends (table_of self.now) (seen pass.old) ready.entry }
        ensures pass { IsPassOf self.now pass.new }
        ensures entered { IfOk result (λ id. (id ≡ ready.entry.id) × (others : List Entry) × IsPrefix (seen pass.old) others × (seen pass.new ≡ others ++ ready.entry ∷ [])) }
        ensures own { OnOk result (HasGained pass.old pass.new) }
        ensures back { IfErr result (λ back. (back.1 ≡ ready) × IsPrefix (seen pass.old) (seen pass.new) × Keeps pass.old pass.new) }
        ensures refused { AtEachSeenBy (table_of self.now) (seen pass.new) (λ o book. IfErr result (λ back. IsRefused o book ready.entry back.0)) }
    {
        let mut book = self.history.take(rt, pass);
        match fault(self.table(), &book, &ready) {
            Some(fault) => {
                self.history.put_back(pass, book);
                Err((fault, ready))
            }
            None => {
                let Ready {
                    entry,
                    id_name,
                    own_name,
                } = ready;
                let id = entry.id;
                book.enter(entry, id_name, own_name);
                self.history.put_longer(pass, book);
                Ok(id)
            }
        }
    }
}

/// An entry for a module of this text, with its own name where that is to be bound too.
pub fn prepare(
    alloc: Global,
    text: Vec<u8>,
    added: &Module,
    rules: Arc<RuleSet>,
    also_name: bool,
) -> Result<Ready, AllocError>
    ensures ready { IfOk result IsReady }
    ensures text { IfOk result (λ ready. ready.entry.text.items ≡ text.items) }
    ensures id { IfOk result (λ ready. ready.entry.id ≡ stated_id text.items) }
    ensures own { IfOk result (λ ready. own_name_of ready.entry ≡ own_name_asked also_name (string_bytes added.now.name)) }
    ensures rules { IfOk result (λ ready. ready.entry.rules.value ≡ rules.value) }
{
    let id = id_of(&text);
    let id_name = name_of_id(alloc, &id)?;
    let (also, own_name) = own_names(added, also_name)?;
    Ok(Ready {
        entry: Entry {
            text,
            id,
            also,
            rules,
        },
        id_name,
        own_name,
    })
}

/// The id as a name.
fn name_of_id(alloc: Global, id: &Id) -> Result<Name, AllocError>
    requires text { IsUtf8 id.now }
    ensures { IfOk result (λ name. string_bytes name ≡ id.now) }
{
    match std::str::from_utf8(id) {
        Ok(name) => String::from_str(alloc, name),
        Err(_) => unreachable!(),
    }
}

/// A module's own name twice, where it is asked for.
fn own_names(added: &Module, also_name: bool) -> Result<(Option<Name>, Option<Name>), AllocError>
    ensures asked { IfOk result (λ names. option_map string_bytes names.0 ≡ own_name_asked also_name (string_bytes added.now.name)) }
    ensures same { IfOk result (λ names. option_map string_bytes names.1 ≡ option_map string_bytes names.0) }
{
    if also_name {
        return Ok((Some(added.name.clone()?), Some(added.name.clone()?)));
    }
    Ok((None, None))
}
