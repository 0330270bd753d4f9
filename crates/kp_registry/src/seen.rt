use crate::id::Id;
use kp_history::Archive;
use kp_kore::Name;
use kp_modules::ModuleTable;
use kp_rule_sets::RuleSet;
use std::sync::Arc;

/// A registered module.
#[derive(Drop)]
pub struct Entry {
    pub text: Vec<u8>,
    pub id: Id,
    /// Its own name, where it is bound too.
    pub also: Option<Name>,
    pub rules: Arc<RuleSet>,
}

/// A name with the place of the first entry that binds it.
#[derive(Drop)]
pub struct NameBinding {
    pub name: Name,
    pub place: usize,
}

/// The book: the entries in order, and their names in the order of their bytes.
pub struct Book {
    pub entries: Vec<Entry>,
    pub names: Vec<NameBinding>,
}

// Written out: a derived one is proved again, with those of all that it holds, in each crate that owns a pass.
impl Drop for Book {
    fn drop(self) {
        let Book {
            entries: _entries,
            names: _names,
        } = self;
    }
}

impl Archive<Entry, ModuleTable> for Book {
    ghost use Rattle.kp_registry.specs.Passes.{HasLegalBook, IsSound};

    ghost entries = { λ book. book.entries.items };

    ghost sound = { IsSound };

    ghost legal = { HasLegalBook };
}

/// What one caller has seen of the book.
pub type Pass = kp_history::HistoryPass<Book, Entry, ModuleTable>;

/// An entry that may be registered without memory: it holds its names besides.
#[derive(Drop)]
pub struct Ready {
    pub entry: Entry,
    pub id_name: Name,
    pub own_name: Option<Name>,
}
