// Names of variables, each once: the number of a name is its variable's slot.
ghost use Rattle.std.specs.Prelude.{◌≡◌, [], IfOk, OnOk, string_bytes, true};
ghost use Rattle.kp_ground.specs.Slots.{is_one_of, stands_at, with_name};
ghost use Rattle.kp_compile.specs.Names.{names_seen};

use indexmap::IndexSet;
use kp_kore::Name;
use std::alloc::{AllocError, Global};

/// Names, each once, in the order in which they came.
pub type NameSet = IndexSet<Name>;

/// No names.
pub fn no_names(alloc: Global) -> NameSet
    ensures { names_seen result ≡ [] }
{
    IndexSet::new(alloc)
}

/// Whether the name is one of these.
pub fn has_name(names: &NameSet, name: &str) -> bool
    ensures { result ≡ is_one_of name.now (names_seen names.now) }
{
    names.contains(name)
}

/// The number of a name; of one that isn't among them, the number that comes next.
pub fn slot_of(names: &NameSet, name: &str) -> usize
    ensures { is_one_of name.now (names_seen names.now) ≡ true → stands_at (names_seen names.now) name.now result ≡ true }
{
    match names.get_index_of(name) {
        Some(slot) => slot,
        None => names.len(),
    }
}

/// The number of a name, which is added where it isn't among them.
pub fn slot_with(names: &mut NameSet, name: &Name) -> Result<usize, AllocError>
    ensures names { OnOk result (names_seen names.new ≡ with_name (names_seen names.old) (string_bytes name.now)) }
    ensures slot { IfOk result (λ slot. stands_at (names_seen names.new) (string_bytes name.now) slot ≡ true) }
{
    let (slot, _) = names.insert_full(name.clone()?)?;
    Ok(slot)
}
