ghost use Rattle.std.specs.Prelude.{◌≡◌};

use crate::archive::{Archive, Law};
use crate::view::{Terms, View};
use atomic_table::Table;
use std::alloc::Global;

/// The word of the next ticket.
pub(crate) const TICKET: usize = 0;

/// The word of the ticket that has the turn.
pub(crate) const SERVING: usize = 1;

/// The word of the number of entries.
pub(crate) const COUNT: usize = 2;

/// The slot of the value.
pub(crate) const VALUE: usize = 0;

/// A value that many passes see and change, one after the other.
#[derive(Drop)]
pub struct History<B: Archive<E, K>, E, K> {
    pub(crate) terms: Terms<K>,
    pub(crate) table: Table<Option<B>, View<E, K>, Terms<K>, Law, Global>,
    ghost shape: { (table.shared.table_id.words ≡ 3) × (table.shared.table_id.slots ≡ 1) },
    ghost key: { table.shared.key ≡ terms },
}
