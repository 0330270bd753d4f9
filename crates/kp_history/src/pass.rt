use crate::view::View;
use atomic_table::Seat;

/// What one caller has seen of a history. Its seat has no bytes.
#[derive(Drop)]
pub struct HistoryPass<B, E, K> {
    /// Its view, and the value while it has that in hand.
    pub seat: Seat<Option<B>, View<E, K>>,
    /// How many passes more may be split off.
    pub spare: u64,
}
