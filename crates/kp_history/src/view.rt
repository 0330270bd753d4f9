use std::collections::LinkedList;

/// What a history is begun with.
#[derive(Drop)]
pub struct Terms<K> {
    /// How many passes it may have at once.
    pub seats: u64,
    /// What it is about.
    pub about: K,
}

/// What a pass knows, for the rule alone: no value of it is made.
pub struct View<E, K> {
    /// Those of its history; none where it is spent.
    pub terms: Option<Terms<K>>,
    /// Its own place and its spare ones; 0 where it is spent.
    pub places: u64,
    /// The entries that it has seen.
    pub seen: LinkedList<E>,
    /// What another that it took in had seen, until it compares the two.
    pub told: LinkedList<E>,
    /// The positions of its own entries, from 1.
    pub positions: LinkedList<u64>,
    /// Its ticket, where it waits or has the turn, counted on beyond what a word holds.
    pub tickets: LinkedList<u64>,
    /// Whether it has the turn.
    pub turn: bool,
    /// The entries of the value in hand, while it has the turn.
    pub hand: LinkedList<E>,
}
