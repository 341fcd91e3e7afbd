use std::collections::LinkedList;

/// What a pass carries through the steps of the lock. It exists in contracts and proofs alone: no value of it is made.
pub struct View<E> {
    /// Whether the pass is there: it was not joined into another.
    pub live: bool,
    /// The number of the pass.
    pub number: u64,
    /// The ticket that it holds.
    pub ticket: Option<u64>,
    /// Whether it is in a turn.
    pub held: bool,
    /// How many tickets were drawn by it and by passes joined into it.
    pub turns: u64,
    /// What it last saw as the next ticket, or a greater number that a pass joined into it saw.
    pub look: u64,
    /// Whether it may draw a ticket.
    pub ready: bool,
    /// The history that it has seen.
    pub seen: LinkedList<E>,
    /// The entries that it added.
    pub mine: LinkedList<E>,
    /// How many passes it has split off.
    pub made: u64,
    /// The numbers of passes split from it and not yet joined.
    pub away: LinkedList<u64>,
    /// Number and entries of each pass joined into it.
    pub ended: LinkedList<(u64, LinkedList<E>)>,
    /// The ticket at the opening.
    pub opened: u64,
    /// The history at the opening.
    pub opening: LinkedList<E>,
    /// The shorter of the two histories that were seen at its last join.
    pub shorter: LinkedList<E>,
}
