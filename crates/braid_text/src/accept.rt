use crate::room::Which;
use braid_ids::Id;

/// The answer to an update: it is new and was taken, it is known, or why it was refused.
#[derive(Debug, Drop)]
pub enum Accept {
    /// The update was taken.
    New,
    /// The same update is held.
    Known,
    /// Another update with this identifier is held.
    Clash { id: Id },
    /// The least parent that is not held.
    UnknownParent { id: Id },
    /// The first joined patch, counted from 0, that ends past the text at the parents, and that text's length.
    OutOfRange { patch: u32, len: u32 },
    /// The first of the counts, in the order of `Which`, of which more is needed than there is room.
    Full { which: Which, need: u64, room: u64 },
    /// There was no memory. It never comes for an update that is held.
    Memory,
}
