use braid_ids::Id;
use braid_text::Which;

/// What a replica answers to an update that it is given to learn.
#[derive(Debug, Drop)]
pub enum Learn {
    /// The update was taken as a confirmed one.
    New,
    /// It is the first unsent update, and is confirmed now.
    Confirmed,
    /// The same update is confirmed already.
    Known,
    /// Another update with this identifier is held.
    Clash { id: Id },
    /// The least parent that is not confirmed.
    UnknownParent { id: Id },
    /// The first joined patch, counted from 0, that ends past the text at the parents, and that text's length.
    OutOfRange { patch: u32, len: u32 },
    /// The first of the replica's limits, in the order of `Which`, that the update would pass.
    Full { which: Which, limit: u64 },
    /// There was no memory.
    Memory,
}
