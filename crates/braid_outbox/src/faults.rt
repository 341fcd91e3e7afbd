use braid_change::BuildFault;
use braid_text::Which;

/// Why a change was not written: the first of these that holds, in this order.
#[derive(Debug, Drop)]
pub enum WriteFault {
    /// The change has not the shape that an update may have.
    Shape(BuildFault),
    /// The first joined patch, counted from 0, that ends past the replica's text, and that text's length.
    OutOfRange { patch: u32, len: u32 },
    /// The numbers needed pass 18,446,744,073,709,551,615.
    NumbersSpent,
    /// The first of the replica's limits, in the order of `Which`, that the new updates would pass.
    Full { which: Which, limit: u64 },
    /// There was no memory. Pure merges may have been added.
    Memory,
}

/// Why two lists of updates make no replica.
#[derive(Clone, Copy, Debug, PartialEq, Eq)]
pub enum BadReplica {
    /// The first entry, counted from 0 through both lists, that is not legal after those before it, passes a limit, or
    /// is unsent and does not name the unsent one before it. Where the frontier is too wide, it is the last entry.
    Entry { n: u32 },
    /// There was no memory.
    Memory,
}
