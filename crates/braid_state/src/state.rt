//! States, and what is wrong with bytes that spell none.

use braid_change::ListUpdate;
use braid_ids::{Agent, Bytes};

/// What a client keeps of one text: whose versions it makes, where the text is, and the updates that it has.
#[derive(Drop)]
pub struct State {
    /// Who makes versions.
    pub agent: Agent,
    /// The address of the server.
    pub server: Bytes,
    /// The path of the text there.
    pub path: Bytes,
    /// The updates that the server has, in the order in which they came.
    pub confirmed: ListUpdate,
    /// The updates that were not yet sent, or whose receipt is not known, in the order in which they were made.
    pub unsent: ListUpdate,
}

/// Why bytes are no state.
#[derive(Clone, Copy, Debug, PartialEq, Eq)]
pub enum StateFault {
    /// They spell none. `at` is the place, counted from 0, of the first byte of the first line that is not of the form, of
    /// the first update with the gap before it that is none, of what stands after the last gap where that is not the end
    /// mark, or of what follows the end mark; the number of all bytes where nothing stands there.
    BadState { at: u64 },
    /// There was no memory for the state.
    Memory,
}
