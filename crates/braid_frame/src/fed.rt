//! What a feed answers.

use braid_change::Update;
use braid_fields::Reason;

/// What a feed took, and the update that it completed.
#[derive(Drop)]
pub struct Fed {
    /// How many bytes of the piece were taken: up to the last byte of `update`, or all of them where it is `None`.
    pub taken: usize,
    /// The update whose last byte was the last one taken.
    pub update: Option<Update>,
}

/// What is wrong with a stream, and where.
#[derive(Clone, Copy, Debug, PartialEq, Eq)]
pub struct FrameFault {
    /// The place of the line, the head or the content at fault, counted from the first byte ever fed, from 0.
    pub at: u64,
    pub reason: Reason,
}

/// Why a feed takes no more.
#[derive(Clone, Copy, Debug, PartialEq, Eq)]
pub enum FeedFault {
    /// The bytes fed are the front of no stream.
    Frame(FrameFault),
    /// There was no memory to keep the bytes or to build the update.
    Memory,
}
