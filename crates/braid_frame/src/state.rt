//! What a framer keeps between feeds: the machine's states.

use crate::fed::FrameFault;
use braid_change::Patch;
use braid_fields::PatchPlan;
use braid_ids::{Frontier, Id};

/// What the next line of a head may be.
#[derive(Clone, Copy, Debug)]
pub enum Awaits {
    /// The first line of an update's head: a status line or a field line, after any number of empty lines.
    UpdateHead,
    /// The first line of a patch's head: a field line, after any number of empty lines.
    PatchHead,
    /// What follows a status line: a field line.
    FirstField,
    /// What follows a field line: another one, or the empty line that ends the head.
    MoreFields,
}

/// What the head of the update in hand says of it.
#[derive(Drop)]
pub struct Begun {
    pub id: Id,
    pub parents: Frontier,
}

/// An update of which some patches are whole.
#[derive(Drop)]
pub struct Patching {
    pub begun: Begun,
    /// The patches that are whole.
    pub done: Vec<Patch>,
    /// How many patches come after the one in hand.
    pub left: u32,
    /// The bytes of their contents together.
    pub used: u32,
    /// The end of the last of them, or 0.
    pub before: u32,
}

/// What is being read.
#[derive(Drop)]
pub enum Phase {
    /// A gap between updates, or the lines of an update's head.
    Lines,
    /// A body of so many bytes.
    Body(Begun, u32),
    /// A gap before a patch, or the lines of its head.
    PatchLines(Patching),
    /// The content of a patch.
    PatchContent(Patching, PatchPlan),
    /// Nothing more: this fault was answered.
    Faulted(FrameFault),
    /// Nothing more: there was no memory.
    NoMemory,
}

/// The bytes in hand, and what they belong to.
#[derive(Drop)]
pub struct State {
    /// The place of the first byte that is kept, from the first byte ever fed.
    pub at: u64,
    /// A head as far as it has come, or a content as far as it has come.
    pub kept: Vec<u8>,
    /// Where in `kept` the line begins that has not ended.
    pub line: usize,
    /// What that line may be.
    pub awaits: Awaits,
    pub phase: Phase,
}
