//! The framer: updates out of the bytes of an update stream (Braid-HTTP, in the profile of docs/FORMATS.md), which
//! come in pieces of any kind; and writing an update in its canonical spelling, through a buffer of fixed size.
//! `read_put`, which reads the one update of a request from `Parts` and a whole body, is passed on from the grammar.
//!
//! A framer that was fed bytes has answered exactly the updates that the bytes complete, in order, each with its last
//! byte. Where the bytes have a fault it has answered that fault, with its place and reason, and answers it for good.
//! It rests exactly where the bytes are a stream. All of this is the same however the bytes are cut into pieces.
//!
//! Feeding takes time linear in the bytes, whatever the pieces: each byte is kept once, a line is looked at once when it
//! ends and once when its head ends, and a content is read into a text once. A framer holds one head or content and the
//! patches of one update at most. It takes memory for what it keeps and for the update that it builds, and for nothing
//! else; want of memory is answered as such, and nothing is said of such a framer but that it answers so for good.
#![tactic(auto)]

mod buffered;
mod contents;
mod ends;
mod fed;
mod framer;
mod heads;
pub mod laws;
mod lines;
mod pending;
mod state;
mod steps;
mod writing;

pub use braid_fields::{Parts, Reason};
pub use braid_grammar::{PutFault, read_put};
pub use buffered::Buffered;
pub use fed::{Fed, FeedFault, FrameFault};
pub use framer::Framer;
pub use writing::write_update;

#[cfg(test)]
mod tests;
