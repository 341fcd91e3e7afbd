//! Readers of update streams, updates out of a source of bytes; and a writer of them.
//!
//! A reader takes bytes from its source piece by piece, feeds them to a framer, and answers the updates of the stream
//! one by one, in order; and at last how the stream ended: with a gap; within a line, a head or a content, or before a
//! patch; with a fault; or not within the limit. What it answers follows from the bytes that the source gave, however
//! they came, and it reads no more where those at hand hold the answer. The stream is that of `braid_grammar`, in the
//! manner of RFC 9112.
//!
//! `UpdateReader` is handed its source at each call; `StreamReader` owns its source. Neither takes memory but for what
//! its framer keeps, a head or a content, and for the update that it builds. `StreamWriter` writes updates as the chunks
//! of a body (RFC 9112, section 7.1), and takes none. Not promised: that a read or a write ever comes back, and that bytes
//! which are held are not lost with a reader that is dropped.
#![tactic(auto)]

mod held;
pub mod laws;
mod next;
mod reading;
mod stream_reader;
mod stream_writer;
mod update_reader;

pub use next::Next;
pub use stream_reader::StreamReader;
pub use stream_writer::StreamWriter;
pub use update_reader::UpdateReader;

#[cfg(test)]
mod tests;
#[cfg(test)]
mod writer_tests;
