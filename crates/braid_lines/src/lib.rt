//! What all commands do with their words and their text: numbers out of words, the lines that more than one of them
//! prints, and a text written with its status.
//!
//! A text is written whole under its own status, or a front of it under status Outside. Words that are no command have
//! one line, whichever command they were meant for. Lines name identifiers as Strings of a header list (RFC 8941).
//!
//! Not promised: that what was written reaches anyone.
#![tactic(auto)]

mod lines;
mod number;
mod printing;

pub use lines::{
    fault_line, full_line, id_line, line_with, numbered_line, push_content, push_count,
    push_digest, push_frontier, push_line, range_line, stream_line,
};
pub use number::read_number;
pub use printing::{print, refuse_words};

#[cfg(test)]
mod tests;
