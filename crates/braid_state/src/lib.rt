//! The state file of a client: whose versions it keeps, of which text on which server, and the updates.
//!
//! `write_state` makes the text of a state: seven lines, the updates in their canonical spellings, and an end mark.
//! `read_state` reads a whole file, and takes the updates in any spelling of an update stream (Braid-HTTP, in the
//! profile of docs/FORMATS.md). It answers the one state that the bytes spell, or the place where they depart from the
//! form. A file is read whole or not at all: `laws` says that no proper front of a state's text and no longer text is one.
//!
//! Nothing here says that the updates of a state fit one another, or that a file is there: that is for the crates above.
#![tactic(auto)]

mod body;
mod count;
mod head;
pub mod laws;
mod line;
mod reading;
mod state;
mod stop;
mod tail;
mod writing;

pub use reading::read_state;
pub use state::{State, StateFault};
pub use writing::write_state;

#[cfg(test)]
mod tests;
