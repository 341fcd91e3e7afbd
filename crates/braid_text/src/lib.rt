//! The text of a history of updates at each of its frontiers, and what a history answers to one more update.
//!
//! A history is a list of updates in order of arrival, each of which may follow those before it. From it follow the
//! elements and deletions of its versions, the document of all elements in the reading order of `braid_tree`, and what is
//! read at a frontier: the characters of the elements that the frontier's ancestry inserts and does not delete. Versions,
//! parents and patches are after draft-toomim-httpbis-braid-http-04.
//!
//! A `Resource` is such a history, with its version graph and a document of its elements beside it. It takes an update or
//! says why not, and reads its text at each frontier; a refused update changes nothing.
//!
//! The laws say that histories of the same updates read the same in whatever order they came, and that what is read at a
//! version is the splice of what is read at its parents. They do not say that runs typed at one place at one time stay
//! apart, nor that different histories have different texts.
#![tactic(auto)]

mod accept;
mod adding;
mod digesting;
mod history;
mod judging;
pub mod laws;
mod resource;
mod room;

pub use accept::Accept;
pub use resource::Resource;
pub use room::{REPLICA_LIMITS, Room, Which};

#[cfg(test)]
mod tests;
