//! One connection, and those of a door one after another: each request is answered in order, on a book behind a hall.
//!
//! A request is judged by one table of rows in one order; the first row that passes answers it. Those that need the
//! book take one turn each, and no other does. A subscription that is served is the last request, and takes a further
//! turn whenever the bell tells it to look again. What is written is the session's text: a relation between the
//! history that the pass has seen, the bytes that were read, and the marks of the turns. It stays as the history
//! grows.
//!
//! Versions, parents and subscriptions are after draft-toomim-httpbis-braid-http-04, messages after RFC 9112.
//!
//! Not promised: that a read or a turn ends, or that what was written reaches anyone.
#![tactic(auto)]

mod answer;
mod denial;
mod door;
mod head;
pub mod laws;
mod list_session_note;
mod parts;
mod replies;
mod serve;
mod serving;
mod session;
mod turn;
mod watch;
mod wish;
mod worker;

pub use door::serve_door;
pub use list_session_note::ListSessionNote;
pub use serve::serve_session;
pub use session::{SessionEnd, SessionNote};
pub use worker::{ListWorkerNote, WorkerEnd, WorkerNote};

#[cfg(test)]
mod denial_tests;
#[cfg(test)]
mod door_tests;
#[cfg(test)]
mod tests;
#[cfg(test)]
mod watch_tests;
