//! What the program does at the events of a world, and what a sync between a replica and a server may count on.
//!
//! A world is one history, the replicas beside it, and all PUTs and replies ever made (`braid_outbox::laws`). Its laws
//! speak of definitions alone. Here the calls of a book and of replicas are compared with them: `laws::calls` makes the
//! calls of one event, and leaves book and replicas as the definition says. So whatever is proved of every list of events
//! holds of the program that makes these calls, while the kept copies are within the limits of a replica. This crate sees both
//! ends, the server's book and the client's replica.
//!
//! Not promised: that a message arrives, and that any event happens.
#![tactic(auto)]

mod body_reading;
mod book_calls;
mod calling;
pub mod laws;
mod reading_back;
#[cfg(test)]
mod reading_tests;
mod replica_calls;
#[cfg(test)]
mod scene;
#[cfg(test)]
mod tests;
