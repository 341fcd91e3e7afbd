//! A replica of one text that goes on without its server, and the laws of what may happen between the two.
//!
//! A replica has an agent, the updates that are known to be taken by the server, and the agent's own that are not yet. All
//! of them are one legal history. What the server sent is learnt, what was sent to it is acknowledged, and the replica
//! resumes from what is confirmed. Versions, parents and subscriptions are those of draft-toomim-httpbis-braid-http-04.
//!
//! The laws speak of every list of events, with cuts, losses, repeats, late arrivals and returns to a kept copy: replicas
//! stay sound, a replica that has read to the end has the server's graph, and nothing that it sends is refused but for
//! want of room. They do not say that a message arrives.
#![tactic(auto)]

mod counting;
mod faults;
mod heads;
pub mod laws;
mod learn;
mod learning;
mod lists;
mod making;
mod merging;
mod order;
mod reading;
mod replica;
mod standing;
mod world;
mod writing;

pub use faults::{BadReplica, WriteFault};
pub use learn::Learn;
pub use replica::Replica;

#[cfg(test)]
mod making_tests;
#[cfg(test)]
mod tests;
#[cfg(test)]
mod write_tests;
