//! The client's side of a text with versions: learning what a server has, and sending it what is unsent.
//!
//! `sync` asks a server for the updates that a replica has not confirmed, learns them until the version that the server named
//! as the current one is held, and then sends the unsent updates, each as a PUT. `follow` learns updates as they come, and
//! prints a line for each. Both work over any dialer; what they send and learn, and how they end, follows from the bytes given
//! and from the calls that failed. Subscriptions and versions are those of draft-toomim-httpbis-braid-http-04, messages those
//! of RFC 9112.
//!
//! Whatever a server sends, the replica stays sound and loses no update, and each link is hung up. Not promised: that a server
//! is reached, or that its replies are true.
#![tactic(auto)]

mod end;
mod following;
mod hear;
mod judge;
pub mod laws;
mod learn;
mod opening;
mod piece;
mod place;
mod post;
mod reply;
mod subscribe;
mod syncing;

pub use end::SyncEnd;
pub use following::{Followed, follow};
pub use piece::{Ended, Piece, ROOM};
pub use place::Place;
pub use syncing::sync;

#[cfg(test)]
mod fail_tests;
#[cfg(test)]
mod follow_tests;
#[cfg(test)]
mod hostile_tests;
#[cfg(test)]
mod tests;
