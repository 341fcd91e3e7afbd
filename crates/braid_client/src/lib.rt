//! The client's commands on a text with versions, over a kept state.
//!
//! `client_run` carries out one command: it reads the words, loads the state that is kept under a name, writes, shows,
//! syncs or follows its replica, keeps what that left, and prints. Where state and replica come from, what is kept,
//! sent and printed, and the status follow from the words, from what is kept, from the bytes given on the links, and
//! from the calls that failed.
//!
//! A save that fails may leave anything under its name; the keepers of `braid_io` and `braid_net` leave what stood
//! there. Not promised: that a server is reached, or what a file holds once it is kept.
#![tactic(auto)]

mod carrying;
mod command;
mod ending;
mod fault;
mod keeping;
pub mod laws;
mod lines;
mod local;
mod remote;
mod report;
mod running;
mod words;

pub use braid_sync::{Followed, Place, SyncEnd, follow, sync};
pub use running::client_run;

#[cfg(test)]
mod fail_tests;
#[cfg(test)]
mod scripts;
#[cfg(test)]
mod sync_tests;
#[cfg(test)]
mod tests;
