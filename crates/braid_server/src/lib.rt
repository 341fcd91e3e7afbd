//! `serve`: workers that answer connections beside one another, with one history for all of them.
//!
//! A run reads its words, opens a port, says that it serves, opens a hall round a book without entries, splits off one
//! pass for each worker, and runs the workers, each in a thread of its own and on a door and a bell of its own. Then it
//! joins the passes and closes the hall.
//!
//! Promised, for every interleaving of threads: one legal book explains each reply of each session, and its entries are
//! just those of the sessions. Each link that came was put back and has its note, and each door comes back.
//!
//! Not promised: that a run ends, that a connection is answered, that two threads ran at once, or how long anything
//! takes.
#![tactic(auto)]

mod command;
mod form;
pub mod laws;
mod print;
mod serve;
mod worker;
mod workers;

pub use serve::{Served, serve_run};

#[cfg(test)]
mod gate_tests;
#[cfg(test)]
mod tests;
