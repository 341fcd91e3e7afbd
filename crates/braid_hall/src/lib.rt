//! A ticket lock (Mellor-Crummey and Scott, 1991) round a book, whose passes know what they have seen of its history.
//!
//! A pass draws a ticket by a fetch-and-add and waits until that ticket is served. It then has the book, and
//! may leave it with one entry more. The load that finds the ticket served is the linearization point of the turn
//! (Herlihy and Wing, 1990).
//!
//! Promised, for every interleaving of threads: the book that a turn finds begins with what its pass had seen; each
//! entry that a pass adds is there once, in the pass's order; nobody else's entries are there; and the book at the
//! close begins with what each joined pass had seen.
//!
//! Not promised: that a turn comes, fairness, freedom from deadlock, how long anything takes, and that two threads ran.
#![tactic(auto)]

mod annals;
mod hall;
pub mod laws;
mod many;
mod pass;
mod rule;
mod steps;
mod turn;
mod view;

pub use annals::Annals;
pub use hall::Hall;
pub use many::{close_all, join_all, split_all};
pub use pass::Pass;
pub use turn::Turn;

#[cfg(test)]
mod tests;
