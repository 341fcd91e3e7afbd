//! The drill: the whole program in one, to see that replicas come together whatever is cut.
//!
//! `drill_run` makes a book behind a hall and four replicas of one text. In each round one replica, as it is drawn,
//! writes a small change, or syncs with the book; in some syncs the reply to the subscription, or each reply to a PUT,
//! is cut. After the rounds each replica syncs twice, and the lines that are printed say how many versions there are
//! and how many replicas have the book's digest. The links are in memory: when a link is read, what was written to it
//! is served by one session (`braid_session`). The numbers drawn follow from the seed, so the same words print the same
//! lines.
//!
//! Promised: a form of the words is answered with these lines, or for want of memory with nothing; all other words are
//! answered as such. Not promised: what the lines say. Tests say that.
#![tactic(auto)]

mod digest;
mod draws;
mod drill;
mod exchange;
pub mod laws;
mod line;
mod local_dialer;
mod local_link;
mod replies;
mod report;
mod run;
mod server;
mod words;

pub use run::drill_run;

#[cfg(test)]
mod cut_tests;
#[cfg(test)]
mod tests;
