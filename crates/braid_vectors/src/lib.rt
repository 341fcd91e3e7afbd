//! Conformance rows as tests: what a hostile peer may send to a server or to a client, and how each such run must end.
//!
//! Each module is a subject. A test walks a table, whose rows have the bytes of the peer, in what pieces they come, and
//! what is to be written, kept and answered. Expected values come from the formats, never from a run.
//!
//! The crate has nothing but tests.
#![tactic(auto)]

#[cfg(test)]
mod body_limits;
#[cfg(test)]
mod book_limits;
#[cfg(test)]
mod commands;
#[cfg(test)]
mod failing_commands;
#[cfg(test)]
mod failing_sessions;
#[cfg(test)]
mod failing_subscriptions;
#[cfg(test)]
mod failing_syncs;
#[cfg(test)]
mod filled;
#[cfg(test)]
mod follows;
#[cfg(test)]
mod hostile_replies;
#[cfg(test)]
mod hostile_requests;
#[cfg(test)]
mod kept_files;
#[cfg(test)]
mod limits;
#[cfg(test)]
mod long_replies;
#[cfg(test)]
mod protocol;
#[cfg(test)]
mod replies;
#[cfg(test)]
mod scripts;
#[cfg(test)]
mod sessions;
#[cfg(test)]
mod smuggling;
#[cfg(test)]
mod two_ends;
