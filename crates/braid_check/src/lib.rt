//! The command `check`: what an update stream says, or what is wrong with it.
//!
//! `check_run` reads updates from a source to the end of the stream and offers them, in order, to one resource with the
//! limits of a replica. It writes the resource's versions, frontier, length, digest and text, or one line that names
//! what is wrong and where. The text and the status follow from the bytes that the source gave and from how reading
//! ended, and nothing is written before that is known. The stream is that of `braid_grammar`, and the answers to
//! updates are those of `braid_text`. An update that is known is passed over.
//!
//! Lines name identifiers as Strings of a header list (RFC 8941), and the digest is SHA-256 (FIPS 180-4).
//!
//! Not promised: how long a run takes, and that a read of the source comes back. An update on all that is there costs a
//! look at the blocks of the resource's runs (`braid_spans`), and one that leaves versions out a pass over the runs.
#![tactic(auto)]

mod check;
pub mod laws;
mod reading;
mod refusal;
mod report;
mod stop;
mod taking;

pub use check::check_run;

#[cfg(test)]
mod long_chain;
#[cfg(test)]
mod tests;
