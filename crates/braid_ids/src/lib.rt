//! Identifiers of versions, sets of them, byte lists, and sets of numbers.
//!
//! Everything above stands on this crate. An identifier is 1 to 128 printable bytes, ordered byte by byte.
//! A frontier is a set of identifiers, kept in rising order. Contracts see an identifier as a list of bytes,
//! a frontier as a strictly rising list of identifiers, and marks as a list of flags.
//!
//! Calls that may want memory answer `Memory` by name; all others take none.
//! Nothing here knows what an identifier names.
#![tactic(auto)]

mod agent;
mod bytes;
mod frontier;
mod id;
mod id_bytes;
pub mod laws;
mod list_bytes;
mod marks;
mod memory;
mod piece;
mod readers;
mod unknown;
mod word;

pub use agent::{Agent, AgentFault};
pub use bytes::Bytes;
pub use frontier::Frontier;
pub use id::{Id, IdFault};
pub use list_bytes::ListBytes;
pub use marks::Marks;
pub use memory::Memory;
pub use readers::{after, read_decimal, split_at_byte};
pub use unknown::Unknown;
pub use word::Word;

#[cfg(test)]
mod tests;
