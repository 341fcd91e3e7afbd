//! The outside: where bytes come from and where they go.
//!
//! Everything above reads through `Source` and writes through `Sink`, and nothing above names a file, a socket or
//! a terminal. A source tells what it has given and what it has left, a sink what it has taken, where they can;
//! each counts its faults, and a call answers `Failed` only where that count rose in the call. A `Link` is both, and
//! neither side disturbs the other.
//!
//! The forms in memory tell all of that, and fail at the calls that they are told to; `PureSource` never fails. The
//! adapters over std's reader and writer are the trusted edge: they tell their count of faults and no contents.
//!
//! Not promised: that a read or a write ever comes, or that what an adapter took reaches anyone.
#![tactic(auto)]

mod bell;
mod calls;
mod copies;
mod dialer;
mod door;
mod keeper;
pub mod laws;
mod link;
mod mem_bell;
mod mem_dialer;
mod mem_door;
mod mem_keeper;
mod mem_link;
mod mem_port;
mod mem_sink;
mod mem_source;
mod port;
mod pure_source;
mod sink;
mod source;
mod status;
mod std_sink;
mod std_source;

pub use bell::{Bell, Rang};
pub use dialer::{Dialed, Dialer};
pub use door::{Came, Door};
pub use keeper::{Keeper, Loaded, Saved};
pub use link::Link;
pub use mem_bell::MemBell;
pub use mem_dialer::{HungUp, MemDialer};
pub use mem_door::MemDoor;
pub use mem_keeper::MemKeeper;
pub use mem_link::MemLink;
pub use mem_port::MemPort;
pub use mem_sink::MemSink;
pub use mem_source::MemSource;
pub use port::{Asked, Opened, Port};
pub use pure_source::PureSource;
pub use sink::{Sink, WriteEnd, Wrote, write_all};
pub use source::{Read, Source};
pub use status::Status;
pub use std_sink::StdSink;
pub use std_source::StdSource;

#[cfg(test)]
mod door_tests;
#[cfg(test)]
mod tests;
