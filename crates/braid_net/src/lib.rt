//! The outside over the system's sockets, files and threads.
//!
//! These are adapters: each is one of the traits of `braid_io` over what the system gives, and keeps that trait's
//! contract. They are the trusted edge: they tell their counts and no contents, and each was tried once on the real
//! thing.
//!
//! Not promised: that a peer answers, that a connection comes, that what was saved outlasts the machine, or how long a
//! call takes.
#![tactic(auto)]

mod file_keeper;
mod ring_bell;
mod tcp_dialer;
mod tcp_door;
mod tcp_link;
mod tcp_port;

pub use file_keeper::FileKeeper;
pub use ring_bell::RingBell;
pub use tcp_dialer::TcpDialer;
pub use tcp_door::TcpDoor;
pub use tcp_link::TcpLink;
pub use tcp_port::TcpPort;

#[cfg(test)]
mod tests;
