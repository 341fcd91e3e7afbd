//! HTTP messages: whole requests out of bytes and replies into bytes, heads of replies and their bodies out of bytes, and
//! a client's requests into bytes (RFC 9112).
//!
//! A `Wire` keeps what was read past the last message of a connection; each call takes the link that it reads. `ask`
//! gives the request or the refusal that the bytes decide, and reads only while they decide nothing. Which bytes decide
//! what is a relation on whole lists (`Decides`), and `laws` says that no bytes that decide begin others that do.
//! Heads are read by `httparse`, methods are `http`'s, and fields stand in `http_header`'s map.
//!
//! `reply` gives the head of a reply, and `Body` reads the body behind it: data as it comes, with nothing read past it.
//!
//! `request_bytes` gives the bytes of each request of a client. `reply_bytes` gives the bytes of each reply, and `closing`
//! puts `Connection: close` into one.
//!
//! Not promised: that a read ends, or that what was written reaches anyone.
#![tactic(auto)]

mod around;
mod body;
mod body_reader;
mod call;
mod chunks;
mod framing;
mod head;
mod held;
pub mod laws;
mod looks;
mod reading;
mod refusal;
mod reply;
mod request;
mod response;
mod stop;
mod wire;

pub use body::{Body, BodyState};
pub use body_reader::BodyReader;
pub use call::{Call, request_bytes};
pub use framing::Framing;
pub use refusal::Refusal;
pub use reply::{Reply, closing, reply_bytes};
pub use request::{Asked, Request};
pub use response::{BodyKind, Replied, ReplyHead};
pub use stop::Stop;
pub use wire::Wire;

#[cfg(test)]
mod call_tests;
#[cfg(test)]
mod reply_tests;
#[cfg(test)]
mod response_tests;
#[cfg(test)]
mod tests;
