//! The update stream: which bytes spell updates, and what is wrong with bytes that spell none.
//!
//! A stream is any number of updates, each after empty lines. An update is a head of field lines in the manner of
//! RFC 9112, and the content that the head asks for: a body, or patches with heads of their own. `laws` says that
//! bytes are a stream of one list of updates, or have one fault at one place, or neither: they end before that is
//! decided. It says what a fault is in the words of the grammar, a line, a head or a content that is wrong where one
//! may stand; and that the canonical spelling of an update is read as that update, whatever follows it. `read_stream`
//! reads a whole slice by these definitions, and `read_put` one update whose head's fields came with a request and whose
//! content is the request's body.
//!
//! Nothing here reads a connection or keeps a part of an update between calls: that is for the crates above.
#![tactic(auto)]

mod content;
mod found;
mod head;
pub mod laws;
mod line;
mod patch;
mod put;
mod stream;
mod update;

pub use head::HEAD_LIMIT;
pub use put::{PutFault, read_put};
pub use stream::{Stream, StreamEnd, read_stream};

#[cfg(test)]
mod put_tests;
#[cfg(test)]
mod tests;
