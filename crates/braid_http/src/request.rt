use crate::refusal::Refusal;
use braid_ids::Bytes;
use http::Method;
use http_header::{HeaderMap, HeaderValue};

/// A whole request.
#[derive(Drop)]
pub struct Request {
    /// The method of its first line.
    pub method: Method,
    /// The target of its first line, as it stands there.
    pub target: Bytes,
    /// Its fields: the values of each name in the order of their lines.
    pub fields: HeaderMap<HeaderValue>,
    /// Whether a part of a `Connection` field is `close`.
    pub close: bool,
    /// Its body, decoded.
    pub body: Bytes,
}

/// What a connection's next bytes are.
#[derive(Drop)]
pub enum Asked {
    /// A whole request.
    Request(Request),
    /// The source ended, and no byte of a request had come.
    End,
    /// The bytes are no request.
    Refused(Refusal),
    /// The source ended inside a request.
    Torn,
    /// A read failed inside a request or before one.
    ReadFault,
    /// There was no memory.
    Memory,
}
