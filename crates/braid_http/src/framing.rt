//! What the fields of a request say of its body, and whether they ask to close the connection.

ghost use Rattle.std.specs.Prelude.{◌≡◌};
ghost use Rattle.std.specs.List.{list_any};
ghost use Rattle.braid_http.specs.Framings.{by_length, by_coding, framing, is_close, parts_of, closes};

use crate::head::Head;
use crate::refusal::Refusal;
use braid_fields::{are_length_digits, trimmed};
use braid_ids::split_at_byte;
use braid_shelf::digits_value;
use http_header::{HeaderMap, HeaderValue};

/// The most bytes of a request's body, and of the data of one that is chunked.
pub const MOST_BYTES: u64 = 2_097_152;

/// What a whole head announces.
#[derive(Clone, Copy, Debug, PartialEq, Eq)]
pub enum Framing {
    /// Its version or its fields are refused.
    No(Refusal),
    /// A body of so many bytes.
    Body(u64),
    /// A chunked body.
    Chunks,
}

/// What the one value of `Content-Length` announces.
fn by_length(value: &[u8]) -> Framing
    ensures { result ≡ by_length value.now }
{
    if !are_length_digits(value) {
        return Framing::No(Refusal::BadLength);
    }
    let n = digits_value(value);
    if n > MOST_BYTES {
        Framing::No(Refusal::TooLong)
    } else {
        Framing::Body(n)
    }
}

/// What the one value of `Transfer-Encoding` announces.
fn by_coding(value: &[u8]) -> Framing
    ensures { result ≡ by_coding value.now }
{
    if value.eq_ignore_ascii_case(b"chunked") {
        Framing::Chunks
    } else {
        Framing::No(Refusal::BadLength)
    }
}

/// What a head announces.
pub fn announced(head: &Head) -> Framing
    ensures { result ≡ framing head.now.minor head.now.fields }
{
    if head.minor == 0 {
        return Framing::No(Refusal::Version);
    }
    let mut lengths = head.fields.get_all("content-length").iter();
    let mut codings = head.fields.get_all("transfer-encoding").iter();
    match (lengths.next(), codings.next()) {
        (Some(_), Some(_)) => Framing::No(Refusal::BothLengths),
        (None, None) => Framing::Body(0),
        (Some(value), None) => match lengths.next() {
            Some(_) => Framing::No(Refusal::BadLength),
            None => by_length(value.as_bytes()),
        },
        (None, Some(value)) => match codings.next() {
            Some(_) => Framing::No(Refusal::BadLength),
            None => by_coding(value.as_bytes()),
        },
    }
}

/// Whether a part of a value is `close`.
fn is_close(part: &[u8]) -> bool
    ensures { result ≡ is_close part.now }
{
    trimmed(part).eq_ignore_ascii_case(b"close")
}

/// Whether some part of a value is `close`.
fn has_close(value: &[u8]) -> bool
    ensures { result ≡ list_any is_close (parts_of value.now) }
{
    let mut rest = value;
    'parts: while let Some((part, behind)) = split_at_byte(b',', rest) {
        if is_close(part) {
            return true;
        }
        rest = behind;
    }
    is_close(rest)
}

/// Whether some part of some `Connection` field is `close`.
#[tactic(auto, unfolding(crate::specs::Framings::closes))]
pub fn closes(fields: &HeaderMap<HeaderValue>) -> bool
    ensures { result ≡ closes fields.now }
{
    fields
        .get_all("connection")
        .iter()
        .any(|value| has_close(value.as_bytes()))
}
