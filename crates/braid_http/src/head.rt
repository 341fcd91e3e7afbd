//! A whole request head, as `http` and `http_header` hold it.

ghost use Rattle.std.specs.Prelude.{◌≡◌, ◌≤◌, ◌+◌, [], length, All, OnOk, IfOk, IsErrOf, fold, map};
ghost use Rattle.httparse.specs.Grammar.{RequestHead};
ghost use Rattle.httparse.specs.Spans.{header_bytes, IsHeaderWithin};
ghost use Rattle.http_header.specs.HeaderMap.{value_count};
ghost use Rattle.http_header.specs.FieldValue.{plain_value};
ghost use Rattle.http_header.specs.Token.{lowercase};
ghost use Rattle.braid_http.specs.Fields.{append_named, IsWhole};
ghost use Rattle.braid_http.specs.HeadReads.{IsGood, IsGoodAt, Holds};

use http::Method;
use http::method::MethodError;
use http_header::{
    HeaderMap, HeaderMapError, HeaderName, HeaderNameError, HeaderValue, HeaderValueError,
};
use httparse::Status;
use httparse::spans::{EMPTY_HEADER_SPAN, HeaderSpan, parse_request};
use std::alloc::Global;

/// The most fields of a head.
pub const MOST_FIELDS: usize = 64;

/// Why a head gives no request.
#[derive(Debug, Clone, Copy, PartialEq, Eq)]
pub enum HeadFault {
    /// It is not read.
    Bad,
    /// There was no memory.
    Memory,
}

/// A request head.
#[derive(Drop)]
pub struct Head {
    pub method: Method,
    pub target: Vec<u8>,
    pub minor: u8,
    pub fields: HeaderMap<HeaderValue>,
}

/// One field line's name and value.
fn field_of(
    alloc: Global,
    name: &[u8],
    value: &[u8],
) -> Result<(HeaderName, HeaderValue), HeadFault>
    ensures ok { IfOk result (λ f. (f.0 ≡ lowercase name.now) × (f.1 ≡ plain_value value.now)) }
    ensures good { OnOk result (IsGood (name.now, value.now)) }
    ensures bad { IsErrOf result HeadFault.Bad → ¬ (IsGood (name.now, value.now)) }
{
    let name = match HeaderName::from_bytes(alloc, name) {
        Ok(name) => name,
        Err(HeaderNameError::Invalid) => return Err(HeadFault::Bad),
        Err(HeaderNameError::OutOfMemory) => return Err(HeadFault::Memory),
    };
    match HeaderValue::from_bytes(alloc, value) {
        Ok(value) => Ok((name, value)),
        Err(HeaderValueError::Invalid) => Err(HeadFault::Bad),
        Err(HeaderValueError::OutOfMemory) => Err(HeadFault::Memory),
    }
}

/// Adds the field that a span names. A map of 64 names at most has room.
#[tactic(auto, unfolding(crate::specs::Fields::append_named), using(crate::proofs::MapSizes::count_append, crate::proofs::MapSizes::length_append_le))]
fn add_field(
    fields: &mut HeaderMap<HeaderValue>,
    alloc: Global,
    bytes: &[u8],
    span: HeaderSpan,
) -> Result<(), HeadFault>
    requires within { IsHeaderWithin (length bytes.now) span }
    requires names { length fields.old ≤ 64 }
    requires values { value_count fields.old ≤ 64 }
    ensures more_names { OnOk result (length fields.new ≤ length fields.old + 1) }
    ensures more_values { OnOk result (value_count fields.new ≡ value_count fields.old + 1) }
    ensures ok { OnOk result (fields.new ≡ append_named fields.old (header_bytes bytes.now span)) }
    ensures good { OnOk result (IsGoodAt bytes.now span) }
    ensures bad { IsErrOf result HeadFault.Bad → ¬ (IsGoodAt bytes.now span) }
{
    let (name, value) = field_of(alloc, span.name.of(bytes), span.value.of(bytes))?;
    match fields.append(name, value) {
        Ok(_) => Ok(()),
        Err(HeaderMapError::OutOfMemory) => Err(HeadFault::Memory),
        Err(HeaderMapError::MaxSizeReached) => unreachable!(),
    }
}

/// The fields that spans name, in their order.
#[tactic(auto, using(crate::proofs::FieldLemmas::one_more))]
pub fn fields_at(
    alloc: Global,
    bytes: &[u8],
    spans: &[HeaderSpan],
) -> Result<HeaderMap<HeaderValue>, HeadFault>
    requires within { All (IsHeaderWithin (length bytes.now)) spans.now }
    requires few { length spans.now ≤ 64 }
    ensures bad { IsErrOf result HeadFault.Bad → ¬ (All (IsGoodAt bytes.now) spans.now) }
    ensures good { OnOk result (All (IsGoodAt bytes.now) spans.now) }
    ensures ok { IfOk result (λ m. m ≡ fold append_named [] (map (header_bytes bytes.now) spans.now)) }
{
    let mut fields = HeaderMap::new(alloc);
    for span in spans {
        add_field(&mut fields, alloc, bytes, *span)?;
    }
    Ok(fields)
}

/// Reads a whole request head.
pub fn read_head(alloc: Global, bytes: &[u8]) -> Result<Head, HeadFault>
    ensures ok { IfOk result (λ r. (h : RequestHead) × IsWhole bytes.now h × Holds r h) }
    ensures bad { IsErrOf result HeadFault.Bad → (h : RequestHead) → ¬ (IsWhole bytes.now h) }
{
    let mut headers = [EMPTY_HEADER_SPAN; MOST_FIELDS];
    let head = match parse_request(bytes, &mut headers) {
        Ok(Status::Complete(head)) => head,
        _ => return Err(HeadFault::Bad),
    };
    if head.len != bytes.len() {
        return Err(HeadFault::Bad);
    }
    let method = match Method::from_bytes(alloc, head.method.of(bytes)) {
        Ok(method) => method,
        Err(MethodError::Invalid) => return Err(HeadFault::Bad),
        Err(MethodError::OutOfMemory) => return Err(HeadFault::Memory),
    };
    let fields = fields_at(alloc, bytes, &headers[..head.headers])?;
    let Ok(target) = Vec::from_slice(alloc, head.path.of(bytes)) else {
        return Err(HeadFault::Memory);
    };
    Ok(Head {
        method,
        target,
        minor: head.version,
        fields,
    })
}
