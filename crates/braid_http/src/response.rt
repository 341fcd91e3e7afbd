//! Reading until the head of a reply is decided.

ghost use Rattle.std.specs.Prelude.{◌≡◌, ◌<◌, ◌≤◌, IfOk, IfErr, IsErrOf, Some, length, drop, codes};
ghost use Rattle.httparse.specs.Grammar.{ResponseHead};
ghost use Rattle.http_header.specs.HeaderMap.{get_all};
ghost use Rattle.braid_http.specs.Looks.{IsHeadAt};
ghost use Rattle.braid_http.specs.Responses.{IsWholeResponse, kind_by_length, kind_by_coding, kind_by_values, kind_of, replied, IsReplyDecided};
ghost use Rattle.braid_http.specs.ResponseReads.{HoldsReply};
ghost use Rattle.braid_http.specs.Replying.{replied_of, over_of_reply, JudgesReply, GivesReply};

use crate::head::{HeadFault, MOST_FIELDS, fields_at};
use crate::held::Held;
use crate::looks::HeadLook;
use crate::reading::{MOST_LINES, read_on};
use crate::refusal::Refusal;
use crate::stop::Stop;
use braid_fields::are_length_digits;
use braid_io::Link;
use braid_shelf::digits_value;
use http::StatusCode;
use http_header::{HeaderMap, HeaderValue};
use httparse::Status;
use httparse::spans::{EMPTY_HEADER_SPAN, parse_response};
use std::alloc::Global;

/// The most bytes of a reply's head.
const MOST_HEAD: usize = 524_288;

/// How the body of a reply ends.
#[derive(Clone, Copy, Debug, PartialEq, Eq)]
pub enum BodyKind {
    /// It has so many bytes.
    Length(u64),
    /// It is chunked.
    Chunked,
    /// It ends with the connection.
    ToClose,
}

/// The head of a reply.
#[derive(Drop)]
pub struct ReplyHead {
    /// The status of its first line.
    pub status: StatusCode,
    /// Its fields: the values of each name in the order of their lines.
    pub fields: HeaderMap<HeaderValue>,
    /// How its body ends.
    pub body: BodyKind,
}

/// What a connection's next bytes are, where a reply is awaited.
#[derive(Drop)]
pub enum Replied {
    /// The head of a reply. Its body is not read.
    Head(ReplyHead),
    /// The bytes are no head of a reply.
    Refused(Refusal),
    /// The source ended before a head was whole, perhaps before its first byte.
    Torn,
    /// A read failed.
    ReadFault,
    /// There was no memory.
    Memory,
}

/// A head of a reply, and what its fields announce is not yet looked at.
#[derive(Drop)]
pub struct ResponseParts {
    pub status: StatusCode,
    pub fields: HeaderMap<HeaderValue>,
}

/// Reads a whole response head.
fn read_response(alloc: Global, bytes: &[u8]) -> Result<ResponseParts, HeadFault>
    ensures ok { IfOk result (λ r. (h : ResponseHead) × IsWholeResponse bytes.now h × HoldsReply r h) }
    ensures bad { IsErrOf result HeadFault.Bad → (h : ResponseHead) → ¬ (IsWholeResponse bytes.now h) }
{
    let mut headers = [EMPTY_HEADER_SPAN; MOST_FIELDS];
    let head = match parse_response(bytes, &mut headers) {
        Ok(Status::Complete(head)) => head,
        _ => return Err(HeadFault::Bad),
    };
    if head.len != bytes.len() {
        return Err(HeadFault::Bad);
    }
    let Ok(status) = StatusCode::from_u16(head.code) else {
        return Err(HeadFault::Bad);
    };
    let fields = fields_at(alloc, bytes, &headers[..head.headers])?;
    Ok(ResponseParts { status, fields })
}

/// What the one value of `Content-Length` announces.
fn kind_by_length(value: &[u8]) -> Result<BodyKind, Refusal>
    ensures { result ≡ kind_by_length value.now }
{
    if !are_length_digits(value) {
        return Err(Refusal::BadLength);
    }
    Ok(BodyKind::Length(digits_value(value)))
}

/// What the one value of `Transfer-Encoding` announces.
fn kind_by_coding(value: &[u8]) -> Result<BodyKind, Refusal>
    ensures { result ≡ kind_by_coding value.now }
{
    if value.eq_ignore_ascii_case(b"chunked") {
        Ok(BodyKind::Chunked)
    } else {
        Err(Refusal::BadLength)
    }
}

/// What the fields of a reply announce.
fn kind_by_fields(fields: &HeaderMap<HeaderValue>) -> Result<BodyKind, Refusal>
    ensures { result ≡ kind_by_values (get_all fields.now (codes "content-length"))
        (get_all fields.now (codes "transfer-encoding")) }
{
    let mut lengths = fields.get_all("content-length").iter();
    let mut codings = fields.get_all("transfer-encoding").iter();
    match (lengths.next(), codings.next()) {
        (Some(_), Some(_)) => Err(Refusal::BothLengths),
        (None, None) => Ok(BodyKind::ToClose),
        (Some(value), None) => match lengths.next() {
            Some(_) => Err(Refusal::BadLength),
            None => kind_by_length(value.as_bytes()),
        },
        (None, Some(value)) => match codings.next() {
            Some(_) => Err(Refusal::BadLength),
            None => kind_by_coding(value.as_bytes()),
        },
    }
}

/// How the body ends behind a head with this status and these fields.
fn kind_of(status: u16, fields: &HeaderMap<HeaderValue>) -> Result<BodyKind, Refusal>
    ensures { result ≡ kind_of status fields.now }
{
    let kind = kind_by_fields(fields)?;
    if status == 204 || status == 304 {
        Ok(BodyKind::Length(0))
    } else {
        Ok(kind)
    }
}

/// The reply's head that ends at a place.
fn judge_reply(alloc: Global, bytes: &[u8], look: &HeadLook, end: usize) -> Result<ReplyHead, Stop>
    requires at { IsHeadAt end look.now bytes.now }
    ensures ok { IfOk result
        (λ head. (end ≤ length bytes.now) × IsReplyDecided (replied head) bytes.now (drop end bytes.now)) }
    ensures err { IfErr result (λ stop. JudgesReply stop bytes.now) }
{
    if end > MOST_HEAD {
        return Err(Stop::Refused(Refusal::LongHead));
    }
    if look.full() > MOST_LINES {
        return Err(Stop::Refused(Refusal::ManyFields));
    }
    let parts = match read_response(alloc, &bytes[look.start()..end]) {
        Ok(parts) => parts,
        Err(HeadFault::Bad) => return Err(Stop::Refused(Refusal::BadHead)),
        Err(HeadFault::Memory) => return Err(Stop::Memory),
    };
    match kind_of(parts.status.as_u16(), &parts.fields) {
        Ok(body) => Ok(ReplyHead {
            status: parts.status,
            fields: parts.fields,
            body,
        }),
        Err(refusal) => Err(Stop::Refused(refusal)),
    }
}

/// The head of the next reply.
pub fn next_reply<K: Link>(
    alloc: Global,
    link: &mut K,
    held: &mut Held,
    buf: &mut [u8],
) -> Result<ReplyHead, Stop>
    requires some { 0 < length buf.old }
    ensures gives { GivesReply result held.old held.new (K.intake link.old) (K.intake link.new) }
    ensures kept { K.outflow link.new ≡ K.outflow link.old }
{
    let mut look = HeadLook::new();
    'waiting: loop {
        let bytes = held.get();
        if let Some(end) = look.find(bytes) {
            let head = judge_reply(alloc, bytes, &look, end)?;
            held.pass(end);
            return Ok(head);
        }
        if bytes.len() >= MOST_HEAD {
            return Err(Stop::Refused(Refusal::LongHead));
        }
        read_on(link, held, buf)?;
    }
}

impl Stop {
    /// What it is where a reply is awaited: the end of the source is no end between replies.
    pub fn in_reply(self) -> Stop
        ensures over { over_of_reply (replied_of self) ≡ Some result }
    {
        if let Stop::End = self {
            return Stop::Torn;
        }
        self
    }

    /// The answer that says so where a reply is awaited.
    pub fn replied(self) -> Replied
        ensures value { result ≡ replied_of self }
    {
        match self {
            Stop::End | Stop::Torn => Replied::Torn,
            Stop::Refused(refusal) => Replied::Refused(refusal),
            Stop::ReadFault => Replied::ReadFault,
            Stop::Memory => Replied::Memory,
        }
    }
}
