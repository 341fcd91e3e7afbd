//! Requests of a hostile peer that are refused or torn: what each is answered with, and how the session ends.

use crate::replies::{BAD_CHUNK, BAD_HEAD, BAD_LENGTH, BOTH_LENGTHS, TOO_LONG, VERSION};
use crate::sessions::{PIECES, Session, served};
use braid_ids::{Bytes, Memory};
use braid_session::SessionEnd;
use std::alloc::Global;
use std::sync::Wait;
use std::test::Fail;

const R400: SessionEnd = SessionEnd::Refused { status: 400 };

const R413: SessionEnd = SessionEnd::Refused { status: 413 };

const R505: SessionEnd = SessionEnd::Refused { status: 505 };

/// What is written where a request is torn.
const NOTHING: &[u8] = b"";

/// What a session reads, its end, and what it writes.
type Row = (&'static [u8], SessionEnd, &'static [u8]);

/// Whether a session ended so, having written this and added nothing.
fn is_so(session: &Session, end: SessionEnd, written: &[u8]) -> bool {
    session.left.note.end == end && session.link.written() == written && session.left.has_entries(0)
}

/// Whether a session of these bytes in pieces of this size ends so, having written this and added nothing.
fn ends_so<R: Wait>(
    rt: &R,
    alloc: Global,
    piece: usize,
    asked: &[u8],
    end: SessionEnd,
    written: &[u8],
) -> Result<bool, Memory> {
    let asked = Bytes::of(alloc, asked)?;
    let session = served(rt, alloc, asked, piece, 10_000, &[])?;
    Ok(is_so(&session, end, written))
}

/// Whether sessions of a row in pieces of each size end as it says.
fn row_holds<R: Wait>(rt: &R, alloc: Global, row: Row) -> Result<bool, Memory> {
    let (asked, end, written) = row;
    for piece in PIECES {
        if !ends_so(rt, alloc, piece, asked, end, written)? {
            return Ok(false);
        }
    }
    Ok(true)
}

/// The first row that does not hold.
fn first_other<R: Wait>(rt: &R, alloc: Global, rows: &[Row]) -> Result<Option<usize>, Memory> {
    for (n, row) in rows.iter().enumerate() {
        if !row_holds(rt, alloc, *row)? {
            return Ok(Some(n));
        }
    }
    Ok(None)
}

/// Heads that are none, of another version, or torn.
const HEADS: &[Row] = &[
    (b"GET /a HTTP/1.1\r\nA: b\x00c\r\n\r\n", R400, BAD_HEAD),
    (b"GET /a HTTP/1.1\r\nA: b\rc\r\n\r\n", R400, BAD_HEAD),
    (b"GET /a HTTP/1.1\r\nA: b\x7f\r\n\r\n", R400, BAD_HEAD),
    (b"GET /a HTTP/1.1\r\nA: b\r\n c\r\n\r\n", R400, BAD_HEAD),
    (b"GET /a HTTP/1.1\r\nA: b\r\n\tc\r\n\r\n", R400, BAD_HEAD),
    (b"GET /a HTTP/1.1\r\n A: b\r\n\r\n", R400, BAD_HEAD),
    (b"GET /a HTTP/1.1\r\nA\r\n\r\n", R400, BAD_HEAD),
    (b"GET /a HTTP/1.1\r\n: b\r\n\r\n", R400, BAD_HEAD),
    (b"GET /a HTTP/1.1\r\nA b: c\r\n\r\n", R400, BAD_HEAD),
    (
        b"PUT /a HTTP/1.1\r\nContent-Length : 0\r\n\r\n",
        R400,
        BAD_HEAD,
    ),
    (
        b"PUT /a HTTP/1.1\r\nContent-Length\t: 0\r\n\r\n",
        R400,
        BAD_HEAD,
    ),
    (b"GET /a\r\n\r\n", R400, BAD_HEAD),
    (b"GET  /a HTTP/1.1\r\n\r\n", R400, BAD_HEAD),
    (b"GET /a HTTP/1.1 \r\n\r\n", R400, BAD_HEAD),
    (b" GET /a HTTP/1.1\r\n\r\n", R400, BAD_HEAD),
    (b"GET\t/a\tHTTP/1.1\r\n\r\n", R400, BAD_HEAD),
    (b"G\x00T /a HTTP/1.1\r\n\r\n", R400, BAD_HEAD),
    (b"GET /a\x00b HTTP/1.1\r\n\r\n", R400, BAD_HEAD),
    (b"GET /a HTTP/1.2\r\n\r\n", R400, BAD_HEAD),
    (b"GET /a http/1.1\r\n\r\n", R400, BAD_HEAD),
    (b"PRI * HTTP/2.0\r\n\r\nSM\r\n\r\n", R400, BAD_HEAD),
    (b"\x16\x03\x01\x02\x00\x01\x00\n\n", R400, BAD_HEAD),
    (b"GET / HTTP/1.0\r\nA: \x00\r\n\r\n", R400, BAD_HEAD),
    (b"GET / HTTP/1.0\r\n\r\n", R505, VERSION),
    (
        b"PUT / HTTP/1.0\r\nContent-Length: 4\r\nTransfer-Encoding: chunked\r\n\r\n",
        R505,
        VERSION,
    ),
    (b"PUT /a HTTP/1.1", SessionEnd::Torn, NOTHING),
    (
        b"PUT /a HTTP/1.1\r\nVersion: \"a\"\r\n",
        SessionEnd::Torn,
        NOTHING,
    ),
    (
        b"PUT /a HTTP/1.1\r\nVersion: \"a\"\r\n\r",
        SessionEnd::Torn,
        NOTHING,
    ),
    (
        b"PUT /a HTTP/1.1\r\nVersion: \"a\"\r\nContent-Length: 1\r\n\r\n",
        SessionEnd::Torn,
        NOTHING,
    ),
    (b"\n", SessionEnd::Torn, NOTHING),
];

#[test]
fn heads_that_are_none_are_refused(rt: HostRuntime) -> Result<(), Fail> {
    assert_eq!(rt; first_other(&rt, rt.alloc(), HEADS)?, None);
    Ok(())
}

/// Lengths and encodings that are none, too long or torn.
const LENGTHS: &[Row] = &[
    (
        b"PUT /a HTTP/1.1\r\nVersion: \"a\"\r\nContent-Length: 4\r\nContent-Length: 4\r\n\r\nabcd",
        R400,
        BAD_LENGTH,
    ),
    (
        b"PUT /a HTTP/1.1\r\nVersion: \"a\"\r\ncontent-length: 4\r\nCONTENT-LENGTH: 4\r\n\r\nabcd",
        R400,
        BAD_LENGTH,
    ),
    (
        b"PUT /a HTTP/1.1\r\nVersion: \"a\"\r\nContent-Length: 4, 4\r\n\r\nabcd",
        R400,
        BAD_LENGTH,
    ),
    (
        b"PUT /a HTTP/1.1\r\nVersion: \"a\"\r\nContent-Length: 4 4\r\n\r\nabcd",
        R400,
        BAD_LENGTH,
    ),
    (
        b"PUT /a HTTP/1.1\r\nVersion: \"a\"\r\nContent-Length: +4\r\n\r\nabcd",
        R400,
        BAD_LENGTH,
    ),
    (
        b"PUT /a HTTP/1.1\r\nVersion: \"a\"\r\nContent-Length: -4\r\n\r\nabcd",
        R400,
        BAD_LENGTH,
    ),
    (
        b"PUT /a HTTP/1.1\r\nVersion: \"a\"\r\nContent-Length: 0x4\r\n\r\nabcd",
        R400,
        BAD_LENGTH,
    ),
    (
        b"PUT /a HTTP/1.1\r\nVersion: \"a\"\r\nContent-Length: 4.0\r\n\r\nabcd",
        R400,
        BAD_LENGTH,
    ),
    (
        b"PUT /a HTTP/1.1\r\nVersion: \"a\"\r\nContent-Length:\r\n\r\nabcd",
        R400,
        BAD_LENGTH,
    ),
    (
        b"PUT /a HTTP/1.1\r\nVersion: \"a\"\r\nContent-Length: 0000000000000004\r\n\r\nabcd",
        R400,
        BAD_LENGTH,
    ),
    (
        b"PUT /a HTTP/1.1\r\nVersion: \"a\"\r\nContent-Length: 1234567890123456\r\n\r\nabcd",
        R400,
        BAD_LENGTH,
    ),
    (
        b"PUT /a HTTP/1.1\r\nVersion: \"a\"\r\nContent-Length: 999999999999999\r\n\r\nabcd",
        R413,
        TOO_LONG,
    ),
    (
        b"PUT /a HTTP/1.1\r\nVersion: \"a\"\r\nContent-Length: 2097153\r\n\r\nabcd",
        R413,
        TOO_LONG,
    ),
    (
        b"PUT /a HTTP/1.1\r\nVersion: \"a\"\r\nContent-Length: 2097152\r\n\r\nabcd",
        SessionEnd::Torn,
        NOTHING,
    ),
    (
        b"PUT /a HTTP/1.1\r\nVersion: \"a\"\r\nTransfer-Encoding: identity\r\n\r\nabcd",
        R400,
        BAD_LENGTH,
    ),
    (
        b"PUT /a HTTP/1.1\r\nVersion: \"a\"\r\nTransfer-Encoding:\r\n\r\nabcd",
        R400,
        BAD_LENGTH,
    ),
    (
        b"PUT /a HTTP/1.1\r\nVersion: \"a\"\r\nTransfer-Encoding: xchunked\r\n\r\n0\r\n\r\n",
        R400,
        BAD_LENGTH,
    ),
    (
        b"PUT /a HTTP/1.1\r\nVersion: \"a\"\r\nTransfer-Encoding: gzip, chunked\r\n\r\n0\r\n\r\n",
        R400,
        BAD_LENGTH,
    ),
    (
        b"PUT /a HTTP/1.1\r\nVersion: \"a\"\r\nTransfer-Encoding: chunked, chunked\r\n\r\n0\r\n\r\n",
        R400,
        BAD_LENGTH,
    ),
    (
        b"PUT /a HTTP/1.1\r\nVersion: \"a\"\r\nTransfer-Encoding: chunked;a=b\r\n\r\n0\r\n\r\n",
        R400,
        BAD_LENGTH,
    ),
    (
        b"PUT /a HTTP/1.1\r\nVersion: \"a\"\r\nTransfer-Encoding: chunked\r\nTransfer-Encoding: chunked\r\n\r\n0\r\n\r\n",
        R400,
        BAD_LENGTH,
    ),
    (
        b"PUT /a HTTP/1.1\r\nVersion: \"a\"\r\nTransfer-Encoding: identity\r\nTransfer-Encoding: chunked\r\n\r\n0\r\n\r\n",
        R400,
        BAD_LENGTH,
    ),
    (
        b"PUT /a HTTP/1.1\r\nVersion: \"a\"\r\nContent-Length: 4\r\nTransfer-Encoding: chunked\r\n\r\n0\r\n\r\nGET /a HTTP/1.1\r\n\r\n",
        R400,
        BOTH_LENGTHS,
    ),
    (
        b"PUT /a HTTP/1.1\r\nVersion: \"a\"\r\nTransfer-Encoding: chunked\r\nContent-Length: 4\r\n\r\n0\r\n\r\nGET /a HTTP/1.1\r\n\r\n",
        R400,
        BOTH_LENGTHS,
    ),
    (
        b"PUT /a HTTP/1.1\r\nVersion: \"a\"\r\nTransfer-Encoding: identity\r\nContent-Length: 4\r\n\r\nabcd",
        R400,
        BOTH_LENGTHS,
    ),
    (
        b"PUT /a HTTP/1.1\r\nVersion: \"a\"\r\nContent-Length: x\r\nContent-Length: y\r\nTransfer-Encoding: z\r\n\r\nabcd",
        R400,
        BOTH_LENGTHS,
    ),
];

#[test]
fn lengths_that_are_none_are_refused(rt: HostRuntime) -> Result<(), Fail> {
    assert_eq!(rt; first_other(&rt, rt.alloc(), LENGTHS)?, None);
    Ok(())
}

/// Chunks that are none, too long or torn.
const CHUNKS: &[Row] = &[
    (
        b"PUT /a HTTP/1.1\r\nVersion: \"a\"\r\nTransfer-Encoding: chunked\r\n\r\nffffffff\r\n",
        R413,
        TOO_LONG,
    ),
    (
        b"PUT /a HTTP/1.1\r\nVersion: \"a\"\r\nTransfer-Encoding: chunked\r\n\r\nffffffffffffffff\r\n",
        R413,
        TOO_LONG,
    ),
    (
        b"PUT /a HTTP/1.1\r\nVersion: \"a\"\r\nTransfer-Encoding: chunked\r\n\r\n200001\r\n",
        R413,
        TOO_LONG,
    ),
    (
        b"PUT /a HTTP/1.1\r\nVersion: \"a\"\r\nTransfer-Encoding: chunked\r\n\r\n1\r\na\r\n200000\r\n",
        R413,
        TOO_LONG,
    ),
    (
        b"PUT /a HTTP/1.1\r\nVersion: \"a\"\r\nTransfer-Encoding: chunked\r\n\r\n10000000000000000\r\n",
        R400,
        BAD_CHUNK,
    ),
    (
        b"PUT /a HTTP/1.1\r\nVersion: \"a\"\r\nTransfer-Encoding: chunked\r\n\r\n+4\r\n",
        R400,
        BAD_CHUNK,
    ),
    (
        b"PUT /a HTTP/1.1\r\nVersion: \"a\"\r\nTransfer-Encoding: chunked\r\n\r\n-4\r\n",
        R400,
        BAD_CHUNK,
    ),
    (
        b"PUT /a HTTP/1.1\r\nVersion: \"a\"\r\nTransfer-Encoding: chunked\r\n\r\n0x4\r\n",
        R400,
        BAD_CHUNK,
    ),
    (
        b"PUT /a HTTP/1.1\r\nVersion: \"a\"\r\nTransfer-Encoding: chunked\r\n\r\n4g\r\n",
        R400,
        BAD_CHUNK,
    ),
    (
        b"PUT /a HTTP/1.1\r\nVersion: \"a\"\r\nTransfer-Encoding: chunked\r\n\r\n\r\n",
        R400,
        BAD_CHUNK,
    ),
    (
        b"PUT /a HTTP/1.1\r\nVersion: \"a\"\r\nTransfer-Encoding: chunked\r\n\r\n;a\r\n",
        R400,
        BAD_CHUNK,
    ),
    (
        b"PUT /a HTTP/1.1\r\nVersion: \"a\"\r\nTransfer-Encoding: chunked\r\n\r\n4\nabcd\r\n",
        R400,
        BAD_CHUNK,
    ),
    (
        b"PUT /a HTTP/1.1\r\nVersion: \"a\"\r\nTransfer-Encoding: chunked\r\n\r\n4\r\nabcdxx",
        R400,
        BAD_CHUNK,
    ),
    (
        b"PUT /a HTTP/1.1\r\nVersion: \"a\"\r\nTransfer-Encoding: chunked\r\n\r\n4\r\nabcd\n",
        R400,
        BAD_CHUNK,
    ),
    (
        b"PUT /a HTTP/1.1\r\nVersion: \"a\"\r\nTransfer-Encoding: chunked\r\n\r\n4\r\nabcd\rx",
        R400,
        BAD_CHUNK,
    ),
    (
        b"PUT /a HTTP/1.1\r\nVersion: \"a\"\r\nTransfer-Encoding: chunked\r\n\r\n4\r\nabcde",
        R400,
        BAD_CHUNK,
    ),
    (
        b"PUT /a HTTP/1.1\r\nVersion: \"a\"\r\nTransfer-Encoding: chunked\r\n\r\n4\r\nabc",
        SessionEnd::Torn,
        NOTHING,
    ),
    (
        b"PUT /a HTTP/1.1\r\nVersion: \"a\"\r\nTransfer-Encoding: chunked\r\n\r\n4\r\nabcd\r\n",
        SessionEnd::Torn,
        NOTHING,
    ),
    (
        b"PUT /a HTTP/1.1\r\nVersion: \"a\"\r\nTransfer-Encoding: chunked\r\n\r\n4\r\nabcd\r\n0\r\n",
        SessionEnd::Torn,
        NOTHING,
    ),
    (
        b"PUT /a HTTP/1.1\r\nVersion: \"a\"\r\nTransfer-Encoding: chunked\r\n\r\n4\r\nabcd\r\n0\r\nA: b\r\n",
        SessionEnd::Torn,
        NOTHING,
    ),
    (
        b"PUT /a HTTP/1.1\r\nVersion: \"a\"\r\nTransfer-Encoding: chunked\r\n\r\n0",
        SessionEnd::Torn,
        NOTHING,
    ),
];

#[test]
fn chunks_that_are_none_are_refused(rt: HostRuntime) -> Result<(), Fail> {
    assert_eq!(rt; first_other(&rt, rt.alloc(), CHUNKS)?, None);
    Ok(())
}
