//! The limits of a head and of a connection: the last value of each, and the next one.

use crate::filled::filled;
use crate::sessions::{PIECES, Session, served};
use braid_ids::Memory;
use braid_session::SessionEnd;
use std::alloc::Global;
use std::sync::Wait;
use std::test::Fail;

const R431: SessionEnd = SessionEnd::Refused { status: 431 };

/// What a session reads, its end, how many requests it answers and how many entries it adds, and how what it writes
/// begins and ends.
#[derive(Clone, Copy)]
pub struct Row {
    pub front: &'static [u8],
    pub filler: &'static [u8],
    pub times: u32,
    pub back: &'static [u8],
    pub end: SessionEnd,
    pub requests: u64,
    pub entries: u64,
    pub begins: &'static [u8],
    pub ends: &'static [u8],
}

/// Whether a session left what one of a row is to leave.
fn is_so(session: &Session, row: &Row) -> bool {
    session.link.written().starts_with(row.begins)
        && session.link.written().ends_with(row.ends)
        && session.left.note.end == row.end
        && session.left.note.requests == row.requests
        && session.left.has_entries(row.entries)
}

/// Whether a session of a row leaves what it is to leave, in pieces of this size.
fn row_holds<R: Wait>(rt: &R, alloc: Global, row: &Row, piece: usize) -> Result<bool, Memory> {
    let asked = filled(alloc, row.front, row.filler, row.times, row.back)?;
    let session = served(rt, alloc, asked, piece, 2_000_000, &[])?;
    Ok(is_so(&session, row))
}

/// Whether sessions of a row in pieces of each of these sizes leave what they are to leave.
fn holds_in_pieces<R: Wait>(
    rt: &R,
    alloc: Global,
    row: &Row,
    pieces: &[usize],
) -> Result<bool, Memory> {
    for piece in pieces {
        if !row_holds(rt, alloc, row, *piece)? {
            return Ok(false);
        }
    }
    Ok(true)
}

/// The first row that does not hold.
pub fn first_other<R: Wait>(
    rt: &R,
    alloc: Global,
    rows: &[Row],
    pieces: &[usize],
) -> Result<Option<usize>, Memory> {
    for (n, row) in rows.iter().enumerate() {
        if !holds_in_pieces(rt, alloc, row, pieces)? {
            return Ok(Some(n));
        }
    }
    Ok(None)
}

/// Heads at their limits.
const HEADS: &[Row] = &[
    // A head of 16,384 bytes, and one more.
    Row {
        front: b"GET /a HTTP/1.1\r\nA: ",
        filler: b"a",
        times: 16_360,
        back: b"\r\n\r\n",
        end: SessionEnd::Closed,
        requests: 1,
        entries: 0,
        begins: b"HTTP/1.1 404 Not Found\r\n",
        ends: b"\r\n\r\nAbsent\n",
    },
    Row {
        front: b"GET /a HTTP/1.1\r\nA: ",
        filler: b"a",
        times: 16_361,
        back: b"\r\n\r\n",
        end: R431,
        requests: 0,
        entries: 0,
        begins: b"HTTP/1.1 431 Request Header Fields Too Large\r\n",
        ends: b"\r\n\r\nLongHead\n",
    },
    // A field line without its end.
    Row {
        front: b"GET /a HTTP/1.1\r\nA: ",
        filler: b"a",
        times: 16_363,
        back: b"",
        end: SessionEnd::Torn,
        requests: 0,
        entries: 0,
        begins: b"",
        ends: b"",
    },
    Row {
        front: b"GET /a HTTP/1.1\r\nA: ",
        filler: b"a",
        times: 16_364,
        back: b"",
        end: R431,
        requests: 0,
        entries: 0,
        begins: b"HTTP/1.1 431 Request Header Fields Too Large\r\n",
        ends: b"\r\n\r\nLongHead\n",
    },
    // 16,384 bytes of one field line.
    Row {
        front: b"GET /a HTTP/1.1\r\nA: ",
        filler: b"a",
        times: 16_381,
        back: b"",
        end: R431,
        requests: 0,
        entries: 0,
        begins: b"HTTP/1.1 431 Request Header Fields Too Large\r\n",
        ends: b"\r\n\r\nLongHead\n",
    },
    // 64 field lines, and one more.
    Row {
        front: b"GET /a HTTP/1.1\r\n",
        filler: b"A: b\r\n",
        times: 64,
        back: b"\r\n",
        end: SessionEnd::Closed,
        requests: 1,
        entries: 0,
        begins: b"HTTP/1.1 404 Not Found\r\n",
        ends: b"\r\n\r\nAbsent\n",
    },
    Row {
        front: b"GET /a HTTP/1.1\r\n",
        filler: b"A: b\r\n",
        times: 65,
        back: b"\r\n",
        end: R431,
        requests: 0,
        entries: 0,
        begins: b"HTTP/1.1 431 Request Header Fields Too Large\r\n",
        ends: b"\r\n\r\nManyFields\n",
    },
    // Empty lines before a request count to its head.
    Row {
        front: b"",
        filler: b"\n",
        times: 16_365,
        back: b"GET /a HTTP/1.1\r\n\r\n",
        end: SessionEnd::Closed,
        requests: 1,
        entries: 0,
        begins: b"HTTP/1.1 404 Not Found\r\n",
        ends: b"\r\n\r\nAbsent\n",
    },
    Row {
        front: b"",
        filler: b"\n",
        times: 16_366,
        back: b"GET /a HTTP/1.1\r\n\r\n",
        end: R431,
        requests: 0,
        entries: 0,
        begins: b"HTTP/1.1 431 Request Header Fields Too Large\r\n",
        ends: b"\r\n\r\nLongHead\n",
    },
    Row {
        front: b"",
        filler: b"\r\n",
        times: 1_000_000,
        back: b"GET /a HTTP/1.1\r\n\r\n",
        end: R431,
        requests: 0,
        entries: 0,
        begins: b"HTTP/1.1 431 Request Header Fields Too Large\r\n",
        ends: b"\r\n\r\nLongHead\n",
    },
    // A path of 1,024 bytes, and one more.
    Row {
        front: b"GET /",
        filler: b"a",
        times: 1_023,
        back: b" HTTP/1.1\r\n\r\n",
        end: SessionEnd::Closed,
        requests: 1,
        entries: 0,
        begins: b"HTTP/1.1 404 Not Found\r\n",
        ends: b"\r\n\r\nAbsent\n",
    },
    Row {
        front: b"GET /",
        filler: b"a",
        times: 1_024,
        back: b" HTTP/1.1\r\n\r\n",
        end: SessionEnd::Closed,
        requests: 1,
        entries: 0,
        begins: b"HTTP/1.1 400 Bad Request\r\n",
        ends: b"\r\n\r\nPath\n",
    },
];

#[test]
fn a_head_has_its_limits(rt: HostRuntime) -> Result<(), Fail> {
    assert_eq!(rt; first_other(&rt, rt.alloc(), HEADS, &PIECES)?, None);
    Ok(())
}

/// Connections at their limit.
const CONNECTIONS: &[Row] = &[
    // 10,000 requests, and one more.
    Row {
        front: b"",
        filler: b"GET / HTTP/1.1\r\n\r\n",
        times: 9_999,
        back: b"",
        end: SessionEnd::Closed,
        requests: 9_999,
        entries: 0,
        begins: b"HTTP/1.1 404 Not Found\r\n",
        ends: b"\r\n\r\nAbsent\n",
    },
    Row {
        front: b"",
        filler: b"GET / HTTP/1.1\r\n\r\n",
        times: 10_001,
        back: b"",
        end: SessionEnd::Spent,
        requests: 10_000,
        entries: 0,
        begins: b"HTTP/1.1 404 Not Found\r\n",
        ends: b"\r\n\r\nAbsent\n",
    },
];

#[test]
fn a_connection_has_its_limit(rt: HostRuntime) -> Result<(), Fail> {
    assert_eq!(rt; first_other(&rt, rt.alloc(), CONNECTIONS, &[8_192])?, None);
    Ok(())
}
