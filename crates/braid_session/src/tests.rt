//! Whole sessions over links in memory.

ghost use Rattle.std.specs.Prelude.{◌≡◌, false};
ghost use Rattle.braid_session.specs.Ends.{KeepsPlace};

use super::*;
use braid_hall::{Hall, Pass};
use braid_ids::{Bytes, Memory};
use braid_io::{MemBell, MemLink};
use braid_store::Book;
use std::alloc::Global;
use std::sync::Wait;

/// A PUT of `hello`, and its reply.
pub const HELLO: &[u8] = b"PUT /a HTTP/1.1\r\nVersion: \"x-1\"\r\nContent-Length: 5\r\n\r\nhello";

pub const STORED: &[u8] = b"HTTP/1.1 200 OK\r\nVersion: \"x-1\"\r\nContent-Length: 0\r\n\r\n";

/// What a session left.
#[derive(Drop)]
pub struct Left {
    pub link: MemLink,
    pub bell: MemBell,
    pub note: SessionNote,
    pub entries: u64,
}

/// A session on a new book behind a hall that opens at a ticket, with bytes that come in such pieces and a bell that
/// answers so often. The calls of its link of these numbers fail.
pub fn serve<R: Wait>(
    rt: &R,
    alloc: Global,
    ticket: u64,
    asked: Bytes,
    piece: usize,
    answers: u64,
    fails: &[u64],
) -> Result<Left, Memory> {
    let fails = Vec::from_slice(alloc, fails)?;
    let mut link = MemLink::new(alloc, asked, piece.max(1), 8_000_000, fails)?;
    let (hall, mut pass) = Hall::open_at(alloc, Book::new(alloc), ticket)?;
    let mut bell = MemBell::new(answers);
    let note = serve_session(alloc, rt, &hall, &mut pass, &mut link, &mut bell);
    let entries = hall.close(pass).len();
    Ok(Left {
        link,
        bell,
        note,
        entries,
    })
}

/// What a session reads, and what it is to leave.
struct Row {
    asked: &'static [u8],
    written: &'static [u8],
    marks: &'static [u64],
    entries: u64,
    requests: u64,
    end: SessionEnd,
}

fn is_left(left: &Left, row: &Row) -> bool {
    left.link.written() == row.written
        && left.note.marks.as_slice() == row.marks
        && left.entries == row.entries
        && left.bell.rings() == row.entries
        && left.note.requests == row.requests
        && left.note.end == row.end
}

/// Whether a session leaves that, in pieces of this size.
fn leaves<R: Wait>(rt: &R, alloc: Global, row: &Row, piece: usize) -> Result<bool, Memory> {
    let asked = Bytes::of(alloc, row.asked)?;
    let left = serve(rt, alloc, 0, asked, piece, 0, &[])?;
    Ok(is_left(&left, row))
}

/// Whether it does so in pieces of each size.
fn leaves_always<R: Wait>(rt: &R, alloc: Global, row: &Row) -> bool {
    leaves(rt, alloc, row, 1) == Ok(true)
        && leaves(rt, alloc, row, 7) == Ok(true)
        && leaves(rt, alloc, row, 1_000_000) == Ok(true)
}

/// Whether a session leaves what each row says.
fn all_leave<R: Wait>(rt: &R, alloc: Global, rows: &[Row]) -> bool {
    for row in rows {
        if !leaves_always(rt, alloc, row) {
            return false;
        }
    }
    true
}

const ROWS: [Row; 10] = [
    // Nothing.
    Row {
        asked: b"",
        written: b"",
        marks: &[],
        entries: 0,
        requests: 0,
        end: SessionEnd::Closed,
    },
    // A PUT, the same again, and what is then read.
    Row {
        asked: b"PUT /a HTTP/1.1\r\nVersion: \"x-1\"\r\nContent-Length: 2\r\n\r\nhiPUT /a HTTP/1.1\r\nVersion: \"x-1\"\r\nContent-Length: 2\r\n\r\nhiGET /a HTTP/1.1\r\n\r\n",
        written: b"HTTP/1.1 200 OK\r\nVersion: \"x-1\"\r\nContent-Length: 0\r\n\r\nHTTP/1.1 200 OK\r\nVersion: \"x-1\"\r\nContent-Length: 0\r\n\r\nHTTP/1.1 200 OK\r\nVersion: \"x-1\"\r\nMerge-Type: ti-text\r\nContent-Type: text/plain; charset=utf-8\r\nContent-Length: 2\r\n\r\nhi",
        marks: &[0, 1, 1],
        entries: 1,
        requests: 3,
        end: SessionEnd::Closed,
    },
    // As curl puts and gets, and asks to close.
    Row {
        asked: b"PUT /notes HTTP/1.1\r\nHost: localhost:8080\r\nUser-Agent: curl/8.5.0\r\nAccept: */*\r\nVersion: \"ann-1\"\r\nParents:\r\nContent-Length: 5\r\nContent-Type: application/x-www-form-urlencoded\r\n\r\nhelloGET /notes HTTP/1.1\r\nHost: localhost:8080\r\nUser-Agent: curl/8.5.0\r\nAccept: */*\r\nConnection: close\r\n\r\nGET /notes HTTP/1.1\r\n\r\n",
        written: b"HTTP/1.1 200 OK\r\nVersion: \"ann-1\"\r\nContent-Length: 0\r\n\r\nHTTP/1.1 200 OK\r\nVersion: \"ann-1\"\r\nMerge-Type: ti-text\r\nContent-Type: text/plain; charset=utf-8\r\nContent-Length: 5\r\nConnection: close\r\n\r\nhello",
        marks: &[0, 1],
        entries: 1,
        requests: 2,
        end: SessionEnd::Closed,
    },
    // A body in chunks, and a patch of it.
    Row {
        asked: b"PUT /a HTTP/1.1\r\nVersion: \"x-1\"\r\nTransfer-Encoding: chunked\r\n\r\n4\r\nhell\r\n1\r\no\r\n0\r\n\r\nPUT /a HTTP/1.1\r\nVersion: \"y-1\"\r\nParents: \"x-1\"\r\nPatches: 2\r\nContent-Length: 100\r\n\r\nContent-Length: 1\r\nContent-Range: text [0:1]\r\n\r\nj\r\nContent-Length: 1\r\nContent-Range: text [5:5]\r\n\r\n!GET /a HTTP/1.1\r\n\r\n",
        written: b"HTTP/1.1 200 OK\r\nVersion: \"x-1\"\r\nContent-Length: 0\r\n\r\nHTTP/1.1 200 OK\r\nVersion: \"y-1\"\r\nContent-Length: 0\r\n\r\nHTTP/1.1 200 OK\r\nVersion: \"y-1\"\r\nMerge-Type: ti-text\r\nContent-Type: text/plain; charset=utf-8\r\nContent-Length: 6\r\n\r\njello!",
        marks: &[0, 1, 2],
        entries: 2,
        requests: 3,
        end: SessionEnd::Closed,
    },
    // An older version is read at the version that was asked for.
    Row {
        asked: b"PUT /a HTTP/1.1\r\nVersion: \"x-1\"\r\nContent-Length: 2\r\n\r\nhiPUT /a HTTP/1.1\r\nVersion: \"x-2\"\r\nParents: \"x-1\"\r\nContent-Length: 3\r\n\r\nbyeGET /a HTTP/1.1\r\nVersion: \"x-1\"\r\n\r\n",
        written: b"HTTP/1.1 200 OK\r\nVersion: \"x-1\"\r\nContent-Length: 0\r\n\r\nHTTP/1.1 200 OK\r\nVersion: \"x-2\"\r\nContent-Length: 0\r\n\r\nHTTP/1.1 200 OK\r\nVersion: \"x-1\"\r\nMerge-Type: ti-text\r\nContent-Type: text/plain; charset=utf-8\r\nContent-Length: 2\r\n\r\nhi",
        marks: &[0, 1, 2],
        entries: 2,
        requests: 3,
        end: SessionEnd::Closed,
    },
    // An error's reply closes too where the request asked to.
    Row {
        asked: b"GET /a HTTP/1.1\r\nConnection: close\r\n\r\nGET /a HTTP/1.1\r\n\r\n",
        written: b"HTTP/1.1 404 Not Found\r\nContent-Type: text/plain; charset=utf-8\r\nContent-Length: 7\r\nConnection: close\r\n\r\nAbsent\n",
        marks: &[0],
        entries: 0,
        requests: 1,
        end: SessionEnd::Closed,
    },
    // An empty line is no whole request.
    Row {
        asked: b"\r\n",
        written: b"",
        marks: &[],
        entries: 0,
        requests: 0,
        end: SessionEnd::Torn,
    },
    // Lengths of both kinds are refused, and nothing is read behind them.
    Row {
        asked: b"GET /a HTTP/1.1\r\n\r\nPUT /a HTTP/1.1\r\nContent-Length: 1\r\nTransfer-Encoding: chunked\r\n\r\nGET /a HTTP/1.1\r\n\r\n",
        written: b"HTTP/1.1 404 Not Found\r\nContent-Type: text/plain; charset=utf-8\r\nContent-Length: 7\r\n\r\nAbsent\nHTTP/1.1 400 Bad Request\r\nContent-Type: text/plain; charset=utf-8\r\nContent-Length: 12\r\nConnection: close\r\n\r\nBothLengths\n",
        marks: &[0],
        entries: 0,
        requests: 1,
        end: SessionEnd::Refused { status: 400 },
    },
    // Another version is refused.
    Row {
        asked: b"GET /a HTTP/1.0\r\n\r\n",
        written: b"HTTP/1.1 505 HTTP Version Not Supported\r\nContent-Type: text/plain; charset=utf-8\r\nContent-Length: 8\r\nConnection: close\r\n\r\nVersion\n",
        marks: &[],
        entries: 0,
        requests: 0,
        end: SessionEnd::Refused { status: 505 },
    },
    // A request that is not whole.
    Row {
        asked: b"POST /a HTTP/1.1\r\n\r\nPUT /a HTTP/1.1\r\nVersion: \"x-1\"\r\nContent-Length: 5\r\n\r\nhell",
        written: b"HTTP/1.1 405 Method Not Allowed\r\nAllow: GET, PUT\r\nContent-Type: text/plain; charset=utf-8\r\nContent-Length: 7\r\n\r\nMethod\n",
        marks: &[],
        entries: 0,
        requests: 1,
        end: SessionEnd::Torn,
    },
];

#[test]
fn requests_are_answered_in_any_pieces(rt: HostRuntime) {
    assert!(rt; all_leave(&rt, rt.alloc(), &ROWS));
}

/// Bytes, others so many times, and a last part.
pub fn repeated(
    alloc: Global,
    first: &[u8],
    many: &[u8],
    times: u32,
    last: &[u8],
) -> Result<Bytes, Memory> {
    let mut bytes = Bytes::of(alloc, first)?;
    for _ in 0..times {
        bytes.push(many)?;
    }
    bytes.push(last)?;
    Ok(bytes)
}

/// A session of one request so many times, and of a last one, behind a hall that opens at a ticket; and how it is to
/// end, with the number of its replies and marks.
struct Ending {
    ticket: u64,
    many: &'static [u8],
    times: u32,
    last: &'static [u8],
    fails: &'static [u64],
    end: SessionEnd,
    requests: u64,
    marks: usize,
}

const GET: &[u8] = b"GET /a HTTP/1.1\r\n\r\n";

const POST: &[u8] = b"POST /a HTTP/1.1\r\n\r\n";

const ENDINGS: [Ending; 6] = [
    // The last ticket serves one turn.
    Ending {
        ticket: 9_223_372_036_854_775_807,
        many: GET,
        times: 2,
        last: b"",
        fails: &[],
        end: SessionEnd::Worn,
        requests: 1,
        marks: 1,
    },
    // Ten thousand requests are answered.
    Ending {
        ticket: 0,
        many: GET,
        times: 10_001,
        last: b"",
        fails: &[],
        end: SessionEnd::Spent,
        requests: 10_000,
        marks: 10_000,
    },
    // The last of ten thousand may ask to close.
    Ending {
        ticket: 0,
        many: POST,
        times: 9_999,
        last: b"POST /a HTTP/1.1\r\nConnection: close\r\n\r\n",
        fails: &[],
        end: SessionEnd::Spent,
        requests: 10_000,
        marks: 0,
    },
    // It may be a subscription.
    Ending {
        ticket: 0,
        many: POST,
        times: 9_999,
        last: b"GET /d HTTP/1.1\r\nSubscribe: true\r\n\r\n",
        fails: &[],
        end: SessionEnd::Stopped,
        requests: 10_000,
        marks: 2,
    },
    // A failed read.
    Ending {
        ticket: 0,
        many: GET,
        times: 1,
        last: b"",
        fails: &[2],
        end: SessionEnd::ReadFault,
        requests: 1,
        marks: 1,
    },
    // A failed write.
    Ending {
        ticket: 0,
        many: GET,
        times: 1,
        last: b"",
        fails: &[1],
        end: SessionEnd::WriteFault,
        requests: 0,
        marks: 1,
    },
];

/// Whether a session ends so.
fn ends_so<R: Wait>(rt: &R, alloc: Global, row: &Ending) -> Result<bool, Memory> {
    let asked = repeated(alloc, b"", row.many, row.times, row.last)?;
    let left = serve(rt, alloc, row.ticket, asked, 8_192, 1, row.fails)?;
    Ok(
        left.note.end == row.end
            && left.note.requests == row.requests
            && left.note.marks.len() == row.marks,
    )
}

/// Whether a session ends as each row says.
fn all_end_so<R: Wait>(rt: &R, alloc: Global, rows: &[Ending]) -> bool {
    for row in rows {
        if ends_so(rt, alloc, row) != Ok(true) {
            return false;
        }
    }
    true
}

#[test]
fn tickets_requests_and_failing_calls_end_a_session(rt: HostRuntime) {
    assert!(rt; all_end_so(&rt, rt.alloc(), &ENDINGS));
}

/// The marks of a session of a pass on these bytes.
pub fn serve_on<R: Wait>(
    rt: &R,
    alloc: Global,
    hall: &Hall<Book>,
    pass: &mut Pass<Book>,
    asked: &[u8],
) -> Result<Vec<u64>, Memory>
    requires hall { pass.old.hall ≡ hall.now }
    requires idle { pass.old.held ≡ false }
    ensures kept { KeepsPlace pass.old pass.new }
{
    let asked = Bytes::of(alloc, asked)?;
    let mut link = MemLink::new(alloc, asked, 4_096, 4_096, Vec::new(alloc))?;
    let mut bell = MemBell::new(0);
    let note = serve_session(alloc, rt, hall, pass, &mut link, &mut bell);
    Ok(note.marks)
}

/// Whether a split pass and the first one find what each of them left, in sessions one after the other.
fn finds_all<R: Wait>(rt: &R, alloc: Global) -> Result<bool, Memory> {
    let (hall, mut root) = Hall::open(alloc, Book::new(alloc))?;
    let mut pass = hall.split(alloc, &mut root)?;
    let first = serve_on(rt, alloc, &hall, &mut pass, HELLO)?;
    let second = serve_on(rt, alloc, &hall, &mut root, HELLO)?;
    let third = serve_on(rt, alloc, &hall, &mut pass, b"GET /a HTTP/1.1\r\n\r\n")?;
    Ok(
        first.as_slice() == [0].as_slice()
            && second.as_slice() == [1].as_slice()
            && third.as_slice() == [1].as_slice(),
    )
}

#[test]
fn passes_find_what_other_sessions_left(rt: HostRuntime) {
    assert!(rt; finds_all(&rt, rt.alloc()) == Ok(true));
}
