//! Subscriptions over links in memory.

ghost use Rattle.std.specs.Prelude.{◌≡◌, false};

use super::*;
use crate::tests::{Left, repeated, serve, serve_on};
use braid_hall::{Hall, Pass};
use braid_ids::{Bytes, Memory};
use braid_io::{Bell, MemLink, Rang};
use braid_store::Book;
use std::alloc::Global;
use std::marker::{Send, Sync};
use std::sync::Wait;

const PUT_A: &[u8] = b"PUT /d HTTP/1.1\r\nVersion: \"a-1\"\r\nContent-Length: 2\r\n\r\nhi";

const PUT_B: &[u8] =
    b"PUT /d HTTP/1.1\r\nVersion: \"b-1\"\r\nParents: \"a-1\"\r\nContent-Length: 2\r\n\r\nyo";

const PUT_C: &[u8] =
    b"PUT /d HTTP/1.1\r\nVersion: \"c-1\"\r\nParents: \"a-1\"\r\nContent-Length: 2\r\n\r\nya";

const PUT_M: &[u8] =
    b"PUT /d HTTP/1.1\r\nVersion: \"m-1\"\r\nParents: \"b-1\", \"c-1\"\r\nContent-Length: 2\r\n\r\nno";

const PUT_ELSEWHERE: &[u8] = b"PUT /e HTTP/1.1\r\nVersion: \"b-1\"\r\nContent-Length: 2\r\n\r\nyo";

const STORED_A: &[u8] = b"HTTP/1.1 200 OK\r\nVersion: \"a-1\"\r\nContent-Length: 0\r\n\r\n";

const STORED_B: &[u8] = b"HTTP/1.1 200 OK\r\nVersion: \"b-1\"\r\nContent-Length: 0\r\n\r\n";

const STORED_C: &[u8] = b"HTTP/1.1 200 OK\r\nVersion: \"c-1\"\r\nContent-Length: 0\r\n\r\n";

const STORED_M: &[u8] = b"HTTP/1.1 200 OK\r\nVersion: \"m-1\"\r\nContent-Length: 0\r\n\r\n";

const WATCH: &[u8] = b"GET /d HTTP/1.1\r\nSubscribe: true\r\n\r\n";

const WATCH_FROM_A: &[u8] = b"GET /d HTTP/1.1\r\nSubscribe: true\r\nParents: \"a-1\"\r\n\r\n";

const HEAD: &[u8] = b"HTTP/1.1 209 Subscription\r\nSubscribe: true\r\nCurrent-Version:";

const BEHIND: &[u8] =
    b"\r\nMerge-Type: ti-text\r\nContent-Type: text/plain; charset=utf-8\r\nTransfer-Encoding: chunked\r\nConnection: close\r\n\r\n";

const CHUNK_A: &[u8] =
    b"35\r\nVersion: \"a-1\"\r\nParents:\r\nContent-Length: 2\r\n\r\nhi\r\n\r\n\r\n";

const CHUNK_B: &[u8] =
    b"3b\r\nVersion: \"b-1\"\r\nParents: \"a-1\"\r\nContent-Length: 2\r\n\r\nyo\r\n\r\n\r\n";

const CHUNK_C: &[u8] =
    b"3b\r\nVersion: \"c-1\"\r\nParents: \"a-1\"\r\nContent-Length: 2\r\n\r\nya\r\n\r\n\r\n";

const CHUNK_M: &[u8] =
    b"42\r\nVersion: \"m-1\"\r\nParents: \"b-1\", \"c-1\"\r\nContent-Length: 2\r\n\r\nno\r\n\r\n\r\n";

const BEAT: &[u8] = b"2\r\n\r\n\r\n";

const LAST: &[u8] = b"0\r\n\r\n";

const UNKNOWN_A: &[u8] =
    b"HTTP/1.1 409 Conflict\r\nContent-Type: text/plain; charset=utf-8\r\nContent-Length: 20\r\n\r\nUnknownParent \"a-1\"\n";

const ABSENT: &[u8] =
    b"HTTP/1.1 404 Not Found\r\nContent-Type: text/plain; charset=utf-8\r\nContent-Length: 7\r\n\r\nAbsent\n";

/// The length of a subscription's head where the path's frontier is `"a-1"`.
const HEAD_LENGTH: usize = 179;

/// The length of what is written for 301 versions and a subscription to all but the first of them.
const MANY_LENGTH: usize = 6038614;

/// At which ticket a hall opens, what a session reads, how many Agains its bell has, and what it is to leave. The texts
/// are in parts, one behind the other.
struct Row {
    ticket: u64,
    asked: &'static [&'static [u8]],
    answers: u64,
    written: &'static [&'static [u8]],
    marks: &'static [u64],
    requests: u64,
    end: SessionEnd,
}

/// These parts, one behind the other.
fn joined(alloc: Global, parts: &[&[u8]]) -> Result<Bytes, Memory> {
    let mut bytes = Bytes::of(alloc, b"")?;
    for part in parts {
        bytes.push(part)?;
    }
    Ok(bytes)
}

/// What stands behind these parts, which stand one behind the other at the front.
fn behind_parts<'a>(bytes: &'a [u8], parts: &[&[u8]]) -> Option<&'a [u8]> {
    let mut rest = bytes;
    for part in parts {
        match rest.strip_prefix(*part) {
            Some(left) => rest = left,
            None => return None,
        }
    }
    Some(rest)
}

/// Whether bytes are these parts, one behind the other.
fn are_parts(bytes: &[u8], parts: &[&[u8]]) -> bool {
    match behind_parts(bytes, parts) {
        Some(rest) => rest.is_empty(),
        None => false,
    }
}

fn is_left(left: &Left, row: &Row) -> bool {
    are_parts(left.link.written(), row.written)
        && left.note.marks.as_slice() == row.marks
        && left.note.requests == row.requests
        && left.note.end == row.end
        && left.bell.agains() == row.answers
}

/// Whether a session leaves that, in pieces of this size.
fn leaves<R: Wait>(rt: &R, alloc: Global, row: &Row, piece: usize) -> Result<bool, Memory> {
    let asked = joined(alloc, row.asked)?;
    let left = serve(rt, alloc, row.ticket, asked, piece, row.answers, &[])?;
    Ok(is_left(&left, row))
}

/// Whether it does so in pieces of each size.
fn leaves_always<R: Wait>(rt: &R, alloc: Global, row: &Row) -> bool {
    leaves(rt, alloc, row, 1) == Ok(true)
        && leaves(rt, alloc, row, 7) == Ok(true)
        && leaves(rt, alloc, row, 1_000_000) == Ok(true)
}

/// Whether a session leaves what each row says.
fn all_leave<R: Wait>(rt: &R, alloc: Global, rows: &[Row]) -> bool {
    for row in rows {
        if !leaves_always(rt, alloc, row) {
            return false;
        }
    }
    true
}

const ROWS: [Row; 5] = [
    // An empty book, without Parents, and whatever the field's value is.
    Row {
        ticket: 0,
        asked: &[b"GET /d HTTP/1.1\r\nSubscribe: 0\r\n\r\n"],
        answers: 0,
        written: &[HEAD, BEHIND, LAST],
        marks: &[0],
        requests: 1,
        end: SessionEnd::Stopped,
    },
    // The same with empty Parents, asking to close too: that line stands once.
    Row {
        ticket: 0,
        asked: &[b"GET /d HTTP/1.1\r\nSubscribe: true\r\nParents:\r\nConnection: close\r\n\r\n"],
        answers: 1,
        written: &[HEAD, BEHIND, BEAT, LAST],
        marks: &[0, 0],
        requests: 1,
        end: SessionEnd::Stopped,
    },
    // A parent that is not held, behind which the session goes on.
    Row {
        ticket: 0,
        asked: &[WATCH_FROM_A, b"GET /d HTTP/1.1\r\n\r\n"],
        answers: 0,
        written: &[UNKNOWN_A, ABSENT],
        marks: &[0, 0],
        requests: 2,
        end: SessionEnd::Closed,
    },
    // What stands behind a subscription is not answered; what was put elsewhere is not sent.
    Row {
        ticket: 0,
        asked: &[PUT_A, PUT_ELSEWHERE, WATCH, b"GET /d HTTP/1.1\r\n\r\n"],
        answers: 2,
        written: &[
            STORED_A,
            STORED_B,
            HEAD,
            b" \"a-1\"",
            BEHIND,
            CHUNK_A,
            BEAT,
            BEAT,
            LAST,
        ],
        marks: &[0, 1, 2, 2, 2],
        requests: 3,
        end: SessionEnd::Stopped,
    },
    // The last ticket serves the first turn of a subscription.
    Row {
        ticket: 9_223_372_036_854_775_807,
        asked: &[WATCH],
        answers: 1,
        written: &[HEAD, BEHIND],
        marks: &[0],
        requests: 1,
        end: SessionEnd::Worn,
    },
];

#[test]
fn a_subscription_sends_what_is_there_and_beats(rt: HostRuntime) {
    assert!(rt; all_leave(&rt, rt.alloc(), &ROWS));
}

/// The front of what is written for a history with a merge, and a subscription behind it.
const RESUMED: [&[u8]; 7] = [
    STORED_A,
    STORED_B,
    STORED_C,
    STORED_M,
    HEAD,
    b" \"m-1\"",
    BEHIND,
];

/// Whether a session on that history sent these chunks.
fn has_resumed(left: &Left, chunks: &[&[u8]]) -> bool {
    match behind_parts(left.link.written(), &RESUMED) {
        Some(behind) => {
            are_parts(behind, chunks) && left.note.marks.as_slice() == [0, 1, 2, 3, 4, 4].as_slice()
        }
        None => false,
    }
}

/// Whether a subscription behind a history with a merge sends these chunks, from these parents.
fn resumes<R: Wait>(
    rt: &R,
    alloc: Global,
    parents: &[u8],
    chunks: &[&[u8]],
) -> Result<bool, Memory> {
    let lines: &[u8] = b"GET /d HTTP/1.1\r\nSubscribe: true\r\nParents: ";
    let parts = [PUT_A, PUT_B, PUT_C, PUT_M, lines, parents, b"\r\n\r\n"];
    let asked = joined(alloc, &parts)?;
    let left = serve(rt, alloc, 0, asked, 4_096, 1, &[])?;
    Ok(has_resumed(&left, chunks))
}

/// Parents, and the chunks that are sent from them.
type Resumption = (&'static [u8], &'static [&'static [u8]]);

/// Whether a subscription does so for each row.
fn all_resume<R: Wait>(rt: &R, alloc: Global, rows: &[Resumption]) -> bool {
    for (parents, chunks) in rows {
        if resumes(rt, alloc, parents, chunks) != Ok(true) {
            return false;
        }
    }
    true
}

const RESUMPTIONS: [Resumption; 6] = [
    (b"", &[CHUNK_A, CHUNK_B, CHUNK_C, CHUNK_M, BEAT, LAST]),
    (b"\"a-1\"", &[CHUNK_B, CHUNK_C, CHUNK_M, BEAT, LAST]),
    (b"\"b-1\"", &[CHUNK_C, CHUNK_M, BEAT, LAST]),
    (b"\"c-1\"", &[CHUNK_B, CHUNK_M, BEAT, LAST]),
    (b"\"c-1\", \"b-1\"", &[CHUNK_M, BEAT, LAST]),
    (b"\"m-1\"", &[BEAT, LAST]),
];

#[test]
fn a_subscription_resumes_from_each_version(rt: HostRuntime) {
    assert!(rt; all_resume(&rt, rt.alloc(), &RESUMPTIONS));
}

/// A bell that answers `Again` so many times, and puts an update by another pass before the last time.
#[derive(Drop)]
struct PuttingBell<'a, R> {
    alloc: Global,
    rt: &'a R,
    hall: &'a Hall<Book>,
    pass: Pass<Book>,
    answers: u64,
    agains: u64,
    rings: u64,
    ghost in_hall: { pass.hall ≡ hall.now },
    ghost idle: { pass.held ≡ false },
}

impl<'a, R: Wait + Sync> Bell for PuttingBell<'a, R> {
    ghost use Rattle.std.specs.Prelude.{Some};

    ghost ringing = { λ b. record { answers = Some b.answers; agains = b.agains; rings = b.rings } };

    fn wait(&mut self) -> Rang {
        if self.answers == 0 {
            return Rang::End;
        }
        if self.answers == 1 {
            let _marks = serve_on(self.rt, self.alloc, self.hall, &mut self.pass, PUT_B);
        }
        self.answers -= 1;
        self.agains = self.agains.saturating_add(1);
        Rang::Again
    }

    fn ring(&mut self) {
        self.rings = self.rings.saturating_add(1);
    }
}

/// What a subscription writes, and its note, where another pass puts an update before its last turn.
fn watch_a_put<R: Wait + Sync>(
    rt: &R,
    alloc: Global,
    link: &mut MemLink,
) -> Result<SessionNote, Memory> {
    let (hall, mut root) = Hall::open(alloc, Book::new(alloc))?;
    let pass = hall.split(alloc, &mut root)?;
    serve_on(rt, alloc, &hall, &mut root, PUT_A)?;
    let mut bell = PuttingBell {
        alloc,
        rt,
        hall: &hall,
        pass,
        answers: 2,
        agains: 0,
        rings: 0,
    };
    Ok(serve_session(alloc, rt, &hall, &mut root, link, &mut bell))
}

/// Whether a subscription shows what another connection puts, and ends so.
fn shows_a_put<R: Wait + Sync>(rt: &R, alloc: Global) -> Result<bool, Memory> {
    let asked = Bytes::of(alloc, WATCH_FROM_A)?;
    let mut link = MemLink::new(alloc, asked, 4_096, 4_096, Vec::new(alloc))?;
    let note = watch_a_put(rt, alloc, &mut link)?;
    let parts: [&[u8]; 6] = [HEAD, b" \"a-1\"", BEHIND, BEAT, CHUNK_B, LAST];
    Ok(
        are_parts(link.written(), &parts)
            && note.marks.as_slice() == [1, 1, 2].as_slice()
            && note.end == SessionEnd::Stopped,
    )
}

#[test]
fn a_subscription_shows_what_another_connection_puts(rt: HostRuntime) {
    assert!(rt; shows_a_put(&rt, rt.alloc()) == Ok(true));
}

/// The requests that are cut off: a PUT, and a subscription.
const CUT: [&[u8]; 2] = [PUT_A, WATCH];

/// How many of them are answered where so many bytes were written: the subscription is, once its head is written.
fn answered(written: usize) -> u64 {
    let stored = STORED_A.len();
    let head = stored.saturating_add(HEAD_LENGTH);
    if written < stored {
        0
    } else if written < head {
        1
    } else {
        2
    }
}

/// Whether a session wrote a front of the whole text and answered as much; `None` where it was not cut off.
fn is_front(left: &Left, whole: &[u8]) -> Option<bool> {
    let written = left.link.written();
    match left.note.end {
        SessionEnd::ReadFault | SessionEnd::WriteFault => {
            Some(whole.starts_with(written) && left.note.requests == answered(written.len()))
        }
        _ => None,
    }
}

/// A session on those requests, with a bell that answers once.
fn cut<R: Wait>(rt: &R, alloc: Global, fails: &[u64]) -> Result<Left, Memory> {
    let asked = joined(alloc, &CUT)?;
    serve(rt, alloc, 0, asked, 30, 1, fails)
}

/// Whether a session whose call of this number failed wrote a front of the whole text, and ended so; `None` where no call
/// has that number.
fn is_cut<R: Wait>(rt: &R, alloc: Global, whole: &[u8], call: u64) -> Result<Option<bool>, Memory> {
    let left = cut(rt, alloc, &[call])?;
    Ok(is_front(&left, whole))
}

/// The numbers of the calls that may fail, and whether each of them cuts the session.
fn cuts<R: Wait>(rt: &R, alloc: Global, whole: &[u8]) -> (u64, bool) {
    for call in 0..100 {
        match is_cut(rt, alloc, whole, call) {
            Ok(Some(true)) => {}
            Ok(None) => return (call, true),
            _ => return (call, false),
        }
    }
    (100, false)
}

/// The same, of the text that such a session writes where no call fails.
fn cuts_whole<R: Wait>(rt: &R, alloc: Global) -> Result<(u64, bool), Memory> {
    let whole = cut(rt, alloc, &[])?;
    Ok(cuts(rt, alloc, whole.link.written()))
}

#[test]
fn a_link_may_fail_at_each_call_of_a_subscription(rt: HostRuntime) {
    // Four reads of the requests, and writes of a reply, a head, a chunk, a beat and the last chunk.
    assert!(rt; cuts_whole(&rt, rt.alloc()) == Ok((9, true)));
}

/// Puts a PUT of one of many versions behind the others, each with the one before as its parent.
fn push_put(alloc: Global, bytes: &mut Bytes, n: u32, content: &[u8]) -> Result<(), Memory> {
    let before = n.saturating_sub(1);
    let head = format!(in alloc;
        "PUT /d HTTP/1.1\r\nVersion: \"a-{n}\"\r\nParents: \"a-{before}\"\r\nContent-Length: 20000\r\n\r\n"
    )?;
    bytes.push(head.as_bytes())?;
    bytes.push(content)
}

/// Puts the PUTs of 300 versions down, of 20,000 bytes each.
fn push_puts(alloc: Global, bytes: &mut Bytes, content: &[u8]) -> Result<(), Memory> {
    for n in 1..301 {
        push_put(alloc, bytes, n, content)?;
    }
    Ok(())
}

/// The PUTs of those versions behind the first, and a subscription.
fn many_puts(alloc: Global) -> Result<Bytes, Memory> {
    let content = repeated(alloc, b"", b"x", 20_000, b"")?;
    let mut bytes = Bytes::of(
        alloc,
        b"PUT /d HTTP/1.1\r\nVersion: \"a-0\"\r\nContent-Length: 0\r\n\r\n",
    )?;
    push_puts(alloc, &mut bytes, content.get())?;
    bytes.push(b"GET /d HTTP/1.1\r\nSubscribe: true\r\nParents: \"a-0\"\r\n\r\n")?;
    Ok(bytes)
}

/// Whether a subscription sends all of them.
fn sends_many<R: Wait>(rt: &R, alloc: Global) -> Result<bool, Memory> {
    let asked = many_puts(alloc)?;
    let left = serve(rt, alloc, 0, asked, 65_536, 0, &[])?;
    Ok(
        left.note.end == SessionEnd::Stopped
            && left.note.requests == 302
            && left.link.written().len() == MANY_LENGTH
            && left.link.written().ends_with(b"xxxx\r\n\r\n\r\n0\r\n\r\n"),
    )
}

#[test]
fn a_subscription_sends_three_hundred_long_versions(rt: HostRuntime) {
    assert!(rt; sends_many(&rt, rt.alloc()) == Ok(true));
}
