//! A subscription behind four PUTs, of which a call of the link fails, or whose link has no more room: each call in
//! turn.

ghost use Rattle.std.specs.Prelude.{◌≡◌, false};

use crate::sessions::{link_of, serve_on, whole_in};
use braid_hall::{Hall, Pass};
use braid_ids::{Bytes, Memory};
use braid_io::{Bell, MemLink, Rang};
use braid_session::{SessionEnd, SessionNote, serve_session};
use braid_store::Book;
use std::alloc::Global;
use std::marker::{Send, Sync};
use std::sync::Wait;
use std::test::Fail;

/// Four PUTs (a version, the same again, another of that name, and one whose parent is not held), and a subscription
/// behind the version.
const ASKED: &[u8] =
    b"PUT /d HTTP/1.1\r\nVersion: \"a-1\"\r\nContent-Length: 2\r\n\r\nhiPUT /d HTTP/1.1\r\nVersion: \"a-1\"\r\nContent-Length: 2\r\n\r\nhiPUT /d HTTP/1.1\r\nVersion: \"a-1\"\r\nContent-Length: 2\r\n\r\nhoPUT /d HTTP/1.1\r\nVersion: \"b-1\"\r\nParents: \"q-9\"\r\nContent-Length: 2\r\n\r\nhiGET /d HTTP/1.1\r\nSubscribe: true\r\nParents: \"a-1\"\r\n\r\n";

/// What is written: four replies, the subscription's head, a beat, a chunk and the last chunk.
const WRITTEN: &[u8] =
    b"HTTP/1.1 200 OK\r\nVersion: \"a-1\"\r\nContent-Length: 0\r\n\r\nHTTP/1.1 200 OK\r\nVersion: \"a-1\"\r\nContent-Length: 0\r\n\r\nHTTP/1.1 409 Conflict\r\nContent-Type: text/plain; charset=utf-8\r\nContent-Length: 12\r\n\r\nClash \"a-1\"\nHTTP/1.1 409 Conflict\r\nContent-Type: text/plain; charset=utf-8\r\nContent-Length: 20\r\n\r\nUnknownParent \"q-9\"\nHTTP/1.1 209 Subscription\r\nSubscribe: true\r\nCurrent-Version: \"a-1\"\r\nMerge-Type: ti-text\r\nContent-Type: text/plain; charset=utf-8\r\nTransfer-Encoding: chunked\r\nConnection: close\r\n\r\n2\r\n\r\n\r\n3b\r\nVersion: \"b-1\"\r\nParents: \"a-1\"\r\nContent-Length: 2\r\n\r\nyo\r\n\r\n\r\n0\r\n\r\n";

/// How many bytes are written where each of the four replies and the head are whole.
const ENDS: &[usize] = &[54, 108, 206, 312, 491];

/// What another pass puts before the second turn after the first.
const PUT: &[u8] =
    b"PUT /d HTTP/1.1\r\nVersion: \"b-1\"\r\nParents: \"a-1\"\r\nContent-Length: 2\r\n\r\nyo";

/// A bell that answers `Again` twice, and puts an update by another pass before the second time.
#[derive(Drop)]
struct PuttingBell<'a, R> {
    alloc: Global,
    rt: &'a R,
    hall: &'a Hall<Book>,
    pass: Pass<Book>,
    answers: u64,
    agains: u64,
    rings: u64,
    ghost in_hall: { pass.hall ≡ hall.now },
    ghost idle: { pass.held ≡ false },
}

impl<'a, R: Wait + Sync> Bell for PuttingBell<'a, R> {
    ghost use Rattle.std.specs.Prelude.{Some};

    ghost ringing = { λ b. record { answers = Some b.answers; agains = b.agains; rings = b.rings } };

    fn wait(&mut self) -> Rang {
        if self.answers == 0 {
            return Rang::End;
        }
        if self.answers == 1 {
            let _note = serve_on(self.rt, self.alloc, self.hall, &mut self.pass, PUT);
        }
        self.answers -= 1;
        self.agains = self.agains.saturating_add(1);
        Rang::Again
    }

    fn ring(&mut self) {
        self.rings = self.rings.saturating_add(1);
    }
}

/// What a session left, how often its bell answered `Again`, and the note of a pass that then asked for the text.
#[derive(Drop)]
struct Left {
    note: SessionNote,
    agains: u64,
    after: SessionNote,
}

/// A session of a link on a new book, while another pass puts an update.
fn serve<R: Wait + Sync>(rt: &R, alloc: Global, link: &mut MemLink) -> Result<Left, Memory> {
    let (hall, mut root) = Hall::open(alloc, Book::new(alloc))?;
    let pass = hall.split(alloc, &mut root)?;
    let mut last = hall.split(alloc, &mut root)?;
    let mut bell = PuttingBell {
        alloc,
        rt,
        hall: &hall,
        pass,
        answers: 2,
        agains: 0,
        rings: 0,
    };
    let note = serve_session(alloc, rt, &hall, &mut root, link, &mut bell);
    let agains = bell.agains;
    let after = serve_on(rt, alloc, &hall, &mut last, b"GET /d HTTP/1.1\r\n\r\n");
    match after {
        Ok(after) => Ok(Left {
            note,
            agains,
            after,
        }),
        Err(memory) => Err(memory),
    }
}

/// How a session went.
#[derive(Clone, Copy)]
enum Went {
    /// A read failed, behind whole replies to all that was read whole.
    Read,
    /// A write failed.
    Write,
    /// No call failed, and all was answered.
    Whole,
    /// Otherwise.
    Wrong,
}

/// Whether what a session left fits what it wrote: a front of the whole, of which each whole reply is counted; and the
/// entries that a later pass finds are those of the turns that it took.
fn fits(left: &Left, written: &[u8]) -> bool {
    let marks = left.note.marks.len() as u64;
    let entries = marks.min(1) + left.agains / 2;
    WRITTEN.starts_with(written)
        && left.note.requests == whole_in(ENDS, written.len())
        && left.after.end == SessionEnd::Closed
        && left.after.marks.as_slice() == [entries].as_slice()
}

/// How a session went that left this on its link.
fn judged(left: &Left, link: &MemLink) -> Went {
    if !fits(left, link.written()) {
        return Went::Wrong;
    }
    let marks = left.note.marks.len() as u64;
    match (left.note.end, (link.read_faults(), link.write_faults())) {
        (SessionEnd::ReadFault, (1, 0)) if marks == left.note.requests => Went::Read,
        (SessionEnd::WriteFault, (0, 1)) if marks >= left.note.requests => Went::Write,
        (SessionEnd::Stopped, (0, 0)) if link.written() == WRITTEN && marks == 7 => Went::Whole,
        _ => Went::Wrong,
    }
}

/// How a session goes over a link with such pieces, such a room, and calls of these numbers that fail.
fn session_went<R: Wait + Sync>(
    rt: &R,
    alloc: Global,
    piece: usize,
    room: usize,
    fails: &[u64],
) -> Result<Went, Memory> {
    let asked = Bytes::of(alloc, ASKED)?;
    let mut link = link_of(alloc, asked, piece, room, fails)?;
    let left = serve(rt, alloc, &mut link)?;
    Ok(judged(&left, &link))
}

/// How many calls of the link fail a session, each in turn, up to the first number that no call has; None where one
/// goes wrong.
fn failing_calls<R: Wait + Sync>(
    rt: &R,
    alloc: Global,
    piece: usize,
) -> Result<Option<u64>, Memory> {
    for call in 0..2_000 {
        match session_went(rt, alloc, piece, 1_000, &[call])? {
            Went::Read | Went::Write => {}
            Went::Whole => return Ok(Some(call)),
            Went::Wrong => return Ok(None),
        }
    }
    Ok(None)
}

/// With how many bytes of room a session is whole, where with each smaller number a write fails.
fn room_needed<R: Wait + Sync>(rt: &R, alloc: Global) -> Result<Option<usize>, Memory> {
    for room in 0..1_000 {
        match session_went(rt, alloc, 4_096, room, &[])? {
            Went::Write => {}
            Went::Whole => return Ok(Some(room)),
            Went::Read | Went::Wrong => return Ok(None),
        }
    }
    Ok(None)
}

/// The size of the pieces, and how many calls then fail a session.
type Row = (usize, u64);

/// The first row with which other calls fail.
fn first_other<R: Wait + Sync>(
    rt: &R,
    alloc: Global,
    rows: &[Row],
) -> Result<Option<usize>, Memory> {
    for (n, (piece, calls)) in rows.iter().enumerate() {
        if failing_calls(rt, alloc, *piece)? != Some(*calls) {
            return Ok(Some(n));
        }
    }
    Ok(None)
}

/// One read, or one for each byte; four replies, a head, a beat, a chunk and the last chunk.
const CALLS: &[Row] = &[(4_096, 9), (1, 300)];

#[test]
fn each_call_of_a_subscription_may_fail(rt: HostRuntime) -> Result<(), Fail> {
    assert_eq!(rt; first_other(&rt, rt.alloc(), CALLS)?, None);
    Ok(())
}

#[test]
fn a_subscription_may_have_no_more_room(rt: HostRuntime) -> Result<(), Fail> {
    assert_eq!(rt; room_needed(&rt, rt.alloc())?, Some(WRITTEN.len()));
    Ok(())
}
