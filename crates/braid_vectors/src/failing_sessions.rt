//! Sessions of which a call of the link fails, or whose link has no more room: each call in turn.

use crate::sessions::{Session, served, whole_in};
use braid_ids::{Bytes, Memory};
use braid_session::SessionEnd;
use std::alloc::Global;
use std::sync::Wait;
use std::test::Fail;

/// Four PUTs: a version, the same again, another of that name, and one whose parent is not held.
const ASKED: &[u8] =
    b"PUT /d HTTP/1.1\r\nVersion: \"a-1\"\r\nContent-Length: 2\r\n\r\nhiPUT /d HTTP/1.1\r\nVersion: \"a-1\"\r\nContent-Length: 2\r\n\r\nhiPUT /d HTTP/1.1\r\nVersion: \"a-1\"\r\nContent-Length: 2\r\n\r\nhoPUT /d HTTP/1.1\r\nVersion: \"b-1\"\r\nParents: \"q-9\"\r\nContent-Length: 2\r\n\r\nhi";

/// Their replies.
const REPLIES: &[u8] =
    b"HTTP/1.1 200 OK\r\nVersion: \"a-1\"\r\nContent-Length: 0\r\n\r\nHTTP/1.1 200 OK\r\nVersion: \"a-1\"\r\nContent-Length: 0\r\n\r\nHTTP/1.1 409 Conflict\r\nContent-Type: text/plain; charset=utf-8\r\nContent-Length: 12\r\n\r\nClash \"a-1\"\nHTTP/1.1 409 Conflict\r\nContent-Type: text/plain; charset=utf-8\r\nContent-Length: 20\r\n\r\nUnknownParent \"q-9\"\n";

/// How many bytes are written where each of them is whole.
const ENDS: &[usize] = &[54, 108, 206, 312];

/// How a session went.
#[derive(Clone, Copy)]
enum Went {
    /// A read failed, behind whole replies to all that was read whole.
    Read,
    /// A write failed, of one reply: the turn before it was taken.
    Write,
    /// No call failed, and all was answered.
    Whole,
    /// Otherwise.
    Wrong,
}

/// How a session went: what it wrote, what it answered and added, and which calls failed fit one another.
fn judged(session: &Session) -> Went {
    let written = session.link.written();
    let marks = session.left.note.marks.len() as u64;
    let whole = whole_in(ENDS, written.len());
    if !REPLIES.starts_with(written)
        || whole != session.left.note.requests
        || !session.left.has_entries(marks.min(1))
    {
        return Went::Wrong;
    }
    let all_whole = written.is_empty() || ENDS.contains(&written.len());
    let faults = (session.link.read_faults(), session.link.write_faults());
    match (session.left.note.end, faults) {
        (SessionEnd::ReadFault, (1, 0)) if marks == whole && all_whole => Went::Read,
        (SessionEnd::WriteFault, (0, 1)) if marks == whole.saturating_add(1) => Went::Write,
        (SessionEnd::Closed, (0, 0)) if whole == 4 && marks == 4 => Went::Whole,
        _ => Went::Wrong,
    }
}

/// How a session of the four PUTs goes over a link with such pieces, such a room, and calls of these numbers that fail.
fn session_went<R: Wait>(
    rt: &R,
    alloc: Global,
    piece: usize,
    room: usize,
    fails: &[u64],
) -> Result<Went, Memory> {
    let asked = Bytes::of(alloc, ASKED)?;
    let session = served(rt, alloc, asked, piece, room, fails)?;
    Ok(judged(&session))
}

/// How many calls of the link fail a session, each in turn, up to the first number that no call has; None where one
/// goes wrong.
fn failing_calls<R: Wait>(rt: &R, alloc: Global, piece: usize) -> Result<Option<u64>, Memory> {
    for call in 0..2_000 {
        match session_went(rt, alloc, piece, 1_000, &[call])? {
            Went::Read | Went::Write => {}
            Went::Whole => return Ok(Some(call)),
            Went::Wrong => return Ok(None),
        }
    }
    Ok(None)
}

/// With how many bytes of room a session is whole, where with each smaller number a write fails.
fn room_needed<R: Wait>(rt: &R, alloc: Global) -> Result<Option<usize>, Memory> {
    for room in 0..1_000 {
        match session_went(rt, alloc, 4_096, room, &[])? {
            Went::Write => {}
            Went::Whole => return Ok(Some(room)),
            Went::Read | Went::Wrong => return Ok(None),
        }
    }
    Ok(None)
}

/// The size of the pieces, and how many calls then fail a session.
type Row = (usize, u64);

/// The first row with which other calls fail.
fn first_other<R: Wait>(rt: &R, alloc: Global, rows: &[Row]) -> Result<Option<usize>, Memory> {
    for (n, (piece, calls)) in rows.iter().enumerate() {
        if failing_calls(rt, alloc, *piece)? != Some(*calls) {
            return Ok(Some(n));
        }
    }
    Ok(None)
}

/// The requests have 56, 56, 56 and 72 bytes: so many reads, four writes, and the read at the end.
const CALLS: &[Row] = &[(1, 245), (80, 8), (4_096, 6)];

#[test]
fn each_call_of_a_link_may_fail(rt: HostRuntime) -> Result<(), Fail> {
    assert_eq!(rt; first_other(&rt, rt.alloc(), CALLS)?, None);
    Ok(())
}

#[test]
fn a_link_may_have_no_more_room(rt: HostRuntime) -> Result<(), Fail> {
    assert_eq!(rt; room_needed(&rt, rt.alloc())?, Some(REPLIES.len()));
    Ok(())
}
