//! Doors in memory.

ghost use Rattle.std.specs.Prelude.{IfOk, All};
ghost use Rattle.braid_io.specs.MemDoors.{IsUnused};

use super::*;
use braid_hall::Hall;
use braid_ids::{Bytes, Memory};
use braid_io::{MemBell, MemDoor, MemLink};
use braid_store::Book;
use std::alloc::Global;
use std::sync::Wait;

const PUT: &[u8] = b"PUT /a HTTP/1.1\r\nVersion: \"x-1\"\r\nContent-Length: 5\r\n\r\nhello";

const STORED: &[u8] = b"HTTP/1.1 200 OK\r\nVersion: \"x-1\"\r\nContent-Length: 0\r\n\r\n";

const ABSENT: &[u8] = b"GET /b HTTP/1.1\r\n\r\n";

/// A link that gives these bytes. The reads and writes of these numbers fail.
fn link_of(alloc: Global, bytes: &[u8], fails: &[u64]) -> Result<MemLink, Memory>
    ensures ok { IfOk result IsUnused }
{
    let fails = Vec::from_slice(alloc, fails)?;
    let left = Bytes::of(alloc, bytes)?;
    MemLink::new(alloc, left, 100, 1_000, fails)
}

/// A link with a PUT, one whose first read fails, one that ends within a request, and one with a GET.
fn four_links(alloc: Global) -> Result<Vec<MemLink>, Memory>
    ensures ok { IfOk result (λ links. All IsUnused links.items) }
{
    let first = link_of(alloc, PUT, &[])?;
    let second = link_of(alloc, PUT, &[0])?;
    let third = link_of(alloc, b"GET /a", &[])?;
    let fourth = link_of(alloc, ABSENT, &[])?;
    Ok(Vec::from_array(alloc, [first, second, third, fourth])?)
}

/// What a worker left.
#[derive(Drop)]
struct Left {
    note: WorkerNote,
    door: MemDoor,
    rings: u64,
    entries: u64,
}

/// A worker at a door with these links, on a new book behind a hall that opens at a ticket.
fn work<R: Wait>(
    rt: &R,
    alloc: Global,
    ticket: u64,
    links: Vec<MemLink>,
    fails: &[u64],
) -> Result<Left, Memory>
    requires unused { All IsUnused links.items }
{
    let fails = Vec::from_slice(alloc, fails)?;
    let mut door = MemDoor::new(alloc, links, fails)?;
    let (hall, mut pass) = Hall::open_at(alloc, Book::new(alloc), ticket)?;
    let mut bell = MemBell::new(0);
    let note = serve_door(alloc, rt, &hall, &mut pass, &mut door, &mut bell);
    let entries = hall.close(pass).len();
    Ok(Left {
        note,
        door,
        rings: bell.rings(),
        entries,
    })
}

/// A worker at a door with the four links.
fn work_on_four<R: Wait>(
    rt: &R,
    alloc: Global,
    ticket: u64,
    fails: &[u64],
) -> Result<Left, Memory> {
    let links = four_links(alloc)?;
    work(rt, alloc, ticket, links, fails)
}

/// Whether the notes have these ends, one for each link put back, and the worker this one.
fn ends_so(left: &Left, ends: &[SessionEnd], end: WorkerEnd) -> bool {
    let notes = left.note.sessions.get();
    notes.len() == ends.len()
        && left.door.served().len() == ends.len()
        && notes.iter().zip(ends).all(|(note, end)| note.end == *end)
        && left.note.end == end
        && left.note.pass == 0
}

/// Whether a session that fails leaves the worker going, and the first one stored its text.
fn goes_on<R: Wait>(rt: &R, alloc: Global) -> Result<bool, Memory> {
    let left = work_on_four(rt, alloc, 0, &[])?;
    let ends = [
        SessionEnd::Closed,
        SessionEnd::ReadFault,
        SessionEnd::Torn,
        SessionEnd::Closed,
    ];
    let first = match left.door.served().first() {
        Some(link) => link.written() == STORED,
        None => false,
    };
    Ok(ends_so(&left, &ends, WorkerEnd::DoorEnd) && first && (left.entries, left.rings) == (1, 1))
}

#[test]
fn a_session_that_fails_leaves_the_worker_going(rt: HostRuntime) {
    assert!(rt; goes_on(&rt, rt.alloc()) == Ok(true));
}

/// Whether a door that fails ends the worker.
fn ends_at_door<R: Wait>(rt: &R, alloc: Global) -> Result<bool, Memory> {
    let left = work_on_four(rt, alloc, 0, &[1])?;
    Ok(ends_so(&left, &[SessionEnd::Closed], WorkerEnd::DoorFault) && left.door.faults() == 1)
}

#[test]
fn a_door_that_fails_ends_the_worker(rt: HostRuntime) {
    assert!(rt; ends_at_door(&rt, rt.alloc()) == Ok(true));
}

/// Whether a session without a turn ends the worker.
fn ends_without_turn<R: Wait>(rt: &R, alloc: Global) -> Result<bool, Memory> {
    let left = work_on_four(rt, alloc, 0x7fff_ffff_ffff_ffff, &[])?;
    let ends = [
        SessionEnd::Closed,
        SessionEnd::ReadFault,
        SessionEnd::Torn,
        SessionEnd::Worn,
    ];
    Ok(ends_so(&left, &ends, WorkerEnd::Worn))
}

#[test]
fn a_session_without_a_turn_ends_the_worker(rt: HostRuntime) {
    assert!(rt; ends_without_turn(&rt, rt.alloc()) == Ok(true));
}
