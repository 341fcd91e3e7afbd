//! Runs over ports in memory.

ghost use Rattle.std.specs.Prelude.{IfOk, All};
ghost use Rattle.braid_io.specs.MemDoors.{IsUnused, IsUnusedPair};

use super::*;
use braid_ids::{Bytes, Memory, Word};
use braid_io::{MemBell, MemDoor, MemLink, MemPort, MemSink, Status};
use braid_session::{SessionEnd, WorkerEnd};
use std::alloc::Global;
use std::sync::Wait;
use std::test::Fail;
use std::thread::Threads;

const CURL_PUT: &[u8] =
    b"PUT /notes HTTP/1.1\r\nHost: localhost:9000\r\nUser-Agent: curl/8.5.0\r\nAccept: */*\r\nVersion: \"ann-1\"\r\nParents:\r\nContent-Length: 5\r\nContent-Type: application/x-www-form-urlencoded\r\n\r\nhello";

const CURL_STORED: &[u8] = b"HTTP/1.1 200 OK\r\nVersion: \"ann-1\"\r\nContent-Length: 0\r\n\r\n";

const CURL_GET: &[u8] = b"GET /notes HTTP/1.1\r\nHost: localhost:9000\r\nConnection: close\r\n\r\n";

const CURL_TEXT: &[u8] =
    b"HTTP/1.1 200 OK\r\nVersion: \"ann-1\"\r\nMerge-Type: ti-text\r\nContent-Type: text/plain; charset=utf-8\r\nContent-Length: 5\r\nConnection: close\r\n\r\nhello";

/// A link that gives these bytes.
fn link_of(alloc: Global, bytes: &[u8]) -> Result<MemLink, Memory>
    ensures ok { IfOk result IsUnused }
{
    let left = Bytes::of(alloc, bytes)?;
    MemLink::new(alloc, left, 64, 1_000, Vec::new(alloc))
}

/// A link with curl's PUT, and one with its GET.
fn two_links(alloc: Global) -> Result<Vec<MemLink>, Memory>
    ensures ok { IfOk result (λ links. All IsUnused links.items) }
{
    let mut links = Vec::new(alloc);
    links.push(link_of(alloc, CURL_PUT)?)?;
    links.push(link_of(alloc, CURL_GET)?)?;
    Ok(links)
}

/// A door with links, of which the accepts of these numbers fail, and a bell.
fn pair_of(alloc: Global, links: Vec<MemLink>, fails: &[u64]) -> Result<(MemDoor, MemBell), Memory>
    requires unused { All IsUnused links.items }
    ensures ok { IfOk result IsUnusedPair }
{
    let door = MemDoor::new(alloc, links, Vec::from_slice(alloc, fails)?)?;
    Ok((door, MemBell::new(0)))
}

/// A port with one door, of which the openings of these numbers fail.
fn port_of(alloc: Global, door_fails: &[u64], fails: &[u64]) -> Result<MemPort, Memory> {
    let mut pairs = Vec::new(alloc);
    pairs.push(pair_of(alloc, two_links(alloc)?, door_fails)?)?;
    Ok(MemPort::new(alloc, pairs, Vec::from_slice(alloc, fails)?))
}

/// These words.
pub fn words_of(alloc: Global, words: &[&[u8]]) -> Result<Vec<Word>, Memory> {
    let mut list = Vec::new(alloc);
    for word in words {
        list.push(Word::of(alloc, word)?)?;
    }
    Ok(list)
}

/// What a run left.
#[derive(Drop)]
struct Left {
    served: Served<MemDoor, MemBell>,
    out: MemSink,
    port: MemPort,
}

/// A run on these words over a port with one door. The writes, accepts and openings of these numbers fail.
fn run<R: Threads + Wait + Sync>(
    rt: &R,
    alloc: Global,
    words: &[&[u8]],
    fails: [&[u64]; 3],
) -> Result<Left, Memory> {
    let words = words_of(alloc, words)?;
    let [writes, accepts, opens] = fails;
    let mut port = port_of(alloc, accepts, opens)?;
    let mut out = MemSink::new(alloc, 1_000, Vec::from_slice(alloc, writes)?)?;
    let served = serve_run(alloc, rt, &words, &mut port, &mut out);
    Ok(Left { served, out, port })
}

const FORM: [&[u8]; 6] = [
    b"serve",
    b"127.0.0.1:9000",
    b"--workers",
    b"1",
    b"--take",
    b"2",
];

/// Whether the one door has curl's two links with their replies, and the worker its two notes.
fn served_curl(left: &Left) -> bool {
    let [(door, bell)] = left.served.doors.as_slice() else {
        return false;
    };
    let [put, get] = door.served() else {
        return false;
    };
    let [note] = left.served.workers.get() else {
        return false;
    };
    put.written() == CURL_STORED
        && get.written() == CURL_TEXT
        && note
            .sessions
            .get()
            .iter()
            .all(|session| session.end == SessionEnd::Closed)
        && (note.pass, note.end) == (1, WorkerEnd::DoorEnd)
        && bell.rings() == 1
}

#[test]
fn curl_puts_and_gets(rt: HostRuntime) -> Result<(), Fail> {
    let left = run(&rt, rt.alloc(), &FORM, [&[], &[], &[]])?;
    let text = left.out.written()
        == b"serving: 127.0.0.1:9000\nversions: 1\nsessions: 2\n".as_slice();
    let book = left
        .served
        .book
        .as_ref()
        .is_some_and(|book| book.len() == 1);
    assert!(rt; served_curl(&left) && text && book && left.served.status == Status::Done);
    Ok(())
}

/// A run's words and calls that fail, and what it prints and answers, with the numbers of notes, doors and openings.
#[derive(Clone, Copy)]
struct Row {
    words: &'static [&'static [u8]],
    fails: [&'static [u64]; 3],
    text: &'static [u8],
    status: Status,
    counts: [usize; 3],
}

const USAGE: &[u8] = b"fault: Usage\n";

/// The first row of which a run leaves something else.
fn first_other<R: Threads + Wait + Sync>(
    rt: &R,
    alloc: Global,
    rows: &[Row],
) -> Result<Option<usize>, Memory> {
    for (n, row) in rows.iter().enumerate() {
        let left = run(rt, alloc, row.words, row.fails)?;
        let counts = [
            left.served.workers.get().len(),
            left.served.doors.len(),
            left.port.asked().len(),
        ];
        if left.out.written() != row.text
            || left.served.status != row.status
            || counts != row.counts
        {
            return Ok(Some(n));
        }
    }
    Ok(None)
}

/// A row of faulty words.
const fn faulty(words: &'static [&'static [u8]]) -> Row {
    Row {
        words,
        fails: [&[], &[], &[]],
        text: USAGE,
        status: Status::Usage,
        counts: [0, 0, 0],
    }
}

#[test]
fn faulty_words_are_refused(rt: HostRuntime) -> Result<(), Fail> {
    let rows = [
        faulty(&[]),
        faulty(&[b"server", b"h:1"]),
        faulty(&[b"serve"]),
        faulty(&[b"serve", b""]),
        faulty(&[b"serve", b"h 1"]),
        faulty(&[b"serve", b"h:1", b"--workers", b"0"]),
        faulty(&[b"serve", b"h:1", b"--workers", b"33"]),
        faulty(&[b"serve", b"h:1", b"--take", b"1000001"]),
        faulty(&[b"serve", b"h:1", b"h:2"]),
        faulty(&[b"serve", b"h:1", b"--help"]),
        faulty(&[b"serve", b"h:\xff"]),
    ];
    let other = first_other(&rt, rt.alloc(), &rows)?;
    assert!(rt; other.is_none());
    Ok(())
}

#[test]
fn each_step_that_fails_ends_the_run(rt: HostRuntime) -> Result<(), Fail> {
    let form: &'static [&'static [u8]] = &[b"serve", b"h:1", b"--workers=1"];
    let two: &'static [&'static [u8]] = &[b"serve", b"h:1", b"--workers", b"2"];
    let row = Row {
        words: form,
        fails: [&[], &[], &[]],
        text: b"serving: h:1\nversions: 1\nsessions: 2\n",
        status: Status::Done,
        counts: [1, 1, 1],
    };
    let rows = [
        row,
        Row {
            words: two,
            text: b"fault: PortFault\n",
            status: Status::Outside,
            counts: [0, 0, 1],
            ..row
        },
        Row {
            fails: [&[], &[], &[0]],
            text: b"fault: PortFault\n",
            status: Status::Outside,
            counts: [0, 0, 1],
            ..row
        },
        Row {
            fails: [&[0], &[], &[0]],
            text: b"",
            status: Status::Outside,
            counts: [0, 0, 1],
            ..row
        },
        Row {
            fails: [&[0], &[], &[]],
            text: b"",
            status: Status::Outside,
            counts: [0, 1, 1],
            ..row
        },
        Row {
            fails: [&[1], &[], &[]],
            text: b"serving: h:1\n",
            status: Status::Outside,
            ..row
        },
        Row {
            fails: [&[], &[1], &[]],
            text: b"serving: h:1\nversions: 1\nsessions: 1\n",
            status: Status::Outside,
            ..row
        },
    ];
    let other = first_other(&rt, rt.alloc(), &rows)?;
    assert!(rt; other.is_none());
    Ok(())
}

/// Words, and what a port is asked for by them.
#[derive(Clone, Copy)]
struct Asking {
    words: &'static [&'static [u8]],
    workers: u32,
    take: u32,
}

/// The first words by which a port is asked for something else, or at another address than `h:1`.
fn first_misread<R: Threads + Wait + Sync>(
    rt: &R,
    alloc: Global,
    askings: &[Asking],
) -> Result<Option<usize>, Memory> {
    for (n, asking) in askings.iter().enumerate() {
        let left = run(rt, alloc, asking.words, [&[], &[], &[0]])?;
        let asked = left.port.asked().first().is_some_and(|asked| {
            asked.server.get() == b"h:1".as_slice()
                && asked.workers == asking.workers
                && asked.take == asking.take
        });
        if !asked {
            return Ok(Some(n));
        }
    }
    Ok(None)
}

/// Words that ask for so many workers and connections.
const fn asking_for(words: &'static [&'static [u8]], workers: u32, take: u32) -> Asking {
    Asking {
        words,
        workers,
        take,
    }
}

#[test]
fn a_port_is_asked_for_what_words_say(rt: HostRuntime) -> Result<(), Fail> {
    let askings = [
        asking_for(&[b"serve", b"h:1"], 4, 1_000_000),
        asking_for(&[b"serve", b"h:1", b"--take", b"1"], 4, 1),
        asking_for(&[b"serve", b"--workers=32", b"h:1"], 32, 1_000_000),
        asking_for(
            &[b"serve", b"h:1", b"--take=007", b"--workers", b"+1"],
            1,
            7,
        ),
        asking_for(&[b"serve", b"--", b"h:1"], 4, 1_000_000),
    ];
    let other = first_misread(&rt, rt.alloc(), &askings)?;
    assert!(rt; other.is_none());
    Ok(())
}
