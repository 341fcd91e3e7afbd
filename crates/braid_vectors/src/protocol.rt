//! The examples of docs/PROTOCOL.md: each is a connection, and all are connections of one server, one after another.

ghost use Rattle.std.specs.Prelude.{All, IfOk};
ghost use Rattle.braid_io.specs.MemDoors.{IsUnused};

use crate::sessions::link_of;
use braid_hall::Hall;
use braid_ids::{Bytes, Memory};
use braid_io::{MemBell, MemDoor, MemLink};
use braid_session::serve_door;
use braid_store::Book;
use std::alloc::Global;
use std::sync::Wait;
use std::test::Fail;

/// What a client sends on one connection, and what it receives.
#[derive(Clone, Copy)]
pub struct Example {
    pub sent: &'static [u8],
    pub received: &'static [u8],
}

/// The examples in their order.
const EXAMPLES: &[Example] = &[
    // A text that is not there.
    Example {
        sent: b"GET /notes HTTP/1.1\r\n\r\n",
        received: b"HTTP/1.1 404 Not Found\r\nContent-Type: text/plain; charset=utf-8\r\nContent-Length: 7\r\n\r\nAbsent\n",
    },
    // A first version.
    Example {
        sent: b"PUT /notes HTTP/1.1\r\nVersion: \"ann-1\"\r\nContent-Length: 5\r\n\r\nhello",
        received: b"HTTP/1.1 200 OK\r\nVersion: \"ann-1\"\r\nContent-Length: 0\r\n\r\n",
    },
    // The text, and the versions that it is read at.
    Example {
        sent: b"GET /notes HTTP/1.1\r\n\r\n",
        received: b"HTTP/1.1 200 OK\r\nVersion: \"ann-1\"\r\nMerge-Type: ti-text\r\nContent-Type: text/plain; charset=utf-8\r\nContent-Length: 5\r\n\r\nhello",
    },
    // A patch on it.
    Example {
        sent: b"PUT /notes HTTP/1.1\r\nVersion: \"ann-2\"\r\nParents: \"ann-1\"\r\nContent-Range: text [5:5]\r\nContent-Length: 6\r\n\r\n there",
        received: b"HTTP/1.1 200 OK\r\nVersion: \"ann-2\"\r\nContent-Length: 0\r\n\r\n",
    },
    // Two patches on it by another author, who did not see the one before.
    Example {
        sent: b"PUT /notes HTTP/1.1\r\nVersion: \"bob-1\"\r\nParents: \"ann-1\"\r\nPatches: 2\r\nContent-Length: 102\r\n\r\nContent-Length: 1\r\nContent-Range: text [0:1]\r\n\r\nJ\r\nContent-Length: 1\r\nContent-Range: text [5:5]\r\n\r\n!\r\n",
        received: b"HTTP/1.1 200 OK\r\nVersion: \"bob-1\"\r\nContent-Length: 0\r\n\r\n",
    },
    // Both are kept.
    Example {
        sent: b"GET /notes HTTP/1.1\r\n\r\n",
        received: b"HTTP/1.1 200 OK\r\nVersion: \"ann-2\", \"bob-1\"\r\nMerge-Type: ti-text\r\nContent-Type: text/plain; charset=utf-8\r\nContent-Length: 12\r\n\r\nJello! there",
    },
    // The text at a version.
    Example {
        sent: b"GET /notes HTTP/1.1\r\nVersion: \"ann-1\"\r\n\r\n",
        received: b"HTTP/1.1 200 OK\r\nVersion: \"ann-1\"\r\nMerge-Type: ti-text\r\nContent-Type: text/plain; charset=utf-8\r\nContent-Length: 5\r\n\r\nhello",
    },
    // The same PUT once more.
    Example {
        sent: b"PUT /notes HTTP/1.1\r\nVersion: \"ann-2\"\r\nParents: \"ann-1\"\r\nContent-Range: text [5:5]\r\nContent-Length: 6\r\n\r\n there",
        received: b"HTTP/1.1 200 OK\r\nVersion: \"ann-2\"\r\nContent-Length: 0\r\n\r\n",
    },
    // Another update of that name.
    Example {
        sent: b"PUT /notes HTTP/1.1\r\nVersion: \"ann-2\"\r\nParents: \"ann-1\"\r\nContent-Length: 5\r\n\r\nother",
        received: b"HTTP/1.1 409 Conflict\r\nContent-Type: text/plain; charset=utf-8\r\nContent-Length: 14\r\n\r\nClash \"ann-2\"\n",
    },
    // A parent that is not held.
    Example {
        sent: b"PUT /notes HTTP/1.1\r\nVersion: \"eve-1\"\r\nParents: \"eve-0\"\r\nContent-Length: 5\r\n\r\nhello",
        received: b"HTTP/1.1 409 Conflict\r\nContent-Type: text/plain; charset=utf-8\r\nContent-Length: 22\r\n\r\nUnknownParent \"eve-0\"\n",
    },
    // A patch past the text at its parents.
    Example {
        sent: b"PUT /notes HTTP/1.1\r\nVersion: \"eve-1\"\r\nParents: \"ann-1\"\r\nContent-Range: text [9:9]\r\nContent-Length: 1\r\n\r\n?",
        received: b"HTTP/1.1 422 Unprocessable Content\r\nContent-Type: text/plain; charset=utf-8\r\nContent-Length: 25\r\n\r\nOutOfRange patch 0 len 5\n",
    },
    // No name.
    Example {
        sent: b"PUT /notes HTTP/1.1\r\nContent-Length: 5\r\n\r\nhello",
        received: b"HTTP/1.1 400 Bad Request\r\nContent-Type: text/plain; charset=utf-8\r\nContent-Length: 10\r\n\r\nNoVersion\n",
    },
    // A subscription from the beginning: three versions, a beat, and the end.
    Example {
        sent: b"GET /notes HTTP/1.1\r\nSubscribe: true\r\n\r\n",
        received: b"HTTP/1.1 209 Subscription\r\nSubscribe: true\r\nCurrent-Version: \"ann-2\", \"bob-1\"\r\nMerge-Type: ti-text\r\nContent-Type: text/plain; charset=utf-8\r\nTransfer-Encoding: chunked\r\nConnection: close\r\n\r\n3a\r\nVersion: \"ann-1\"\r\nParents:\r\nContent-Length: 5\r\n\r\nhello\r\n\r\n\r\n6c\r\nVersion: \"ann-2\"\r\nParents: \"ann-1\"\r\nPatches: 1\r\n\r\nContent-Length: 6\r\nContent-Range: text [5:5]\r\n\r\n there\r\n\r\n\r\n9a\r\nVersion: \"bob-1\"\r\nParents: \"ann-1\"\r\nPatches: 2\r\n\r\nContent-Length: 1\r\nContent-Range: text [0:1]\r\n\r\nJ\r\nContent-Length: 1\r\nContent-Range: text [5:5]\r\n\r\n!\r\n\r\n\r\n2\r\n\r\n\r\n0\r\n\r\n",
    },
    // One behind a version.
    Example {
        sent: b"GET /notes HTTP/1.1\r\nSubscribe: true\r\nParents: \"ann-2\"\r\n\r\n",
        received: b"HTTP/1.1 209 Subscription\r\nSubscribe: true\r\nCurrent-Version: \"ann-2\", \"bob-1\"\r\nMerge-Type: ti-text\r\nContent-Type: text/plain; charset=utf-8\r\nTransfer-Encoding: chunked\r\nConnection: close\r\n\r\n9a\r\nVersion: \"bob-1\"\r\nParents: \"ann-1\"\r\nPatches: 2\r\n\r\nContent-Length: 1\r\nContent-Range: text [0:1]\r\n\r\nJ\r\nContent-Length: 1\r\nContent-Range: text [5:5]\r\n\r\n!\r\n\r\n\r\n0\r\n\r\n",
    },
    // A version behind both, with a character of three bytes.
    Example {
        sent: b"PUT /notes HTTP/1.1\r\nVersion: \"ann-3\"\r\nParents: \"ann-2\", \"bob-1\"\r\nContent-Range: text [6:6]\r\nContent-Length: 4\r\n\r\n \xe2\x9c\x93",
        received: b"HTTP/1.1 200 OK\r\nVersion: \"ann-3\"\r\nContent-Length: 0\r\n\r\n",
    },
    // A subscription behind both.
    Example {
        sent: b"GET /notes HTTP/1.1\r\nSubscribe: true\r\nParents: \"ann-2\", \"bob-1\"\r\n\r\n",
        received: b"HTTP/1.1 209 Subscription\r\nSubscribe: true\r\nCurrent-Version: \"ann-3\"\r\nMerge-Type: ti-text\r\nContent-Type: text/plain; charset=utf-8\r\nTransfer-Encoding: chunked\r\nConnection: close\r\n\r\n73\r\nVersion: \"ann-3\"\r\nParents: \"ann-2\", \"bob-1\"\r\nPatches: 1\r\n\r\nContent-Length: 4\r\nContent-Range: text [6:6]\r\n\r\n \xe2\x9c\x93\r\n\r\n\r\n0\r\n\r\n",
    },
    // A request that asks to close.
    Example {
        sent: b"GET /notes HTTP/1.1\r\nConnection: close\r\n\r\n",
        received: b"HTTP/1.1 200 OK\r\nVersion: \"ann-3\"\r\nMerge-Type: ti-text\r\nContent-Type: text/plain; charset=utf-8\r\nContent-Length: 16\r\nConnection: close\r\n\r\nJello! \xe2\x9c\x93 there",
    },
];

/// A link that gives what a client sends, so many bytes at a time.
fn link(alloc: Global, example: &Example, piece: usize) -> Result<MemLink, Memory>
    ensures ok { IfOk result IsUnused }
{
    let given = Bytes::of(alloc, example.sent)?;
    link_of(alloc, given, piece, 10_000, &[])
}

/// A link for each example.
fn links(alloc: Global, examples: &[Example], piece: usize) -> Result<Vec<MemLink>, Memory>
    ensures ok { IfOk result (λ links. All IsUnused links.items) }
{
    let mut links = Vec::new(alloc);
    for example in examples {
        links.push(link(alloc, example, piece)?)?;
    }
    Ok(links)
}

/// A door of those links.
fn door_of(alloc: Global, examples: &[Example], piece: usize) -> Result<MemDoor, Memory> {
    let links = links(alloc, examples, piece)?;
    MemDoor::new(alloc, links, Vec::new(alloc))
}

/// A door whose connections one worker has answered. Its bell tells a subscription once to look again, and then to end.
fn answered<R: Wait>(
    rt: &R,
    alloc: Global,
    examples: &[Example],
    piece: usize,
) -> Result<MemDoor, Memory> {
    let mut door = door_of(alloc, examples, piece)?;
    let (hall, mut pass) = Hall::open(alloc, Book::new(alloc))?;
    let mut bell = MemBell::new(1);
    let _note = serve_door(alloc, rt, &hall, &mut pass, &mut door, &mut bell);
    Ok(door)
}

/// Whether the connection of this number has received these bytes.
fn has_received(door: &MemDoor, n: usize, bytes: &[u8]) -> bool {
    match door.served().get(n) {
        Some(link) => link.written() == bytes,
        None => false,
    }
}

/// The first example whose reply is another one.
fn other_of(door: &MemDoor, examples: &[Example]) -> Option<usize> {
    for (n, example) in examples.iter().enumerate() {
        if !has_received(door, n, example.received) {
            return Some(n);
        }
    }
    None
}

/// The first example whose reply is another one, where the bytes come in pieces of this size.
fn other_in<R: Wait>(
    rt: &R,
    alloc: Global,
    examples: &[Example],
    piece: usize,
) -> Result<Option<usize>, Memory> {
    let door = answered(rt, alloc, examples, piece)?;
    Ok(other_of(&door, examples))
}

/// The first example whose reply is another one, in pieces of one of these sizes.
pub fn first_other<R: Wait>(
    rt: &R,
    alloc: Global,
    examples: &[Example],
    pieces: &[usize],
) -> Result<Option<usize>, Memory> {
    for piece in pieces {
        if let Some(n) = other_in(rt, alloc, examples, *piece)? {
            return Ok(Some(n));
        }
    }
    Ok(None)
}

#[test]
fn the_examples_of_the_protocol_hold(rt: HostRuntime) -> Result<(), Fail> {
    assert_eq!(rt; first_other(&rt, rt.alloc(), EXAMPLES, &[1, 10_000])?, None);
    Ok(())
}
