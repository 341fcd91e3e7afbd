//! Syncs with a hostile server.

ghost use Rattle.braid_sync.specs.Opening.{IsPlace};

use super::*;
use crate::tests::{
    CHUNKS, HEAD, LAST, check, has_counts, insertion, link, nothing, place, scripted, two_links,
    written,
};
use braid_change::{Change, Text, Update};
use braid_ids::{Bytes, Frontier, Id};
use braid_io::MemDialer;
use braid_outbox::Replica;
use std::alloc::Global;
use std::test::Fail;

/// What a hostile server gives on the first link and on the second, and the end that is wanted.
#[derive(Clone, Copy)]
struct Row<'a> {
    first: &'a [&'a [u8]],
    second: &'a [u8],
    want: Want<'a>,
}

#[derive(Clone, Copy)]
enum Want<'a> {
    Cut,
    Peer(u16),
    BadHead(braid_http::Refusal),
    NoCurrent,
    BadCurrent,
    OtherMergeType,
    BadStream(u64),
    Clash(&'a str),
    Unknown(&'a str),
    Past(u32, u32),
}

fn is_end(end: &SyncEnd, want: Want<'_>) -> bool {
    match (end, want) {
        (SyncEnd::Cut, Want::Cut) => true,
        (SyncEnd::Peer { status }, Want::Peer(wanted)) => *status == wanted,
        (SyncEnd::BadHead(refusal), Want::BadHead(wanted)) => *refusal == wanted,
        (SyncEnd::NoCurrent, Want::NoCurrent) => true,
        (SyncEnd::BadCurrent, Want::BadCurrent) => true,
        (SyncEnd::OtherMergeType, Want::OtherMergeType) => true,
        (SyncEnd::BadStream(fault), Want::BadStream(at)) => fault.at == at,
        (SyncEnd::Clash { id }, Want::Clash(name)) => id.bytes() == name.as_bytes(),
        (SyncEnd::UnknownParent { id }, Want::Unknown(name)) => id.bytes() == name.as_bytes(),
        (SyncEnd::OutOfRange { patch, len }, Want::Past(n, end)) => *patch == n && *len == end,
        _ => false,
    }
}

/// The update `x-1` with the body `ab`.
fn update_x(alloc: Global) -> Result<Update, Fail> {
    let id = Id::read(alloc, b"x-1")?;
    let none = Frontier::of(Vec::new(alloc))?;
    let text = Text::read(alloc, b"ab")?;
    Ok(Update::build(id, none, Change::Body(text))?)
}

/// A replica of agent `a` with `x-1` confirmed, whose body is `ab`, and `a-1` behind it unsent, which inserts `P`.
fn one_and_one(alloc: Global) -> Result<Replica, Fail> {
    let mut replica = nothing(alloc)?;
    let x = update_x(alloc)?;
    let _learn = replica.learn(alloc, x);
    let change = insertion(alloc, 1, b"P")?;
    written(alloc, replica, change)
}

/// The dialer of a row's two links, in pieces of this size.
fn row_dialer(alloc: Global, row: &Row<'_>, piece: usize) -> Result<MemDialer, Fail> {
    let first = scripted(alloc, row.first, piece, &[])?;
    let given = Bytes::of(alloc, row.second)?;
    let second = link(alloc, given, piece, Vec::new(alloc))?;
    two_links(alloc, first, second, Vec::new(alloc))
}

/// A sync with a hostile server in pieces of this size: its end, and that nothing was confirmed or lost.
fn row_holds(alloc: Global, place: &Place, row: &Row<'_>, piece: usize) -> Result<bool, Fail>
    requires place { IsPlace place.now }
{
    let mut replica = one_and_one(alloc)?;
    let mut dialer = row_dialer(alloc, row, piece)?;
    let end = sync(alloc, &mut replica, place, &mut dialer);
    Ok(is_end(&end, row.want) && has_counts(&replica, 1, 1))
}

/// Whether each of these rows holds, byte by byte and whole.
fn rows_hold(alloc: Global, rows: &[Row<'_>]) -> Result<bool, Fail> {
    let place = place(alloc)?;
    let mut all = true;
    for row in rows {
        let bytes = row_holds(alloc, &place, row, 1)?;
        let whole = row_holds(alloc, &place, row, 4096)?;
        all = all && bytes && whole;
    }
    Ok(all)
}

/// The head of a reply whose body ends with the connection, and which names `y-1`.
const TO_CLOSE: &[u8] = b"HTTP/1.1 209 Subscription\r\nCurrent-Version: \"y-1\"\r\n\r\n";

/// Dishonest streams.
fn streams_hold(alloc: Global) -> Result<bool, Fail> {
    let rows = [
        Row {
            first: &[TO_CLOSE, b"Version: \"x-1\"\r\nContent-Length: 2\r\n\r\nho"],
            second: b"",
            want: Want::Clash("x-1"),
        },
        Row {
            first: &[
                TO_CLOSE,
                b"Version: \"a-1\"\r\nParents: \"x-1\"\r\nContent-Length: 2\r\n\r\nho",
            ],
            second: b"",
            want: Want::Clash("a-1"),
        },
        Row {
            first: &[
                TO_CLOSE,
                b"Version: \"y-1\"\r\nParents: \"a-1\"\r\nPatches: 0\r\n\r\n",
            ],
            second: b"",
            want: Want::Unknown("a-1"),
        },
        Row {
            first: &[
                TO_CLOSE,
                b"Version: \"y-1\"\r\nParents: \"z-1\"\r\nPatches: 0\r\n\r\n",
            ],
            second: b"",
            want: Want::Unknown("z-1"),
        },
        Row {
            first: &[
                TO_CLOSE,
                b"Version: \"y-1\"\r\nParents: \"x-1\"\r\nContent-Range: text [0:3]\r\nContent-Length: 0\r\n\r\n",
            ],
            second: b"",
            want: Want::Past(0, 2),
        },
        Row {
            first: &[TO_CLOSE, b"no colon\r\n"],
            second: b"",
            want: Want::BadStream(0),
        },
        Row {
            first: &[
                TO_CLOSE,
                b"Version: \"y-1\"\r\nParents: \"x-1\"\r\nPatches: 1\r\n\r\n",
            ],
            second: b"",
            want: Want::Cut,
        },
    ];
    rows_hold(alloc, &rows)
}

/// Dishonest heads and bodies of a subscription.
fn heads_hold(alloc: Global) -> Result<bool, Fail> {
    let rows = [
        Row {
            first: &[b"HTTP/1.1 209 X\r\n\r\n"],
            second: b"",
            want: Want::NoCurrent,
        },
        Row {
            first: &[b"HTTP/1.1 209 X\r\nCurrent-Version: x\r\n\r\n"],
            second: b"",
            want: Want::BadCurrent,
        },
        Row {
            first: &[b"HTTP/1.1 209 X\r\nCurrent-Version: \"\"\r\n\r\n"],
            second: b"",
            want: Want::BadCurrent,
        },
        Row {
            first: &[b"HTTP/1.1 209 X\r\nMerge-Type: sync9\r\n\r\n"],
            second: b"",
            want: Want::OtherMergeType,
        },
        Row {
            first: &[b"HTTP/1.1 209 X\r\nMerge-Type: ti-text\r\nMerge-Type: ti-text\r\n\r\n"],
            second: b"",
            want: Want::OtherMergeType,
        },
        Row {
            first: &[b"HTTP/1.1 200 OK\r\nMerge-Type: sync9\r\n\r\n"],
            second: b"",
            want: Want::Peer(200),
        },
        Row {
            first: &[b"HTTP/1.1 099 X\r\n\r\n"],
            second: b"",
            want: Want::BadHead(braid_http::Refusal::BadHead),
        },
        Row {
            first: &[b"HTTP/1.1 209"],
            second: b"",
            want: Want::Cut,
        },
        Row {
            first: &[HEAD, b"\"y-1\"", CHUNKS, b"zz\r\n"],
            second: b"",
            want: Want::BadHead(braid_http::Refusal::BadChunk),
        },
        Row {
            first: &[HEAD, b"\"y-1\"", CHUNKS, LAST],
            second: b"",
            want: Want::Cut,
        },
    ];
    rows_hold(alloc, &rows)
}

/// Dishonest replies to a PUT.
fn replies_hold(alloc: Global) -> Result<bool, Fail> {
    let held: &[&[u8]] = &[b"HTTP/1.1 209 X\r\nCurrent-Version: \"x-1\"\r\n\r\n"];
    let rows = [
        Row {
            first: held,
            second: b"HTTP/1.1 200 OK\r\nConte",
            want: Want::Cut,
        },
        Row {
            first: held,
            second: b"",
            want: Want::Cut,
        },
        Row {
            first: held,
            second: b"HTTP/1.1 507 X\r\nContent-Length: 3\r\n\r\nno\n",
            want: Want::Peer(507),
        },
        Row {
            first: held,
            second: b"HTTP/1.1 507 X\r\nContent-Length: 3\r\n\r\nno",
            want: Want::Cut,
        },
        Row {
            first: held,
            second: b"HTTP/1.1 200 OK\r\nTransfer-Encoding: chunked\r\n\r\nzz\r\n",
            want: Want::BadHead(braid_http::Refusal::BadChunk),
        },
    ];
    rows_hold(alloc, &rows)
}

#[test]
fn a_hostile_server_ends_a_sync_and_changes_nothing(rt: HostRuntime) -> Result<(), Fail> {
    let alloc = rt.alloc();
    check(streams_hold(alloc)?, "streams")?;
    check(heads_hold(alloc)?, "heads")?;
    check(replies_hold(alloc)?, "replies")
}
