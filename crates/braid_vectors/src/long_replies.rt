//! Long replies, and replies that say more than was asked for: how a sync ends, and what the replica then holds.
//!
//! The replica is of agent `a`, has confirmed `x-1`, and has `a-1` unsent.

ghost use Rattle.braid_sync.specs.Opening.{IsPlace};

use crate::filled::filled;
use crate::scripts::{
    Leaves, TAKEN, Want, check, is_end, one_and_one, place, sync_leaves, sync_over,
};
use braid_change::{Change, Text};
use braid_http::Refusal;
use braid_ids::{Bytes, Id, Memory};
use braid_outbox::{Replica, WriteFault};
use braid_sync::Place;
use std::alloc::Global;
use std::test::Fail;

/// What the first link gives, and the second one; the end that is wanted, how many versions are confirmed and unsent
/// then, and the text.
#[derive(Clone, Copy)]
struct Row {
    front: &'static [u8],
    filler: &'static [u8],
    times: u32,
    back: &'static [u8],
    second: &'static [u8],
    want: Want,
    counts: (u32, u32),
    text: &'static [u8],
}

/// Whether a sync of a row leaves what it is to leave, in pieces of this size.
fn row_holds(alloc: Global, place: &Place, row: &Row, piece: usize) -> Result<bool, Fail>
    requires place { IsPlace place.now }
{
    let given = filled(alloc, row.front, row.filler, row.times, row.back)?;
    let leaves = Leaves {
        want: row.want,
        confirmed: row.counts.0,
        unsent: row.counts.1,
        text: row.text,
    };
    sync_leaves(alloc, place, given.get(), row.second, piece, leaves)
}

/// The first row that does not hold, in pieces of 7 bytes and of many.
fn other_at(alloc: Global, place: &Place, rows: &[Row]) -> Result<Option<usize>, Fail>
    requires place { IsPlace place.now }
{
    for (n, row) in rows.iter().enumerate() {
        let small = row_holds(alloc, place, row, 7)?;
        let large = row_holds(alloc, place, row, 100_000)?;
        if !small || !large {
            return Ok(Some(n));
        }
    }
    Ok(None)
}

/// The same, where the place of all replicas is made first.
fn first_other(alloc: Global, rows: &[Row]) -> Result<Option<usize>, Fail> {
    let place = place(alloc)?;
    other_at(alloc, &place, rows)
}

/// Replies at their limits.
const LIMITS: &[Row] = &[
    // A head of 524,288 bytes, and one more.
    Row {
        front: b"HTTP/1.1 209 X\r\nCurrent-Version: \"x-1\"\r\nA: ",
        filler: b"a",
        times: 524_241,
        back: b"\r\n\r\n",
        second: TAKEN,
        want: Want::Done,
        counts: (2, 0),
        text: b"aPb",
    },
    Row {
        front: b"HTTP/1.1 209 X\r\nCurrent-Version: \"x-1\"\r\nA: ",
        filler: b"a",
        times: 524_242,
        back: b"\r\n\r\n",
        second: TAKEN,
        want: Want::BadHead(Refusal::LongHead),
        counts: (1, 1),
        text: b"aPb",
    },
    Row {
        front: b"HTTP/1.1 209 X\r\nCurrent-Version: \"x-1\"\r\nA: ",
        filler: b"a",
        times: 524_288,
        back: b"",
        second: TAKEN,
        want: Want::BadHead(Refusal::LongHead),
        counts: (1, 1),
        text: b"aPb",
    },
    // 64 field lines, and one more.
    Row {
        front: b"HTTP/1.1 209 X\r\nCurrent-Version: \"x-1\"\r\n",
        filler: b"A: b\r\n",
        times: 63,
        back: b"\r\n",
        second: TAKEN,
        want: Want::Done,
        counts: (2, 0),
        text: b"aPb",
    },
    Row {
        front: b"HTTP/1.1 209 X\r\nCurrent-Version: \"x-1\"\r\n",
        filler: b"A: b\r\n",
        times: 64,
        back: b"\r\n",
        second: TAKEN,
        want: Want::BadHead(Refusal::ManyFields),
        counts: (1, 1),
        text: b"aPb",
    },
    // A chunk line of 256 bytes, and one more.
    Row {
        front: b"HTTP/1.1 209 X\r\nCurrent-Version: \"y-1\"\r\nTransfer-Encoding: chunked\r\n\r\n0;",
        filler: b"a",
        times: 252,
        back: b"\r\n\r\n",
        second: TAKEN,
        want: Want::Cut,
        counts: (1, 1),
        text: b"aPb",
    },
    Row {
        front: b"HTTP/1.1 209 X\r\nCurrent-Version: \"y-1\"\r\nTransfer-Encoding: chunked\r\n\r\n0;",
        filler: b"a",
        times: 253,
        back: b"\r\n\r\n",
        second: TAKEN,
        want: Want::BadHead(Refusal::BadChunk),
        counts: (1, 1),
        text: b"aPb",
    },
    // A trailer of 16,384 bytes, one more, and one without its end.
    Row {
        front: b"HTTP/1.1 209 X\r\nCurrent-Version: \"y-1\"\r\nTransfer-Encoding: chunked\r\n\r\n0\r\n",
        filler: b"a",
        times: 16_380,
        back: b"\r\n\r\n",
        second: TAKEN,
        want: Want::Cut,
        counts: (1, 1),
        text: b"aPb",
    },
    Row {
        front: b"HTTP/1.1 209 X\r\nCurrent-Version: \"y-1\"\r\nTransfer-Encoding: chunked\r\n\r\n0\r\n",
        filler: b"a",
        times: 16_381,
        back: b"\r\n\r\n",
        second: TAKEN,
        want: Want::BadHead(Refusal::BadChunk),
        counts: (1, 1),
        text: b"aPb",
    },
    Row {
        front: b"HTTP/1.1 209 X\r\nCurrent-Version: \"y-1\"\r\nTransfer-Encoding: chunked\r\n\r\n0\r\n",
        filler: b"A: b\r\n",
        times: 5_000,
        back: b"",
        second: TAKEN,
        want: Want::BadHead(Refusal::BadChunk),
        counts: (1, 1),
        text: b"aPb",
    },
    // The head of an update of 16,384 bytes, and one more.
    Row {
        front: b"HTTP/1.1 209 X\r\nCurrent-Version: \"y-1\"\r\n\r\nVersion: \"y-1\"\r\nPatches: 0\r\nA: ",
        filler: b"a",
        times: 16_349,
        back: b"\r\n\r\n",
        second: TAKEN,
        want: Want::Done,
        counts: (3, 0),
        text: b"aPb",
    },
    Row {
        front: b"HTTP/1.1 209 X\r\nCurrent-Version: \"y-1\"\r\n\r\nVersion: \"y-1\"\r\nPatches: 0\r\nA: ",
        filler: b"a",
        times: 16_350,
        back: b"\r\n\r\n",
        second: TAKEN,
        want: Want::BadStream(0),
        counts: (1, 1),
        text: b"aPb",
    },
];

#[test]
fn a_reply_has_its_limits(rt: HostRuntime) -> Result<(), Fail> {
    assert_eq!(rt; first_other(rt.alloc(), LIMITS)?, None);
    Ok(())
}

/// Replies that say more than was asked for.
const MORE: &[Row] = &[
    // A gap without its end.
    Row {
        front: b"HTTP/1.1 209 X\r\nCurrent-Version: \"y-1\"\r\n\r\n",
        filler: b"\r\n",
        times: 100_000,
        back: b"",
        second: TAKEN,
        want: Want::Cut,
        counts: (1, 1),
        text: b"aPb",
    },
    // What is known, again and again, and then what is not.
    Row {
        front: b"HTTP/1.1 209 X\r\nCurrent-Version: \"y-1\"\r\n\r\n",
        filler: b"Version: \"x-1\"\r\nParents:\r\nContent-Length: 2\r\n\r\nab\r\n\r\n",
        times: 2_000,
        back: b"",
        second: TAKEN,
        want: Want::Cut,
        counts: (1, 1),
        text: b"aPb",
    },
    Row {
        front: b"HTTP/1.1 209 X\r\nCurrent-Version: \"y-1\"\r\n\r\n",
        filler: b"Version: \"x-1\"\r\nParents:\r\nContent-Length: 2\r\n\r\nab\r\n\r\n",
        times: 2_000,
        back: b"Version: \"y-1\"\r\nParents: \"x-1\"\r\nContent-Range: text [2:2]\r\nContent-Length: 1\r\n\r\nc",
        second: TAKEN,
        want: Want::Done,
        counts: (3, 0),
        text: b"aPbc",
    },
    // A version that is named again and again.
    Row {
        front: b"HTTP/1.1 209 X\r\nCurrent-Version: \"x-1\"",
        filler: b",\"x-1\"",
        times: 1_000,
        back: b"\r\n\r\n",
        second: TAKEN,
        want: Want::Done,
        counts: (2, 0),
        text: b"aPb",
    },
    // A 200 that names another version, with bytes behind it.
    Row {
        front: b"HTTP/1.1 209 X\r\nCurrent-Version: \"x-1\"\r\n",
        filler: b"",
        times: 0,
        back: b"\r\n",
        second: b"HTTP/1.1 200 OK\r\nVersion: \"z-9\"\r\nContent-Length: 0\r\n\r\nHTTP/1.1 500 X\r\n\r\n",
        want: Want::Done,
        counts: (2, 0),
        text: b"aPb",
    },
    // Replies of HTTP/1.0, whose lines end with LF alone.
    Row {
        front: b"HTTP/1.0 209\ncurrent-version: \"x-1\"\n\n",
        filler: b"",
        times: 0,
        back: b"",
        second: b"HTTP/1.0 200 OK\n\nall of this is its body",
        want: Want::Done,
        counts: (2, 0),
        text: b"aPb",
    },
    // What is unsent comes from the server.
    Row {
        front: b"HTTP/1.1 209 X\r\nCurrent-Version: \"a-1\"\r\n\r\nVersion: \"a-1\"\r\nParents: \"x-1\"\r\nPatches: 1\r\n\r\nContent-Length: 1\r\nContent-Range: text [1:1]\r\n\r\nP",
        filler: b"",
        times: 0,
        back: b"",
        second: TAKEN,
        want: Want::Done,
        counts: (2, 0),
        text: b"aPb",
    },
    // An identifier of the replica's own agent, of an update that it did not write.
    Row {
        front: b"HTTP/1.1 209 X\r\nCurrent-Version: \"a-2\"\r\n\r\nVersion: \"a-2\"\r\nParents: \"x-1\"\r\nContent-Range: text [2:2]\r\nContent-Length: 1\r\n\r\n?",
        filler: b"",
        times: 0,
        back: b"",
        second: TAKEN,
        want: Want::Done,
        counts: (3, 0),
        text: b"aPb?",
    },
];

#[test]
fn a_reply_may_say_more_than_was_asked_for(rt: HostRuntime) -> Result<(), Fail> {
    assert_eq!(rt; first_other(rt.alloc(), MORE)?, None);
    Ok(())
}

/// Names so many versions, behind one.
fn push_names(bytes: &mut Bytes, named: u64) -> Result<(), Memory> {
    for n in 0..named {
        bytes.push(b",\"v-")?;
        bytes.push_number(n)?;
        bytes.push(b"\"")?;
    }
    Ok(())
}

/// Gives so many versions, without parents and without a change.
fn push_updates(bytes: &mut Bytes, given: u64) -> Result<(), Memory> {
    for n in 0..given {
        bytes.push(b"Version: \"v-")?;
        bytes.push_number(n)?;
        bytes.push(b"\"\nPatches: 0\n\n")?;
    }
    Ok(())
}

/// Adds a reply that names a thousand versions as the current ones beside `x-1`, and gives so many of them.
fn push_many(bytes: &mut Bytes, given: u64) -> Result<(), Memory> {
    bytes.push(b"HTTP/1.1 209 X\r\nCurrent-Version: \"x-1\"")?;
    push_names(bytes, 1_000)?;
    bytes.push(b"\r\n\r\n")?;
    push_updates(bytes, given)
}

/// Such a reply.
fn many_versions(alloc: Global, given: u64) -> Result<Bytes, Memory> {
    let mut bytes = Bytes::of(alloc, b"")?;
    push_many(&mut bytes, given)?;
    Ok(bytes)
}

/// Whether a sync with such a reply leaves this.
fn many_leave(alloc: Global, place: &Place, given: u64, leaves: Leaves) -> Result<bool, Fail>
    requires place { IsPlace place.now }
{
    let bytes = many_versions(alloc, given)?;
    sync_leaves(alloc, place, bytes.get(), TAKEN, 4_096, leaves)
}

/// How many versions are given, and what a sync then leaves.
const MANY: &[(u64, Leaves)] = &[
    (
        1_000,
        Leaves {
            want: Want::Done,
            confirmed: 1_002,
            unsent: 0,
            text: b"aPb",
        },
    ),
    (
        999,
        Leaves {
            want: Want::Cut,
            confirmed: 1_000,
            unsent: 1,
            text: b"aPb",
        },
    ),
];

/// Whether syncs with so many versions leave this.
fn all_leave(alloc: Global, place: &Place, rows: &[(u64, Leaves)]) -> Result<bool, Fail>
    requires place { IsPlace place.now }
{
    for (given, leaves) in rows {
        if !many_leave(alloc, place, *given, *leaves)? {
            return Ok(false);
        }
    }
    Ok(true)
}

/// The same, where the place of all replicas is made first.
fn many_hold(alloc: Global) -> Result<bool, Fail> {
    let place = place(alloc)?;
    all_leave(alloc, &place, MANY)
}

#[test]
fn a_thousand_versions_may_be_current(rt: HostRuntime) -> Result<(), Fail> {
    assert!(rt; many_hold(rt.alloc())?);
    Ok(())
}

/// A sync of a replica with this reply, which is to learn and send all.
fn sync_all(alloc: Global, place: &Place, replica: &mut Replica, given: &[u8]) -> Result<(), Fail>
    requires place { IsPlace place.now }
{
    let end = sync_over(alloc, place, replica, given, TAKEN, 4_096)?;
    check(is_end(&end, Want::Done), "the sync")
}

/// The name of the version that a replica writes, where it has a number left.
fn written(alloc: Global, replica: &mut Replica) -> Result<Option<Id>, Fail> {
    let text = Text::read(alloc, b"x")?;
    match replica.write(alloc, Change::Body(text)) {
        Ok(id) => Ok(Some(id)),
        Err(WriteFault::NumbersSpent) => Ok(None),
        Err(_) => Err("another fault".into()),
    }
}

/// The name of the version that a replica writes behind a sync with this reply, where it has a number left.
fn written_behind(alloc: Global, place: &Place, given: &[u8]) -> Result<Option<Id>, Fail>
    requires place { IsPlace place.now }
{
    let mut replica = one_and_one(alloc)?;
    sync_all(alloc, place, &mut replica, given)?;
    written(alloc, &mut replica)
}

/// Whether a name is this, or is none where that is to be.
fn is_name(name: &Option<Id>, wanted: Option<&[u8]>) -> bool {
    match (name, wanted) {
        (Some(id), Some(bytes)) => id.bytes() == bytes,
        (None, None) => true,
        _ => false,
    }
}

/// Whether the replica then writes a version of this name, or none.
fn is_written(
    alloc: Global,
    place: &Place,
    given: &[u8],
    wanted: Option<&[u8]>,
) -> Result<bool, Fail>
    requires place { IsPlace place.now }
{
    let name = written_behind(alloc, place, given)?;
    Ok(is_name(&name, wanted))
}

/// What a server gives, and the version that is written behind it. The number behind the greatest one is taken; behind
/// the last one there is none, and no version is written.
const NUMBERS: &[(&[u8], Option<&[u8]>)] = &[
    (
        b"HTTP/1.1 209 X\r\nCurrent-Version: \"a-2\"\r\n\r\nVersion: \"a-2\"\r\nPatches: 0\r\n\r\n",
        Some(b"a-3"),
    ),
    (
        b"HTTP/1.1 209 X\r\nCurrent-Version: \"a-18446744073709551615\"\r\n\r\nVersion: \"a-18446744073709551615\"\r\nPatches: 0\r\n\r\n",
        None,
    ),
];

/// Whether those versions are written.
fn all_written(alloc: Global, place: &Place) -> Result<bool, Fail>
    requires place { IsPlace place.now }
{
    for (given, wanted) in NUMBERS {
        if !is_written(alloc, place, given, *wanted)? {
            return Ok(false);
        }
    }
    Ok(true)
}

/// The same, where the place of all replicas is made first.
fn numbers_hold(alloc: Global) -> Result<bool, Fail> {
    let place = place(alloc)?;
    all_written(alloc, &place)
}

#[test]
fn a_server_may_name_the_numbers_of_an_agent(rt: HostRuntime) -> Result<(), Fail> {
    assert!(rt; numbers_hold(rt.alloc())?);
    Ok(())
}
