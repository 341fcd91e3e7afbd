//! A sync of the client's commands of which a call fails: each load, save, dial, read and write in turn.
//!
//! The replica is of agent `a`, has confirmed `x-1`, and has `a-1` and `a-2` unsent. The server holds `x-1` and `y-1`.

use crate::commands::{Ran, keeper_of, left, run};
use crate::scripts::{link, two_links};
use braid_ids::{Bytes, Memory};
use braid_io::{MemDialer, MemKeeper, Status};
use std::alloc::Global;
use std::test::Fail;

/// The head of the state up to its counts, and its updates, with `y-1` or without.
const HEAD: &[u8] = b"braid-state 1\nagent: a\nserver: h:1\npath: /doc\n";

const BEFORE: &[u8] =
    b"\nVersion: \"x-1\"\r\nParents:\r\nContent-Length: 2\r\n\r\nab\r\n\r\nVersion: \"a-1\"\r\nParents:\r\nContent-Length: 1\r\n\r\nZ\r\n\r\nVersion: \"a-2\"\r\nParents: \"a-1\"\r\nPatches: 1\r\n\r\nContent-Length: 1\r\nContent-Range: text [1:1]\r\n\r\n!\r\n\r\nend\n";

const BEHIND: &[u8] =
    b"\nVersion: \"x-1\"\r\nParents:\r\nContent-Length: 2\r\n\r\nab\r\n\r\nVersion: \"y-1\"\r\nParents: \"x-1\"\r\nPatches: 1\r\n\r\nContent-Length: 1\r\nContent-Range: text [2:2]\r\n\r\nc\r\n\r\nVersion: \"a-1\"\r\nParents:\r\nContent-Length: 1\r\n\r\nZ\r\n\r\nVersion: \"a-2\"\r\nParents: \"a-1\"\r\nPatches: 1\r\n\r\nContent-Length: 1\r\nContent-Range: text [1:1]\r\n\r\n!\r\n\r\nend\n";

/// The subscription's reply.
const GIVEN: &[u8] =
    b"HTTP/1.1 209 Subscription\r\nSubscribe: true\r\nCurrent-Version: \"y-1\"\r\nMerge-Type: ti-text\r\nTransfer-Encoding: chunked\r\n\r\n63\r\nVersion: \"y-1\"\r\nParents: \"x-1\"\r\nPatches: 1\r\n\r\nContent-Length: 1\r\nContent-Range: text [2:2]\r\n\r\nc\r\n\r\n\r\n";

/// What is kept.
#[derive(Clone, Copy)]
enum Kept {
    /// What was kept before.
    Old,
    /// `y-1` too.
    Learnt,
    /// `y-1`, and `a-1` as taken.
    Half,
    /// `y-1`, and both as taken.
    Sent,
}

/// Adds two parts.
fn push_both(bytes: &mut Bytes, first: &[u8], second: &[u8]) -> Result<(), Memory> {
    bytes.push(first)?;
    bytes.push(second)
}

/// The state that is kept so.
fn state(alloc: Global, kept: Kept) -> Result<Bytes, Fail> {
    let (counts, updates): (&[u8], &[u8]) = match kept {
        Kept::Old => (b"confirmed: 1\nunsent: 2\n", BEFORE),
        Kept::Learnt => (b"confirmed: 2\nunsent: 2\n", BEHIND),
        Kept::Half => (b"confirmed: 3\nunsent: 1\n", BEHIND),
        Kept::Sent => (b"confirmed: 4\nunsent: 0\n", BEHIND),
    };
    let mut bytes = Bytes::of(alloc, HEAD)?;
    push_both(&mut bytes, counts, updates)?;
    Ok(bytes)
}

/// Whose call fails.
#[derive(Clone, Copy)]
enum Failing {
    Keeper,
    Dialer,
    First,
    Second,
}

/// Whose calls fail, one in each run, from this number up to that; and the line, the status and the state of such a
/// run.
#[derive(Clone, Copy)]
struct Row {
    failing: Failing,
    from: u64,
    to: u64,
    line: &'static [u8],
    status: Status,
    kept: Kept,
}

/// Where the call of this number fails. The links give single bytes.
fn dialer_of(alloc: Global, failing: Failing, call: u64) -> Result<MemDialer, Fail> {
    let none: &[u64] = &[];
    let calls: &[u64] = &[call];
    let (dials, first, second) = match failing {
        Failing::Keeper => (none, none, none),
        Failing::Dialer => (calls, none, none),
        Failing::First => (none, calls, none),
        Failing::Second => (none, none, calls),
    };
    let one = link(alloc, GIVEN, 1, 400, first)?;
    let two = link(alloc, TAKEN_BOTH, 1, 600, second)?;
    two_links(alloc, one, two, dials)
}

/// The replies to both PUTs.
const TAKEN_BOTH: &[u8] =
    b"HTTP/1.1 200 OK\r\nContent-Length: 0\r\n\r\nHTTP/1.1 200 OK\r\nContent-Length: 0\r\n\r\n";

/// A keeper of the state before, whose call of this number fails.
fn failing_keeper(alloc: Global, failing: Failing, call: u64) -> Result<MemKeeper, Fail> {
    let old = state(alloc, Kept::Old)?;
    match failing {
        Failing::Keeper => keeper_of(alloc, old.get(), &[call]),
        _ => keeper_of(alloc, old.get(), &[]),
    }
}

/// A sync whose call of this number fails, onto an output of this room.
fn run_failing(
    alloc: Global,
    keeper: &mut MemKeeper,
    failing: Failing,
    call: u64,
    room: usize,
) -> Result<Ran, Fail> {
    let mut dialer = dialer_of(alloc, failing, call)?;
    run(alloc, &[b"sync", b"s"], keeper, &mut dialer, room)
}

/// Whether a run printed the line of a row, with its status, and left its state.
fn has_left(alloc: Global, ran: &Ran, keeper: &MemKeeper, row: &Row) -> Result<bool, Fail> {
    let kept = state(alloc, row.kept)?;
    Ok(left(ran, keeper, row.line, row.status, kept.get()))
}

/// Whether a sync whose call of this number fails prints the line of a row, with its status, and keeps its state.
fn ends_so(alloc: Global, row: &Row, call: u64) -> Result<bool, Fail> {
    let mut keeper = failing_keeper(alloc, row.failing, call)?;
    let ran = run_failing(alloc, &mut keeper, row.failing, call, 100)?;
    has_left(alloc, &ran, &keeper, row)
}

/// The first call of a row with which a sync ends otherwise.
fn first_call(alloc: Global, row: &Row) -> Result<Option<u64>, Fail> {
    for call in row.from..row.to {
        if !ends_so(alloc, row, call)? {
            return Ok(Some(call));
        }
    }
    Ok(None)
}

/// The first row, and its call, with which a sync ends otherwise.
fn first_other(alloc: Global, rows: &[Row]) -> Result<Option<(usize, u64)>, Fail> {
    for (n, row) in rows.iter().enumerate() {
        if let Some(call) = first_call(alloc, row)? {
            return Ok(Some((n, call)));
        }
    }
    Ok(None)
}

/// Each call, and the numbers behind the last one.
const ROWS: &[Row] = &[
    Row {
        failing: Failing::Keeper,
        from: 0,
        to: 1,
        line: b"fault: LoadFault\n",
        status: Status::Outside,
        kept: Kept::Old,
    },
    Row {
        failing: Failing::Keeper,
        from: 1,
        to: 2,
        line: b"fault: SaveFault\n",
        status: Status::Outside,
        kept: Kept::Old,
    },
    Row {
        failing: Failing::Keeper,
        from: 2,
        to: 3,
        line: b"synced: confirmed 4 unsent 0\n",
        status: Status::Done,
        kept: Kept::Sent,
    },
    Row {
        failing: Failing::Dialer,
        from: 0,
        to: 1,
        line: b"fault: DialFault\n",
        status: Status::Outside,
        kept: Kept::Old,
    },
    Row {
        failing: Failing::Dialer,
        from: 1,
        to: 2,
        line: b"fault: DialFault\n",
        status: Status::Outside,
        kept: Kept::Learnt,
    },
    Row {
        failing: Failing::Dialer,
        from: 2,
        to: 3,
        line: b"synced: confirmed 4 unsent 0\n",
        status: Status::Done,
        kept: Kept::Sent,
    },
    // The subscription is written by one call. Its reply is read up to the last byte of `y-1`.
    Row {
        failing: Failing::First,
        from: 0,
        to: 1,
        line: b"fault: WriteFault\n",
        status: Status::Outside,
        kept: Kept::Old,
    },
    Row {
        failing: Failing::First,
        from: 1,
        to: 219,
        line: b"fault: ReadFault\n",
        status: Status::Outside,
        kept: Kept::Old,
    },
    Row {
        failing: Failing::First,
        from: 219,
        to: 221,
        line: b"synced: confirmed 4 unsent 0\n",
        status: Status::Done,
        kept: Kept::Sent,
    },
    // Each PUT is written by one call. Its reply has 38 bytes.
    Row {
        failing: Failing::Second,
        from: 0,
        to: 1,
        line: b"fault: WriteFault\n",
        status: Status::Outside,
        kept: Kept::Learnt,
    },
    Row {
        failing: Failing::Second,
        from: 1,
        to: 39,
        line: b"fault: ReadFault\n",
        status: Status::Outside,
        kept: Kept::Learnt,
    },
    Row {
        failing: Failing::Second,
        from: 39,
        to: 40,
        line: b"fault: WriteFault\n",
        status: Status::Outside,
        kept: Kept::Half,
    },
    Row {
        failing: Failing::Second,
        from: 40,
        to: 78,
        line: b"fault: ReadFault\n",
        status: Status::Outside,
        kept: Kept::Half,
    },
    Row {
        failing: Failing::Second,
        from: 78,
        to: 80,
        line: b"synced: confirmed 4 unsent 0\n",
        status: Status::Done,
        kept: Kept::Sent,
    },
];

#[test]
fn each_call_of_a_command_may_fail(rt: HostRuntime) -> Result<(), Fail> {
    assert_eq!(rt; first_other(rt.alloc(), ROWS)?, None);
    Ok(())
}

/// The line of a sync of which no call fails.
const LINE: &[u8] = b"synced: confirmed 4 unsent 0\n";

/// Whether a sync onto an output of this room prints as much as it has room for, and keeps all.
fn prints_part(alloc: Global, room: usize) -> Result<bool, Fail> {
    let status = if room < LINE.len() {
        Status::Outside
    } else {
        Status::Done
    };
    let row = Row {
        failing: Failing::Keeper,
        from: 0,
        to: 0,
        line: LINE.get(..room).unwrap_or(LINE),
        status,
        kept: Kept::Sent,
    };
    let mut keeper = failing_keeper(alloc, Failing::Dialer, 0)?;
    let ran = run_failing(alloc, &mut keeper, Failing::Keeper, 0, room)?;
    has_left(alloc, &ran, &keeper, &row)
}

/// The first room with which a sync does otherwise.
fn first_room(alloc: Global) -> Result<Option<usize>, Fail> {
    for room in 0..30 {
        if !prints_part(alloc, room)? {
            return Ok(Some(room));
        }
    }
    Ok(None)
}

#[test]
fn a_last_line_may_not_be_printed(rt: HostRuntime) -> Result<(), Fail> {
    assert_eq!(rt; first_room(rt.alloc())?, None);
    Ok(())
}
