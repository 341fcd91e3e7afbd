//! `sync` and `follow` over links that give scripted bytes.

use super::*;
use crate::scripts::{CHUNKS, HEAD, LAST, TAKEN, X, Y, check, dialer};
use crate::tests::{Row, keeper_of, rows_hold, words_of};
use braid_ids::after;
use braid_io::{MemKeeper, MemSink, Status};
use std::alloc::Global;
use std::test::Fail;

const NO_ROOM: &[u8] = b"HTTP/1.1 507 X\r\nContent-Length: 0\r\n\r\n";

/// Chunks: an update behind one that is not held.
const LONE: &[u8] = b"30\r\nVersion: \"y-1\"\r\nParents: \"z-1\"\r\nPatches: 0\r\n\r\n\r\n\r\n";

/// A state of agent `a` with two unsent versions: the body `Z`, and `!` behind it.
pub const TWO_UNSENT: &[u8] =
    b"braid-state 1\nagent: a\nserver: h:1\npath: /doc\nconfirmed: 0\nunsent: 2\n\nVersion: \"a-1\"\r\nParents:\r\nContent-Length: 1\r\n\r\nZ\r\n\r\nVersion: \"a-2\"\r\nParents: \"a-1\"\r\nPatches: 1\r\n\r\nContent-Length: 1\r\nContent-Range: text [1:1]\r\n\r\n!\r\n\r\nend\n";

/// What `show` prints once all are confirmed. The digest was computed by python3's hashlib.
const ALL_SHOWN: &[u8] =
    b"agent: a\npath: /doc\nfrontier: \"a-2\", \"y-1\"\nconfirmed: 4\nunsent: 0\nlength: 5\ndigest: cc5dbf225fe9514da77b897af4307ae2f7ecde335db896a9d51d62587e1b788e\ntext:\nabcZ!\n";

/// Whether a run over links that give these bytes, onto a sink of this room, has this status and prints this.
fn gives(
    alloc: Global,
    keeper: &mut MemKeeper,
    words: &[&[u8]],
    scripts: &[&[&[u8]]],
    room: usize,
    wanted: (Status, &[u8]),
) -> Result<bool, Fail> {
    let mut dialer = dialer(alloc, scripts)?;
    let mut out = MemSink::new(alloc, room, Vec::new(alloc))?;
    let words = words_of(alloc, words)?;
    let status = client_run(alloc, &words, keeper, &mut dialer, &mut out);
    Ok(status == wanted.0 && out.written() == wanted.1)
}

/// Whether so many confirmed and unsent updates are kept under `s`: the lines of a state's head are these.
fn has_counts(keeper: &MemKeeper, lines: &[u8]) -> bool {
    let Some(kept) = keeper.kept(b"s") else {
        return false;
    };
    let Some(rest) = after(
        b"braid-state 1\nagent: a\nserver: h:1\npath: /doc\n",
        kept.get(),
    ) else {
        return false;
    };
    rest.starts_with(lines)
}

const SYNC: &[&[u8]] = &[b"sync", b"s"];

#[test]
fn a_cut_sync_keeps_what_it_learnt(rt: HostRuntime) -> Result<(), Fail> {
    let alloc = rt.alloc();
    let mut keeper = keeper_of(alloc, TWO_UNSENT)?;
    let cut: &[&[&[u8]]] = &[&[HEAD, b"\"y-1\"", CHUNKS, X, &Y[..40]]];
    let wanted = (Status::Cut, b"fault: Cut\n".as_slice());
    check(
        gives(alloc, &mut keeper, SYNC, cut, 1_000, wanted)?,
        "cut inside an update",
    )?;
    check(
        has_counts(&keeper, b"confirmed: 1\nunsent: 2\n"),
        "one is confirmed",
    )?;
    let whole: &[&[&[u8]]] = &[&[HEAD, b"\"y-1\"", CHUNKS, Y], &[TAKEN, TAKEN]];
    let wanted = (Status::Done, b"synced: confirmed 4 unsent 0\n".as_slice());
    check(
        gives(alloc, &mut keeper, SYNC, whole, 1_000, wanted)?,
        "gone on with",
    )?;
    let rows: [Row<'_>; 1] = [(&[b"show", b"s"], Status::Done, ALL_SHOWN)];
    check(rows_hold(alloc, &mut keeper, &rows)?, "the text")
}

#[test]
fn an_end_has_its_line_and_keeps_what_was_learnt(rt: HostRuntime) -> Result<(), Fail> {
    let alloc = rt.alloc();
    let held: &[&[u8]] = &[b"HTTP/1.1 209 X\r\nCurrent-Version:\r\n\r\n"];
    let rows: [(&[&[&[u8]]], Status, &[u8], &[u8]); 6] = [
        (
            &[&[HEAD, b"\"y-1\"", CHUNKS, LONE]],
            Status::Bad,
            b"fault: UnknownParent \"z-1\"\n",
            b"confirmed: 0\nunsent: 2\n",
        ),
        (
            &[held, &[TAKEN, NO_ROOM]],
            Status::Cut,
            b"fault: Peer 507\n",
            b"confirmed: 1\nunsent: 1\n",
        ),
        (
            &[&[b"HTTP/1.1 209 X\r\n\r\n"]],
            Status::Bad,
            b"fault: NoCurrent\n",
            b"confirmed: 0\nunsent: 2\n",
        ),
        (
            &[&[b"HTTP/1.1 099 X\r\n\r\n"]],
            Status::Bad,
            b"fault: BadHead\n",
            b"confirmed: 0\nunsent: 2\n",
        ),
        (
            &[&[HEAD, b"\"y-1\"", CHUNKS, X, b"a\r\nno colon\r\n\r\n"]],
            Status::Bad,
            b"fault: BadLine at 53\n",
            b"confirmed: 1\nunsent: 2\n",
        ),
        (
            &[],
            Status::Outside,
            b"fault: DialFault\n",
            b"confirmed: 0\nunsent: 2\n",
        ),
    ];
    for (scripts, status, text, counts) in rows {
        let mut keeper = keeper_of(alloc, TWO_UNSENT)?;
        let wanted = (status, text);
        check(
            gives(alloc, &mut keeper, SYNC, scripts, 1_000, wanted)?,
            "the line",
        )?;
        check(has_counts(&keeper, counts), "what is kept")?;
    }
    Ok(())
}

#[test]
fn a_follow_prints_and_keeps(rt: HostRuntime) -> Result<(), Fail> {
    let alloc = rt.alloc();
    let whole: &[&[&[u8]]] = &[&[HEAD, b"\"y-1\"", CHUNKS, X, Y, LAST]];
    let rows: [(&[u8], usize, Status, &[u8], &[u8]); 3] = [
        (
            b"1",
            100,
            Status::Done,
            b"New \"x-1\"\nfollowed: 1\n",
            b"confirmed: 1\n",
        ),
        (
            b"9",
            100,
            Status::Done,
            b"New \"x-1\"\nNew \"y-1\"\nfollowed: 2\n",
            b"confirmed: 2\n",
        ),
        (
            b"9",
            15,
            Status::Outside,
            b"New \"x-1\"\nNew \"",
            b"confirmed: 2\n",
        ),
    ];
    for (count, room, status, text, counts) in rows {
        let mut keeper = keeper_of(alloc, TWO_UNSENT)?;
        let words: &[&[u8]] = &[b"follow", b"s", count];
        let wanted = (status, text);
        check(
            gives(alloc, &mut keeper, words, whole, room, wanted)?,
            "the lines",
        )?;
        check(has_counts(&keeper, counts), "what is kept")?;
    }
    Ok(())
}
