//! Follows over links that give scripted bytes.

ghost use Rattle.braid_sync.specs.Opening.{IsPlace};

use super::*;
use crate::tests::{CHUNKS, HEAD, LAST, X, Y, check, one_link, place, scripted, two_unsent};
use braid_io::{MemDialer, MemSink};
use std::alloc::Global;
use std::test::Fail;

/// A chunk: `a-1` with the body `Z`.
const A: &[u8] = b"34\r\nVersion: \"a-1\"\r\nParents:\r\nContent-Length: 1\r\n\r\nZ\r\n\r\n\r\n";

#[derive(Clone, Copy)]
enum Want {
    Done,
    Cut,
    OutFault,
}

/// A follow of so many updates in pieces of this size, with a sink of this room; the end that is wanted, the number of lines,
/// how many versions are confirmed, and what is printed.
#[derive(Clone, Copy)]
struct Row<'a> {
    script: &'a [&'a [u8]],
    count: u32,
    piece: usize,
    room: usize,
    want: Want,
    lines: u32,
    confirmed: u32,
    printed: &'a [u8],
}

fn is_end(end: &SyncEnd, want: Want) -> bool {
    match (end, want) {
        (SyncEnd::Done, Want::Done) => true,
        (SyncEnd::Cut, Want::Cut) => true,
        (SyncEnd::OutFault, Want::OutFault) => true,
        _ => false,
    }
}

fn row_dialer(alloc: Global, row: &Row<'_>) -> Result<MemDialer, Fail> {
    let link = scripted(alloc, row.script, row.piece, &[])?;
    one_link(alloc, link)
}

fn row_holds(alloc: Global, place: &Place, row: &Row<'_>) -> Result<bool, Fail>
    requires place { IsPlace place.now }
{
    let mut replica = two_unsent(alloc)?;
    let mut dialer = row_dialer(alloc, row)?;
    let mut out = MemSink::new(alloc, row.room, Vec::new(alloc))?;
    let followed = follow(alloc, &mut replica, place, &mut dialer, row.count, &mut out);
    let text = out.written() == row.printed && dialer.talks().len() == 1;
    let counts = followed.lines == row.lines && replica.confirmed() == row.confirmed;
    Ok(is_end(&followed.end, row.want) && counts && text)
}

fn rows_hold(alloc: Global, rows: &[Row<'_>]) -> Result<bool, Fail> {
    let place = place(alloc)?;
    let mut all = true;
    for row in rows {
        let one = row_holds(alloc, &place, row)?;
        all = all && one;
    }
    Ok(all)
}

/// Known, confirmed and new updates, byte by byte and whole.
fn lines_hold(alloc: Global) -> Result<bool, Fail> {
    let text: &[u8] = b"New \"x-1\"\nKnown \"x-1\"\nConfirmed \"a-1\"\nNew \"y-1\"\n";
    let rows = [
        Row {
            script: &[HEAD, b"\"x-1\"", CHUNKS, X, X, A, Y, LAST],
            count: 4,
            piece: 1,
            room: 100,
            want: Want::Done,
            lines: 4,
            confirmed: 3,
            printed: text,
        },
        Row {
            script: &[HEAD, b"\"x-1\"", CHUNKS, X, X, A, Y, LAST],
            count: 4,
            piece: 4096,
            room: 100,
            want: Want::Done,
            lines: 4,
            confirmed: 3,
            printed: text,
        },
    ];
    rows_hold(alloc, &rows)
}

/// The count, a whole body, one that is cut, data that is torn, and a line that can't be written.
fn ends_hold(alloc: Global) -> Result<bool, Fail> {
    let one: &[u8] = b"New \"x-1\"\n";
    let rows = [
        Row {
            script: &[HEAD, b"\"x-1\"", CHUNKS, X, &Y[..50]],
            count: 1,
            piece: 4096,
            room: 100,
            want: Want::Done,
            lines: 1,
            confirmed: 1,
            printed: one,
        },
        Row {
            script: &[HEAD, b"\"x-1\"", CHUNKS, X, Y, LAST],
            count: 9,
            piece: 4096,
            room: 100,
            want: Want::Done,
            lines: 2,
            confirmed: 2,
            printed: b"New \"x-1\"\nNew \"y-1\"\n",
        },
        Row {
            script: &[HEAD, b"\"x-1\"", CHUNKS, X, &Y[..50]],
            count: 2,
            piece: 4096,
            room: 100,
            want: Want::Cut,
            lines: 1,
            confirmed: 1,
            printed: one,
        },
        Row {
            script: &[HEAD, b"\"x-1\"", CHUNKS, X, b"4\r\nVers\r\n", LAST],
            count: 2,
            piece: 4096,
            room: 100,
            want: Want::Cut,
            lines: 1,
            confirmed: 1,
            printed: one,
        },
        Row {
            script: &[HEAD, b"\"x-1\"", CHUNKS, X, Y, LAST],
            count: 2,
            piece: 4096,
            room: 15,
            want: Want::OutFault,
            lines: 1,
            confirmed: 2,
            printed: b"New \"x-1\"\nNew \"",
        },
    ];
    rows_hold(alloc, &rows)
}

#[test]
fn each_update_has_its_line(rt: HostRuntime) -> Result<(), Fail> {
    let alloc = rt.alloc();
    check(lines_hold(alloc)?, "the lines")
}

#[test]
fn a_follow_ends_with_its_count_or_its_body(rt: HostRuntime) -> Result<(), Fail> {
    let alloc = rt.alloc();
    check(ends_hold(alloc)?, "each end")
}
