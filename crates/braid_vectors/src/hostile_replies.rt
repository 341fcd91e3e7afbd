//! Replies of a hostile server: how a sync ends, and that the replica loses nothing.
//!
//! The replica is of agent `a`, has confirmed `x-1`, and has `a-1` unsent. Each row is decided by its last byte: cut
//! anywhere before it, it ends as a reply that is cut.

ghost use Rattle.braid_sync.specs.Opening.{IsPlace};

use crate::scripts::{Leaves, Want, place, sync_leaves};
use braid_http::Refusal;
use braid_sync::Place;
use std::alloc::Global;
use std::test::Fail;

/// Whether a sync with these bytes on the first link and on the second, in pieces of this size, ends so and changes
/// nothing.
fn ends_so(
    alloc: Global,
    place: &Place,
    first: &[u8],
    second: &[u8],
    piece: usize,
    want: Want,
) -> Result<bool, Fail>
    requires place { IsPlace place.now }
{
    let leaves = Leaves {
        want,
        confirmed: 1,
        unsent: 1,
        text: b"aPb",
    };
    sync_leaves(alloc, place, first, second, piece, leaves)
}

/// Whether a sync is cut where the first link is cut at any byte.
fn first_cuts_hold(alloc: Global, place: &Place, first: &[u8], second: &[u8]) -> Result<bool, Fail>
    requires place { IsPlace place.now }
{
    for cut in 0..first.len() {
        if !ends_so(alloc, place, &first[..cut], second, 4_096, Want::Cut)? {
            return Ok(false);
        }
    }
    Ok(true)
}

/// Whether a sync is cut where the second link is cut at any byte.
fn second_cuts_hold(alloc: Global, place: &Place, first: &[u8], second: &[u8]) -> Result<bool, Fail>
    requires place { IsPlace place.now }
{
    for cut in 0..second.len() {
        if !ends_so(alloc, place, first, &second[..cut], 4_096, Want::Cut)? {
            return Ok(false);
        }
    }
    Ok(true)
}

/// Whether a sync of a row ends so, whole and byte by byte, and is cut where the last link is cut at any byte.
fn row_holds(alloc: Global, place: &Place, row: Row) -> Result<bool, Fail>
    requires place { IsPlace place.now }
{
    let (first, second, want) = row;
    let bytes = ends_so(alloc, place, first, second, 1, want)?;
    let whole = ends_so(alloc, place, first, second, 4_096, want)?;
    let cuts = if second.is_empty() {
        first_cuts_hold(alloc, place, first, second)?
    } else {
        second_cuts_hold(alloc, place, first, second)?
    };
    Ok(bytes && whole && cuts)
}

/// What the first link gives and the second one, and the end that is wanted.
type Row = (&'static [u8], &'static [u8], Want);

/// The first row that does not hold.
fn other_at(alloc: Global, place: &Place, rows: &[Row]) -> Result<Option<usize>, Fail>
    requires place { IsPlace place.now }
{
    for (n, row) in rows.iter().enumerate() {
        if !row_holds(alloc, place, *row)? {
            return Ok(Some(n));
        }
    }
    Ok(None)
}

/// The same, where the place of all replicas is made first.
fn first_other(alloc: Global, rows: &[Row]) -> Result<Option<usize>, Fail> {
    let place = place(alloc)?;
    other_at(alloc, &place, rows)
}

/// Replies to a subscription.
const SUBSCRIPTIONS: &[Row] = &[
    // Held and unsent identifiers with another body.
    (
        b"HTTP/1.1 209 X\r\nCurrent-Version: \"y-1\"\r\n\r\nVersion: \"x-1\"\r\nContent-Length: 2\r\n\r\nho",
        b"",
        Want::Clash("x-1"),
    ),
    (
        b"HTTP/1.1 209 X\r\nCurrent-Version: \"y-1\"\r\n\r\nVersion: \"a-1\"\r\nParents: \"x-1\"\r\nContent-Length: 2\r\n\r\nho",
        b"",
        Want::Clash("a-1"),
    ),
    // The same with other parents.
    (
        b"HTTP/1.1 209 X\r\nCurrent-Version: \"y-1\"\r\n\r\nVersion: \"a-1\"\r\nContent-Range: text [1:1]\r\nContent-Length: 1\r\n\r\nP",
        b"",
        Want::Clash("a-1"),
    ),
    // A parent that is unsent, and one that is not held.
    (
        b"HTTP/1.1 209 X\r\nCurrent-Version: \"y-1\"\r\n\r\nVersion: \"y-1\"\r\nParents: \"a-1\"\r\nPatches: 0\r\n\r\n",
        b"",
        Want::Unknown("a-1"),
    ),
    (
        b"HTTP/1.1 209 X\r\nCurrent-Version: \"y-1\"\r\n\r\nVersion: \"y-1\"\r\nParents: \"z-2\",\"z-1\",\"x-1\"\r\nPatches: 0\r\n\r\n",
        b"",
        Want::Unknown("z-1"),
    ),
    // An update that is its own parent.
    (
        b"HTTP/1.1 209 X\r\nCurrent-Version: \"y-1\"\r\n\r\nVersion: \"y-1\"\r\nParents: \"y-1\"\r\nPatches: 0\r\n\r\n",
        b"",
        Want::Unknown("y-1"),
    ),
    // A range past the text at the parents.
    (
        b"HTTP/1.1 209 X\r\nCurrent-Version: \"y-1\"\r\n\r\nVersion: \"y-1\"\r\nParents: \"x-1\"\r\nContent-Range: text [0:3]\r\nContent-Length: 0\r\n\r\n",
        b"",
        Want::Past(0, 2),
    ),
    (
        b"HTTP/1.1 209 X\r\nCurrent-Version: \"y-1\"\r\n\r\nVersion: \"y-1\"\r\nContent-Range: text [1:1]\r\nContent-Length: 0\r\n\r\n",
        b"",
        Want::Past(0, 0),
    ),
    // No update.
    (
        b"HTTP/1.1 209 X\r\nCurrent-Version: \"y-1\"\r\n\r\nno colon\r\n",
        b"",
        Want::BadStream(0),
    ),
    (
        b"HTTP/1.1 209 X\r\nCurrent-Version: \"y-1\"\r\nTransfer-Encoding: chunked\r\n\r\n1\r\nn\r\n9\r\no colon\r\n",
        b"",
        Want::BadStream(0),
    ),
    (
        b"HTTP/1.1 209 X\r\nCurrent-Version: \"y-1\"\r\n\r\nVersion: \"x-1\"\r\nContent-Length: 2\r\n\r\nab\r\n\r\nHTTP/1.1 404 Not Found\r\n",
        b"",
        Want::BadStream(43),
    ),
    // Heads of replies that are none, or not what was asked for.
    (b"HTTP/1.1 209 X\r\n\r\n", b"", Want::NoCurrent),
    (
        b"HTTP/1.1 209 X\r\nCurrent-Version: x\r\n\r\n",
        b"",
        Want::BadCurrent,
    ),
    (
        b"HTTP/1.1 209 X\r\nCurrent-Version: \"\"\r\n\r\n",
        b"",
        Want::BadCurrent,
    ),
    (
        b"HTTP/1.1 209 X\r\nCurrent-Version: \"x-1\"\r\nCurrent-Version: \"y-1\";a\r\n\r\n",
        b"",
        Want::BadCurrent,
    ),
    (
        b"HTTP/1.1 209 X\r\nMerge-Type: sync9\r\n\r\n",
        b"",
        Want::OtherMergeType,
    ),
    (
        b"HTTP/1.1 209 X\r\nMerge-Type: ti-text\r\nMerge-Type: ti-text\r\nCurrent-Version: x\r\n\r\n",
        b"",
        Want::OtherMergeType,
    ),
    (
        b"HTTP/1.1 200 OK\r\nMerge-Type: sync9\r\n\r\n",
        b"",
        Want::Peer(200),
    ),
    (b"HTTP/1.1 100 Continue\r\n\r\n", b"", Want::Peer(100)),
    (
        b"HTTP/1.1 099 X\r\n\r\n",
        b"",
        Want::BadHead(Refusal::BadHead),
    ),
    (
        b"HTTP/1.1 2090 X\r\n\r\n",
        b"",
        Want::BadHead(Refusal::BadHead),
    ),
    (
        b"HTTP/2 209 X\r\n\r\n",
        b"",
        Want::BadHead(Refusal::BadHead),
    ),
    (
        b"HTTP/1.1 209 X\r\nCurrent-Version : \"x-1\"\r\n\r\n",
        b"",
        Want::BadHead(Refusal::BadHead),
    ),
    (
        b"HTTP/1.1 209 X\r\nCurrent-Version: \"x-1\"\r\n ,\"y-1\"\r\n\r\n",
        b"",
        Want::BadHead(Refusal::BadHead),
    ),
    (
        b"HTTP/1.1 209 X\r\nContent-Length: 2\r\nContent-Length: 2\r\n\r\n",
        b"",
        Want::BadHead(Refusal::BadLength),
    ),
    (
        b"HTTP/1.1 209 X\r\nTransfer-Encoding: gzip\r\n\r\n",
        b"",
        Want::BadHead(Refusal::BadLength),
    ),
    (
        b"HTTP/1.1 209 X\r\nTransfer-Encoding: chunked\r\nContent-Length: 2\r\n\r\n",
        b"",
        Want::BadHead(Refusal::BothLengths),
    ),
    // Chunks that are none.
    (
        b"HTTP/1.1 209 X\r\nCurrent-Version: \"y-1\"\r\nTransfer-Encoding: chunked\r\n\r\nzz\r\n",
        b"",
        Want::BadHead(Refusal::BadChunk),
    ),
    (
        b"HTTP/1.1 209 X\r\nCurrent-Version: \"y-1\"\r\nTransfer-Encoding: chunked\r\n\r\n10000000000000000\r\n",
        b"",
        Want::BadHead(Refusal::BadChunk),
    ),
    (
        b"HTTP/1.1 209 X\r\nCurrent-Version: \"y-1\"\r\nTransfer-Encoding: chunked\r\n\r\n2\r\n\r\nx",
        b"",
        Want::BadHead(Refusal::BadChunk),
    ),
    // Bodies that end before the version was there: behind the last chunk, in a chunk of the greatest size, at their
    // length, with the connection.
    (
        b"HTTP/1.1 209 X\r\nCurrent-Version: \"y-1\"\r\nTransfer-Encoding: chunked\r\n\r\n0\r\n\r\n",
        b"",
        Want::Cut,
    ),
    (
        b"HTTP/1.1 209 X\r\nCurrent-Version: \"y-1\"\r\nTransfer-Encoding: chunked\r\n\r\n0\r\nCurrent-Version: \"x-1\"\r\n\r\n",
        b"",
        Want::Cut,
    ),
    (
        b"HTTP/1.1 209 X\r\nCurrent-Version: \"y-1\"\r\nTransfer-Encoding: chunked\r\n\r\nffffffffffffffff\r\nVersion: \"x-1\"\r\nContent-Length: 2\r\n\r\nab\r\n",
        b"",
        Want::Cut,
    ),
    (
        b"HTTP/1.1 209 X\r\nCurrent-Version: \"y-1\"\r\nContent-Length: 7\r\n\r\nVersion: \"y-1\"",
        b"",
        Want::Cut,
    ),
    (
        b"HTTP/1.1 209 X\r\nCurrent-Version: \"y-1\"\r\n\r\nVersion: \"y-1\"\r\nParents: \"x-1\"\r\nPatches: 1\r\n\r\n",
        b"",
        Want::Cut,
    ),
];

#[test]
fn a_hostile_subscription_ends_a_sync(rt: HostRuntime) -> Result<(), Fail> {
    assert_eq!(rt; first_other(rt.alloc(), SUBSCRIPTIONS)?, None);
    Ok(())
}

/// Replies to a PUT, behind a subscription whose version is held.
const PUTS: &[Row] = &[
    // Replies to a PUT.
    (
        b"HTTP/1.1 209 X\r\nCurrent-Version: \"x-1\"\r\n\r\n",
        b"HTTP/1.1 200 OK\r\nConte",
        Want::Cut,
    ),
    (
        b"HTTP/1.1 209 X\r\nCurrent-Version: \"x-1\"\r\n\r\n",
        b"HTTP/1.1 200 OK\r\nContent-Length: 3\r\n\r\nno",
        Want::Cut,
    ),
    (
        b"HTTP/1.1 209 X\r\nCurrent-Version: \"x-1\"\r\n\r\n",
        b"HTTP/1.1 200 OK\r\nTransfer-Encoding: chunked\r\n\r\n2\r\nno\r\n0\r\n",
        Want::Cut,
    ),
    (
        b"HTTP/1.1 209 X\r\nCurrent-Version: \"x-1\"\r\n\r\n",
        b"HTTP/1.1 507 X\r\nContent-Length: 3\r\n\r\nno\n",
        Want::Peer(507),
    ),
    (
        b"HTTP/1.1 209 X\r\nCurrent-Version: \"x-1\"\r\n\r\n",
        b"HTTP/1.1 204 No Content\r\n\r\n",
        Want::Peer(204),
    ),
    (
        b"HTTP/1.1 209 X\r\nCurrent-Version: \"x-1\"\r\n\r\n",
        b"HTTP/1.1 100 Continue\r\nContent-Length: 0\r\n\r\n",
        Want::Peer(100),
    ),
    (
        b"HTTP/1.1 209 X\r\nCurrent-Version: \"x-1\"\r\n\r\n",
        b"HTTP/1.1 409 Conflict\r\nTransfer-Encoding: chunked\r\n\r\n3\r\nno\n\r\n0\r\n\r\n",
        Want::Peer(409),
    ),
    (
        b"HTTP/1.1 209 X\r\nCurrent-Version: \"x-1\"\r\n\r\n",
        b"HTTP/1.1 200 OK\r\nTransfer-Encoding: chunked\r\n\r\nzz\r\n",
        Want::BadHead(Refusal::BadChunk),
    ),
    (
        b"HTTP/1.1 209 X\r\nCurrent-Version: \"x-1\"\r\n\r\n",
        b"HTTP/1.1 200 OK\r\nContent-Length: 0, 0\r\n\r\n",
        Want::BadHead(Refusal::BadLength),
    ),
    (
        b"HTTP/1.1 209 X\r\nCurrent-Version: \"x-1\"\r\n\r\n",
        b"HTTP/1.1 200 OK\r\nContent-Length: 0\r\nTransfer-Encoding: chunked\r\n\r\n",
        Want::BadHead(Refusal::BothLengths),
    ),
];

#[test]
fn a_hostile_reply_to_a_put_ends_a_sync(rt: HostRuntime) -> Result<(), Fail> {
    assert_eq!(rt; first_other(rt.alloc(), PUTS)?, None);
    Ok(())
}
