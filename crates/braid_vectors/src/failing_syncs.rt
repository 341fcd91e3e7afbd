//! Syncs of which a call fails, or whose link has no more room: each call in turn, and that a further sync goes on from
//! there.
//!
//! The replica is of agent `a`, has confirmed `x-1`, and has `a-1` and `a-2` unsent. The server holds `x-1` and `y-1`.

ghost use Rattle.std.specs.Prelude.{IfOk};
ghost use Rattle.braid_sync.specs.Opening.{IsPlace};
ghost use Rattle.braid_io.specs.MemDoors.{IsUnused};

use crate::scripts::{Leaves, Want, has_left, link, one_and_two, place, sync_over, two_links};
use braid_io::{MemDialer, MemLink};
use braid_outbox::Replica;
use braid_sync::{Place, SyncEnd, sync};
use std::alloc::Global;
use std::test::Fail;

/// The subscription's reply.
const GIVEN: &[u8] =
    b"HTTP/1.1 209 Subscription\r\nSubscribe: true\r\nCurrent-Version: \"y-1\"\r\nMerge-Type: ti-text\r\nTransfer-Encoding: chunked\r\n\r\n63\r\nVersion: \"y-1\"\r\nParents: \"x-1\"\r\nPatches: 1\r\n\r\nContent-Length: 1\r\nContent-Range: text [2:2]\r\n\r\nc\r\n\r\n\r\n";

/// The replies to the two PUTs.
const TAKEN: &[u8] =
    b"HTTP/1.1 200 OK\r\nVersion: \"a-1\"\r\nContent-Length: 0\r\n\r\nHTTP/1.1 200 OK\r\nVersion: \"a-2\"\r\nContent-Length: 0\r\n\r\n";

/// What fails, and how: the calls of these numbers, and those for which there is no room.
#[derive(Clone, Copy)]
enum Failing {
    /// The dial of this number.
    Dial(u64),
    /// The read or write of this number, of the first link.
    First(u64),
    /// The read or write of this number, of the second link.
    Second(u64),
    /// The write of the first link behind so many bytes.
    FirstRoom(usize),
    /// The write of the second link behind so many bytes.
    SecondRoom(usize),
}

/// How a sync went.
#[derive(Clone, Copy)]
enum Went {
    /// A call failed, and the end says which.
    Failed,
    /// No call failed, and all was learnt and sent.
    Whole,
    /// Otherwise.
    Wrong,
}

/// The first link.
fn first_link(alloc: Global, piece: usize, failing: Failing) -> Result<MemLink, Fail>
    ensures ok { IfOk result IsUnused }
{
    match failing {
        Failing::First(call) => link(alloc, GIVEN, piece, 400, &[call]),
        Failing::FirstRoom(room) => link(alloc, GIVEN, piece, room, &[]),
        _ => link(alloc, GIVEN, piece, 400, &[]),
    }
}

/// The second link.
fn second_link(alloc: Global, piece: usize, failing: Failing) -> Result<MemLink, Fail>
    ensures ok { IfOk result IsUnused }
{
    match failing {
        Failing::Second(call) => link(alloc, TAKEN, piece, 600, &[call]),
        Failing::SecondRoom(room) => link(alloc, TAKEN, piece, room, &[]),
        _ => link(alloc, TAKEN, piece, 600, &[]),
    }
}

/// A dialer of both links, whose dials of these numbers fail.
fn dialer_of(
    alloc: Global,
    piece: usize,
    failing: Failing,
    dials: &[u64],
) -> Result<MemDialer, Fail> {
    let first = first_link(alloc, piece, failing)?;
    let second = second_link(alloc, piece, failing)?;
    two_links(alloc, first, second, dials)
}

/// A dialer of both links, of which what is to fail does.
fn failing_dialer(alloc: Global, piece: usize, failing: Failing) -> Result<MemDialer, Fail> {
    match failing {
        Failing::Dial(call) => dialer_of(alloc, piece, failing, &[call]),
        _ => dialer_of(alloc, piece, failing, &[]),
    }
}

/// How many dials, reads and writes failed.
fn faults(dialer: &MemDialer) -> (u64, u64, u64) {
    let mut reads: u64 = 0;
    let mut writes: u64 = 0;
    for talk in dialer.talks() {
        reads = reads.saturating_add(talk.link.read_faults());
        writes = writes.saturating_add(talk.link.write_faults());
    }
    (dialer.faults(), reads, writes)
}

/// What an end says of a sync with these numbers of failed calls.
fn went_so(end: &SyncEnd, faults: (u64, u64, u64)) -> Went {
    match (end, faults) {
        (SyncEnd::DialFault, (1, 0, 0)) => Went::Failed,
        (SyncEnd::ReadFault, (0, 1, 0)) => Went::Failed,
        (SyncEnd::WriteFault, (0, 0, 1)) => Went::Failed,
        (SyncEnd::Done, (0, 0, 0)) => Went::Whole,
        _ => Went::Wrong,
    }
}

/// How a sync of a replica with this failing call goes.
fn tried(
    alloc: Global,
    place: &Place,
    replica: &mut Replica,
    piece: usize,
    failing: Failing,
) -> Result<Went, Fail>
    requires place { IsPlace place.now }
{
    let mut dialer = failing_dialer(alloc, piece, failing)?;
    let end = sync(alloc, replica, place, &mut dialer);
    Ok(went_so(&end, faults(&dialer)))
}

/// What a sync leaves that learns and sends all.
const ALL: Leaves = Leaves {
    want: Want::Done,
    confirmed: 4,
    unsent: 0,
    text: b"aPb!c",
};

/// Whether a sync of a replica of which no call fails learns and sends all.
fn completes(alloc: Global, place: &Place, replica: &mut Replica) -> Result<bool, Fail>
    requires place { IsPlace place.now }
{
    let end = sync_over(alloc, place, replica, GIVEN, TAKEN, 4_096)?;
    has_left(alloc, replica, &end, ALL)
}

/// Whether a replica has lost nothing.
fn has_kept(replica: &Replica) -> bool {
    replica.confirmed() >= 1 && replica.confirmed().saturating_add(replica.unsent()) >= 3
}

/// How a sync of a replica with this failing call goes, where nothing is lost by it, and a further one learns and sends
/// all.
fn tried_twice(
    alloc: Global,
    place: &Place,
    replica: &mut Replica,
    piece: usize,
    failing: Failing,
) -> Result<Went, Fail>
    requires place { IsPlace place.now }
{
    let went = tried(alloc, place, replica, piece, failing)?;
    if has_kept(replica) && completes(alloc, place, replica)? {
        Ok(went)
    } else {
        Ok(Went::Wrong)
    }
}

/// How such a sync of a new replica goes.
fn sync_went(alloc: Global, place: &Place, piece: usize, failing: Failing) -> Result<Went, Fail>
    requires place { IsPlace place.now }
{
    let mut replica = one_and_two(alloc)?;
    tried_twice(alloc, place, &mut replica, piece, failing)
}

/// What fails with this number, of one kind.
fn numbered(kind: Failing, n: u64) -> Failing {
    match kind {
        Failing::Dial(_) => Failing::Dial(n),
        Failing::First(_) => Failing::First(n),
        Failing::Second(_) => Failing::Second(n),
        Failing::FirstRoom(_) => Failing::FirstRoom(n as usize),
        Failing::SecondRoom(_) => Failing::SecondRoom(n as usize),
    }
}

/// The first number of a kind with which no call fails, where with each smaller one a call does.
fn first_whole(
    alloc: Global,
    place: &Place,
    piece: usize,
    kind: Failing,
) -> Result<Option<u64>, Fail>
    requires place { IsPlace place.now }
{
    for n in 0..1_000 {
        match sync_went(alloc, place, piece, numbered(kind, n))? {
            Went::Failed => {}
            Went::Whole => return Ok(Some(n)),
            Went::Wrong => return Ok(None),
        }
    }
    Ok(None)
}

/// A kind, the size of the pieces, and the first number with which no call fails.
type Row = (Failing, usize, u64);

/// The first row whose number is another.
fn other_at(alloc: Global, place: &Place, rows: &[Row]) -> Result<Option<usize>, Fail>
    requires place { IsPlace place.now }
{
    for (n, (kind, piece, first)) in rows.iter().enumerate() {
        if first_whole(alloc, place, *piece, *kind)? != Some(*first) {
            return Ok(Some(n));
        }
    }
    Ok(None)
}

/// The same, where the place of all replicas is made first.
fn first_other(alloc: Global, rows: &[Row]) -> Result<Option<usize>, Fail> {
    let place = place(alloc)?;
    other_at(alloc, &place, rows)
}

/// One write, and one read or as many as there are bytes up to the last of the update; two writes, and a read for each
/// reply or for each byte of the replies.
const CALLS: &[Row] = &[
    (Failing::Dial(0), 4_096, 2),
    (Failing::First(0), 4_096, 2),
    (Failing::First(0), 1, 219),
    (Failing::Second(0), 54, 4),
    (Failing::Second(0), 1, 110),
];

#[test]
fn each_call_of_a_sync_may_fail(rt: HostRuntime) -> Result<(), Fail> {
    assert_eq!(rt; first_other(rt.alloc(), CALLS)?, None);
    Ok(())
}

/// The bytes of the subscription, and those of both PUTs.
const ROOMS: &[Row] = &[
    (Failing::FirstRoom(0), 4_096, 86),
    (Failing::SecondRoom(0), 4_096, 422),
];

#[test]
fn a_link_of_a_sync_may_have_no_more_room(rt: HostRuntime) -> Result<(), Fail> {
    assert_eq!(rt; first_other(rt.alloc(), ROOMS)?, None);
    Ok(())
}
