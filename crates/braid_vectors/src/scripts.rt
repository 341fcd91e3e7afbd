//! Replicas, and links in memory that give a client scripted bytes.

ghost use Rattle.std.specs.Prelude.{◌<◌, ◌^◌, IfOk, length};
ghost use Rattle.braid_change.specs.Changes.{patches_of};
ghost use Rattle.braid_sync.specs.Opening.{IsPlace};
ghost use Rattle.braid_io.specs.MemDoors.{IsUnused};

use crate::sessions::link_of;
use braid_change::{Change, ListPatch, Patch, Text, Update};
use braid_http::Refusal;
use braid_ids::{Agent, Bytes, Frontier, Id};
use braid_io::{MemDialer, MemLink};
use braid_outbox::Replica;
use braid_sync::{Place, SyncEnd, sync};
use std::alloc::Global;
use std::test::Fail;

/// A reply to a PUT that was taken.
pub const TAKEN: &[u8] = b"HTTP/1.1 200 OK\r\nContent-Length: 0\r\n\r\n";

/// How a sync is to end.
#[derive(Clone, Copy)]
pub enum Want {
    Done,
    Cut,
    Peer(u16),
    BadHead(Refusal),
    NoCurrent,
    BadCurrent,
    OtherMergeType,
    BadStream(u64),
    Clash(&'static str),
    Unknown(&'static str),
    Past(u32, u32),
}

/// Whether an end is the one that is wanted.
pub fn is_end(end: &SyncEnd, want: Want) -> bool {
    match (end, want) {
        (SyncEnd::Done, Want::Done) => true,
        (SyncEnd::Cut, Want::Cut) => true,
        (SyncEnd::Peer { status }, Want::Peer(wanted)) => *status == wanted,
        (SyncEnd::BadHead(refusal), Want::BadHead(wanted)) => *refusal == wanted,
        (SyncEnd::NoCurrent, Want::NoCurrent) => true,
        (SyncEnd::BadCurrent, Want::BadCurrent) => true,
        (SyncEnd::OtherMergeType, Want::OtherMergeType) => true,
        (SyncEnd::BadStream(fault), Want::BadStream(at)) => fault.at == at,
        (SyncEnd::Clash { id }, Want::Clash(name)) => id.bytes() == name.as_bytes(),
        (SyncEnd::UnknownParent { id }, Want::Unknown(name)) => id.bytes() == name.as_bytes(),
        (SyncEnd::OutOfRange { patch, len }, Want::Past(n, end)) => *patch == n && *len == end,
        _ => false,
    }
}

/// A failure of a test unless this holds.
pub fn check(holds: bool, what: &'static str) -> Result<(), Fail> {
    if holds { Ok(()) } else { Err(what.into()) }
}

/// The server `h:1` and the path `/doc`.
pub fn place(alloc: Global) -> Result<Place, Fail>
    ensures ok { IfOk result IsPlace }
{
    Ok(Place {
        server: Bytes::of(alloc, b"h:1")?,
        path: Bytes::of(alloc, b"/doc")?,
    })
}

/// A link that gives these bytes in pieces of this size, with room for so many. The calls of these numbers fail.
pub fn link(
    alloc: Global,
    given: &[u8],
    piece: usize,
    room: usize,
    fails: &[u64],
) -> Result<MemLink, Fail>
    ensures ok { IfOk result IsUnused }
{
    let given = Bytes::of(alloc, given)?;
    Ok(link_of(alloc, given, piece, room, fails)?)
}

/// A dialer of two links. The dials of these numbers fail.
pub fn two_links(
    alloc: Global,
    first: MemLink,
    second: MemLink,
    fails: &[u64],
) -> Result<MemDialer, Fail>
    requires first { IsUnused first }
    requires second { IsUnused second }
{
    let links = vec![in alloc; first, second]?;
    let fails = Vec::from_slice(alloc, fails)?;
    Ok(MemDialer::new(alloc, links, fails)?)
}

/// A dialer of two links that give these bytes in pieces of this size, with room for all that a client writes.
pub fn dialer(alloc: Global, first: &[u8], second: &[u8], piece: usize) -> Result<MemDialer, Fail> {
    let first = link(alloc, first, piece, 800, &[])?;
    let second = link(alloc, second, piece, 800, &[])?;
    two_links(alloc, first, second, &[])
}

/// The end of a replica's sync over two links that give these bytes in pieces of this size.
pub fn sync_over(
    alloc: Global,
    place: &Place,
    replica: &mut Replica,
    first: &[u8],
    second: &[u8],
    piece: usize,
) -> Result<SyncEnd, Fail>
    requires place { IsPlace place.now }
{
    let mut dialer = dialer(alloc, first, second, piece)?;
    Ok(sync(alloc, replica, place, &mut dialer))
}

/// A change that inserts these bytes at a place.
fn insertion(alloc: Global, at: u32, bytes: &[u8]) -> Result<Change, Fail>
    ensures counted { IfOk result (λ change. length (patches_of change) < 2 ^ 32) }
{
    let text = Text::read(alloc, bytes)?;
    let patch = Patch {
        start: at,
        end: at,
        text,
    };
    Ok(Change::Patches(ListPatch::of(vec![in alloc; patch]?)))
}

/// Writes a further version, which inserts these bytes at a place.
fn insert(alloc: Global, replica: &mut Replica, at: u32, bytes: &[u8]) -> Result<(), Fail> {
    let change = insertion(alloc, at, bytes)?;
    let _id = replica.write(alloc, change)?;
    Ok(())
}

/// The update `x-1` with the body `ab`.
fn update_x(alloc: Global) -> Result<Update, Fail> {
    let id = Id::read(alloc, b"x-1")?;
    let none = Frontier::of(Vec::new(alloc))?;
    let text = Text::read(alloc, b"ab")?;
    Ok(Update::build(id, none, Change::Body(text))?)
}

/// A replica of agent `a` that has confirmed `x-1`, whose body is `ab`.
fn one_confirmed(alloc: Global) -> Result<Replica, Fail> {
    let agent = Agent::read(alloc, b"a")?;
    let x = update_x(alloc)?;
    let mut replica = Replica::new(alloc, agent);
    let _learn = replica.learn(alloc, x);
    Ok(replica)
}

/// A replica of agent `a` that has confirmed `x-1`, whose body is `ab`, and has `a-1` behind it unsent, which inserts
/// `P`.
pub fn one_and_one(alloc: Global) -> Result<Replica, Fail> {
    let mut replica = one_confirmed(alloc)?;
    insert(alloc, &mut replica, 1, b"P")?;
    Ok(replica)
}

/// The same with `a-2` behind it, which inserts `!` at the end.
pub fn one_and_two(alloc: Global) -> Result<Replica, Fail> {
    let mut replica = one_and_one(alloc)?;
    insert(alloc, &mut replica, 3, b"!")?;
    Ok(replica)
}

/// Whether a replica's text is this.
fn reads(alloc: Global, replica: &Replica, text: &[u8]) -> Result<bool, Fail> {
    let wanted = Text::read(alloc, text)?;
    let body = replica.body(alloc)?;
    Ok(body.same(&wanted))
}

/// What a sync is to leave: its end, how many versions are confirmed and unsent then, and the text.
#[derive(Clone, Copy)]
pub struct Leaves {
    pub want: Want,
    pub confirmed: u32,
    pub unsent: u32,
    pub text: &'static [u8],
}

/// Whether a sync that ended so left this.
pub fn has_left(
    alloc: Global,
    replica: &Replica,
    end: &SyncEnd,
    leaves: Leaves,
) -> Result<bool, Fail> {
    let counts = replica.confirmed() == leaves.confirmed && replica.unsent() == leaves.unsent;
    if counts && is_end(end, leaves.want) {
        reads(alloc, replica, leaves.text)
    } else {
        Ok(false)
    }
}

/// Whether a sync of that replica over two links that give these bytes, in pieces of this size, leaves this.
pub fn sync_leaves(
    alloc: Global,
    place: &Place,
    first: &[u8],
    second: &[u8],
    piece: usize,
    leaves: Leaves,
) -> Result<bool, Fail>
    requires place { IsPlace place.now }
{
    let mut replica = one_and_one(alloc)?;
    let end = sync_over(alloc, place, &mut replica, first, second, piece)?;
    has_left(alloc, &replica, &end, leaves)
}
