//! Syncs over links that give scripted bytes.

ghost use Rattle.std.specs.Prelude.{◌<◌, ◌^◌, IfOk, length};
ghost use Rattle.braid_change.specs.Changes.{patches_of};
ghost use Rattle.braid_io.specs.MemDoors.{IsUnused};
ghost use Rattle.braid_sync.specs.Opening.{IsPlace};

use super::*;
use braid_change::{Change, ListPatch, Patch, Text};
use braid_ids::{Agent, Bytes};
use braid_io::{MemDialer, MemLink};
use braid_outbox::Replica;
use std::alloc::Global;
use std::test::Fail;

/// The head of a subscription's reply, up to the version that it names, and from behind it, with a chunked body.
pub const HEAD: &[u8] = b"HTTP/1.1 209 Subscription\r\nSubscribe: true\r\nCurrent-Version: ";

pub const CHUNKS: &[u8] =
    b"\r\nMerge-Type: ti-text\r\nContent-Type: text/plain; charset=utf-8\r\nTransfer-Encoding: chunked\r\nConnection: close\r\n\r\n";

/// Chunks: `x-1` with the body `ab`; `y-1` behind it, which inserts `c` at its end; the last one.
pub const X: &[u8] =
    b"35\r\nVersion: \"x-1\"\r\nParents:\r\nContent-Length: 2\r\n\r\nab\r\n\r\n\r\n";

pub const Y: &[u8] =
    b"63\r\nVersion: \"y-1\"\r\nParents: \"x-1\"\r\nPatches: 1\r\n\r\nContent-Length: 1\r\nContent-Range: text [2:2]\r\n\r\nc\r\n\r\n\r\n";

pub const LAST: &[u8] = b"0\r\n\r\n";

const ASKS_FOR_ALL: &[u8] =
    b"GET /doc HTTP/1.1\r\nHost: h:1\r\nSubscribe: true\r\nParents:\r\nMerge-Type: ti-text\r\n\r\n";

const ASKS_BEHIND_X: &[u8] =
    b"GET /doc HTTP/1.1\r\nHost: h:1\r\nSubscribe: true\r\nParents: \"x-1\"\r\nMerge-Type: ti-text\r\n\r\n";

const PUTS: &[u8] =
    b"PUT /doc HTTP/1.1\r\nHost: h:1\r\nVersion: \"a-1\"\r\nParents:\r\nMerge-Type: ti-text\r\nContent-Type: text/plain; charset=utf-8\r\nContent-Length: 1\r\n\r\nZPUT /doc HTTP/1.1\r\nHost: h:1\r\nVersion: \"a-2\"\r\nParents: \"a-1\"\r\nMerge-Type: ti-text\r\nContent-Type: text/plain; charset=utf-8\r\nPatches: 1\r\nContent-Length: 53\r\n\r\nContent-Length: 1\r\nContent-Range: text [1:1]\r\n\r\n!\r\n\r\n";

/// The head of a reply that names no version as the current one.
const NONE_HELD: &[u8] = b"HTTP/1.1 209 X\r\nCurrent-Version:\r\n\r\n";

pub const TAKEN: &[u8] = b"HTTP/1.1 200 OK\r\nContent-Length: 0\r\n\r\n";

pub fn check(holds: bool, what: &'static str) -> Result<(), Fail> {
    if holds { Ok(()) } else { Err(what.into()) }
}

/// The bytes of these parts, one after the other.
pub fn joined(alloc: Global, parts: &[&[u8]]) -> Result<Bytes, Fail> {
    let mut bytes = Bytes::of(alloc, b"")?;
    for part in parts {
        bytes.push(part)?;
    }
    Ok(bytes)
}

pub fn place(alloc: Global) -> Result<Place, Fail>
    ensures ok { IfOk result IsPlace }
{
    Ok(Place {
        server: Bytes::of(alloc, b"h:1")?,
        path: Bytes::of(alloc, b"/doc")?,
    })
}

/// A link that gives these bytes in pieces of this size. The reads and writes with these numbers fail.
pub fn link(alloc: Global, given: Bytes, piece: usize, fails: Vec<u64>) -> Result<MemLink, Fail>
    ensures ok { IfOk result IsUnused }
{
    if piece == 0 {
        return Err("no piece".into());
    }
    Ok(MemLink::new(alloc, given, piece, 400_000, fails)?)
}

/// A link that gives the bytes of these parts.
pub fn scripted(
    alloc: Global,
    parts: &[&[u8]],
    piece: usize,
    fails: &[u64],
) -> Result<MemLink, Fail>
    ensures ok { IfOk result IsUnused }
{
    let given = joined(alloc, parts)?;
    let fails = Vec::from_slice(alloc, fails)?;
    link(alloc, given, piece, fails)
}

/// A dialer of one link.
pub fn one_link(alloc: Global, link: MemLink) -> Result<MemDialer, Fail>
    requires unused { IsUnused link }
{
    let links = vec![in alloc; link]?;
    Ok(MemDialer::new(alloc, links, Vec::new(alloc))?)
}

/// A dialer of two links. The dials with these numbers fail.
pub fn two_links(
    alloc: Global,
    first: MemLink,
    second: MemLink,
    fails: Vec<u64>,
) -> Result<MemDialer, Fail>
    requires first { IsUnused first }
    requires second { IsUnused second }
{
    let links = vec![in alloc; first, second]?;
    Ok(MemDialer::new(alloc, links, fails)?)
}

/// A change that inserts these bytes at a place.
pub fn insertion(alloc: Global, at: u32, bytes: &[u8]) -> Result<Change, Fail>
    ensures counted { IfOk result (λ change. length (patches_of change) < 2 ^ 32) }
{
    let text = Text::read(alloc, bytes)?;
    let patch = Patch {
        start: at,
        end: at,
        text,
    };
    Ok(Change::Patches(ListPatch::of(vec![in alloc; patch]?)))
}

/// A replica with one more unsent version.
pub fn written(alloc: Global, mut replica: Replica, change: Change) -> Result<Replica, Fail>
    requires counted { length (patches_of change) < 2 ^ 32 }
{
    let _id = replica.write(alloc, change)?;
    Ok(replica)
}

/// The replica of agent `a` that has nothing.
pub fn nothing(alloc: Global) -> Result<Replica, Fail> {
    let agent = Agent::read(alloc, b"a")?;
    Ok(Replica::new(alloc, agent))
}

/// A replica of agent `a` with two unsent versions: the body `Z`, and `!` behind it.
pub fn two_unsent(alloc: Global) -> Result<Replica, Fail> {
    let first = Change::Body(Text::read(alloc, b"Z")?);
    let one = written(alloc, nothing(alloc)?, first)?;
    written(alloc, one, insertion(alloc, 1, b"!")?)
}

/// What the link with this number was sent.
fn sent(dialer: &MemDialer, n: usize) -> &[u8] {
    match dialer.talks().get(n) {
        Some(talk) => talk.link.written(),
        None => b"",
    }
}

pub fn has_counts(replica: &Replica, confirmed: u32, unsent: u32) -> bool {
    replica.confirmed() == confirmed && replica.unsent() == unsent
}

/// A first sync of the two: it is cut inside `y-1`, has learnt `x-1`, and has asked for all.
pub fn cut_sync(
    alloc: Global,
    replica: &mut Replica,
    place: &Place,
    piece: usize,
) -> Result<bool, Fail>
    requires place { IsPlace place.now }
{
    let link = scripted(alloc, &[HEAD, b"\"y-1\"", CHUNKS, X, &Y[..40]], piece, &[])?;
    let mut dialer = one_link(alloc, link)?;
    let end = sync(alloc, replica, place, &mut dialer);
    let asked = sent(&dialer, 0) == ASKS_FOR_ALL && dialer.talks().len() == 1;
    Ok(matches!(end, SyncEnd::Cut) && has_counts(replica, 1, 2) && asked)
}

/// A dialer of a second sync in pieces of this size.
fn whole_dialer(alloc: Global, piece: usize) -> Result<MemDialer, Fail> {
    let first = scripted(alloc, &[HEAD, b"\"y-1\"", CHUNKS, Y], piece, &[])?;
    let second = scripted(alloc, &[TAKEN, TAKEN], piece, &[])?;
    two_links(alloc, first, second, Vec::new(alloc))
}

/// The second sync: it asks behind `x-1` and sends both versions.
fn whole_sync(
    alloc: Global,
    replica: &mut Replica,
    place: &Place,
    piece: usize,
) -> Result<bool, Fail>
    requires place { IsPlace place.now }
{
    let mut dialer = whole_dialer(alloc, piece)?;
    let end = sync(alloc, replica, place, &mut dialer);
    let asked = sent(&dialer, 0) == ASKS_BEHIND_X && sent(&dialer, 1) == PUTS;
    Ok(matches!(end, SyncEnd::Done) && has_counts(replica, 4, 0) && asked)
}

fn reads(alloc: Global, replica: &Replica, bytes: &[u8]) -> Result<bool, Fail> {
    let text = Text::read(alloc, bytes)?;
    Ok(replica.body(alloc)?.same(&text))
}

/// Whether a sync that was cut is gone on with, in pieces of this size.
fn goes_on(alloc: Global, place: &Place, piece: usize) -> Result<bool, Fail>
    requires place { IsPlace place.now }
{
    let mut replica = two_unsent(alloc)?;
    let cut = cut_sync(alloc, &mut replica, place, piece)?;
    let whole = whole_sync(alloc, &mut replica, place, piece)?;
    Ok(cut && whole && reads(alloc, &replica, b"abcZ!")?)
}

#[test]
fn a_cut_sync_is_gone_on_with(rt: HostRuntime) -> Result<(), Fail> {
    let alloc = rt.alloc();
    let place = place(alloc)?;
    for piece in [1, 7, 4096] {
        check(
            goes_on(alloc, &place, piece)?,
            "what was sent, and the text",
        )?;
    }
    Ok(())
}

/// A replica of agent `a` with so many unsent versions without a change, each behind the one before it.
fn many_unsent(alloc: Global, count: u64) -> Result<Replica, Fail> {
    let mut replica = nothing(alloc)?;
    for _ in 0..count {
        let _id = replica.write(alloc, Change::Patches(ListPatch::of(Vec::new(alloc))))?;
    }
    Ok(replica)
}

/// A link that gives so many replies to PUTs.
fn replies_link(alloc: Global, count: u64) -> Result<MemLink, Fail>
    ensures ok { IfOk result IsUnused }
{
    let mut replies = Bytes::of(alloc, b"")?;
    for _ in 0..count {
        replies.push(TAKEN)?;
    }
    link(alloc, replies, 4096, Vec::new(alloc))
}

/// The dialer of a sync that has nothing to learn and 1,001 versions to send.
fn thousand_dialer(alloc: Global) -> Result<MemDialer, Fail> {
    let first = scripted(alloc, &[NONE_HELD], 4096, &[])?;
    let second = replies_link(alloc, 1_001)?;
    let third = replies_link(alloc, 1)?;
    let links = vec![in alloc; first, second, third]?;
    Ok(MemDialer::new(alloc, links, Vec::new(alloc))?)
}

/// Whether 1,001 versions are sent over two links.
fn sends_a_thousand(alloc: Global, place: &Place) -> Result<bool, Fail>
    requires place { IsPlace place.now }
{
    let mut replica = many_unsent(alloc, 1_001)?;
    let mut dialer = thousand_dialer(alloc)?;
    let end = sync(alloc, &mut replica, place, &mut dialer);
    let sent = has_counts(&replica, 1_001, 0) && dialer.talks().len() == 3;
    Ok(matches!(end, SyncEnd::Done) && sent)
}

#[test]
fn a_link_carries_at_most_a_thousand_puts(rt: HostRuntime) -> Result<(), Fail> {
    let alloc = rt.alloc();
    let place = place(alloc)?;
    check(sends_a_thousand(alloc, &place)?, "two links of PUTs")
}
