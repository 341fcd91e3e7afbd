//! Bytes that servers give, and links in memory that give them.

ghost use Rattle.std.specs.Prelude.{IfOk};
ghost use Rattle.braid_io.specs.MemDoors.{IsUnused};

use braid_ids::Bytes;
use braid_io::{MemDialer, MemLink};
use std::alloc::Global;
use std::test::Fail;

/// The head of a subscription's reply, up to the version that it names, and from behind it, with a chunked body.
pub const HEAD: &[u8] = b"HTTP/1.1 209 Subscription\r\nSubscribe: true\r\nCurrent-Version: ";

pub const CHUNKS: &[u8] =
    b"\r\nMerge-Type: ti-text\r\nContent-Type: text/plain; charset=utf-8\r\nTransfer-Encoding: chunked\r\nConnection: close\r\n\r\n";

/// Chunks: `x-1` with the body `ab`; `y-1` behind it, which inserts `c` at its end; the last one.
pub const X: &[u8] =
    b"35\r\nVersion: \"x-1\"\r\nParents:\r\nContent-Length: 2\r\n\r\nab\r\n\r\n\r\n";

pub const Y: &[u8] =
    b"63\r\nVersion: \"y-1\"\r\nParents: \"x-1\"\r\nPatches: 1\r\n\r\nContent-Length: 1\r\nContent-Range: text [2:2]\r\n\r\nc\r\n\r\n\r\n";

pub const LAST: &[u8] = b"0\r\n\r\n";

/// A reply to a PUT that was taken.
pub const TAKEN: &[u8] = b"HTTP/1.1 200 OK\r\nContent-Length: 0\r\n\r\n";

pub fn check(holds: bool, what: &'static str) -> Result<(), Fail> {
    if holds { Ok(()) } else { Err(what.into()) }
}

/// The bytes of these parts, one after the other.
fn joined(alloc: Global, parts: &[&[u8]]) -> Result<Bytes, Fail> {
    let mut bytes = Bytes::of(alloc, b"")?;
    for part in parts {
        bytes.push(part)?;
    }
    Ok(bytes)
}

/// A link that gives the bytes of these parts. The reads and writes with these numbers fail.
pub fn scripted(alloc: Global, parts: &[&[u8]], fails: &[u64]) -> Result<MemLink, Fail>
    ensures ok { IfOk result IsUnused }
{
    let given = joined(alloc, parts)?;
    let fails = Vec::from_slice(alloc, fails)?;
    Ok(MemLink::new(alloc, given, 4096, 8192, fails)?)
}

/// A dialer of no link.
pub fn no_link(alloc: Global) -> Result<MemDialer, Fail> {
    Ok(MemDialer::new(alloc, Vec::new(alloc), Vec::new(alloc))?)
}

/// A dialer of one link.
fn one_link(alloc: Global, link: MemLink) -> Result<MemDialer, Fail>
    requires unused { IsUnused link }
{
    let links = vec![in alloc; link]?;
    Ok(MemDialer::new(alloc, links, Vec::new(alloc))?)
}

/// A dialer of two links. The dials with these numbers fail.
pub fn two_links(
    alloc: Global,
    first: MemLink,
    second: MemLink,
    fails: &[u64],
) -> Result<MemDialer, Fail>
    requires first { IsUnused first }
    requires second { IsUnused second }
{
    let links = vec![in alloc; first, second]?;
    let fails = Vec::from_slice(alloc, fails)?;
    Ok(MemDialer::new(alloc, links, fails)?)
}

/// A dialer of links that give these bytes, two of them at most.
pub fn dialer(alloc: Global, scripts: &[&[&[u8]]]) -> Result<MemDialer, Fail> {
    match scripts {
        [] => no_link(alloc),
        [one] => one_link(alloc, scripted(alloc, one, &[])?),
        [one, two, ..] => {
            let one = scripted(alloc, one, &[])?;
            let two = scripted(alloc, two, &[])?;
            two_links(alloc, one, two, &[])
        }
    }
}
