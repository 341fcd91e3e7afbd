//! The limits of a book and of an update's parents: the last value of each, and the next one; and a text that stands
//! among many deleted ones.

use crate::sessions::{Session, served};
use braid_ids::{Bytes, Memory};
use braid_session::SessionEnd;
use std::alloc::Global;
use std::sync::Wait;
use std::test::Fail;

/// The replies to the last requests of each test.
const STORED: &[u8] = b"HTTP/1.1 200 OK\r\nVersion: \"w\"\r\nContent-Length: 0\r\n\r\n";

const TOO_MANY_PARENTS: &[u8] =
    b"HTTP/1.1 400 Bad Request\r\nContent-Type: text/plain; charset=utf-8\r\nContent-Length: 15\r\n\r\nTooManyParents\n";

const FULL: &[u8] =
    b"HTTP/1.1 507 Insufficient Storage\r\nContent-Type: text/plain; charset=utf-8\r\nContent-Length: 20\r\n\r\nFull resources 4096\n";

const ABSENT: &[u8] =
    b"HTTP/1.1 404 Not Found\r\nContent-Type: text/plain; charset=utf-8\r\nContent-Length: 7\r\n\r\nAbsent\n";

/// Whether a session answered so many requests, added so many entries, and wrote these replies last.
fn is_so(session: &Session, requests: u64, entries: u64, last: &[u8]) -> bool {
    session.left.note.end == SessionEnd::Closed
        && session.left.note.requests == requests
        && session.left.has_entries(entries)
        && session.link.written().ends_with(last)
}

/// Whether a session of these bytes answers so many requests, adds so many entries, and writes these replies last.
fn ends_so<R: Wait>(
    rt: &R,
    alloc: Global,
    asked: Bytes,
    requests: u64,
    entries: u64,
    last: &[u8],
) -> Result<bool, Memory> {
    let session = served(rt, alloc, asked, 8_192, 1_000_000, &[])?;
    Ok(is_so(&session, requests, entries, last))
}

/// A PUT of this name with the first so many of the versions as its parents.
fn push_child(asked: &mut Bytes, name: &[u8], parents: u64) -> Result<(), Memory> {
    asked.push(b"PUT /a HTTP/1.1\r\nVersion: ")?;
    asked.push(name)?;
    asked.push(b"\r\nParents: \"v-0\"")?;
    for n in 1..parents {
        push_quoted(asked, b", \"v-", n)?;
    }
    asked.push(b"\r\nContent-Length: 0\r\n\r\n")
}

/// A front, a number, and a quotation mark.
fn push_quoted(asked: &mut Bytes, front: &[u8], n: u64) -> Result<(), Memory> {
    asked.push(front)?;
    asked.push_number(n)?;
    asked.push(b"\"")
}

/// PUTs of 33 versions without parents, of one behind 32 of them, and of one behind all.
fn many_parents(alloc: Global) -> Result<Bytes, Memory> {
    let mut asked = Bytes::of(alloc, b"")?;
    for n in 0..33 {
        push_quoted(&mut asked, b"PUT /a HTTP/1.1\r\nVersion: \"v-", n)?;
        asked.push(b"\r\nContent-Length: 0\r\n\r\n")?;
    }
    push_child(&mut asked, b"\"w\"", 32)?;
    push_child(&mut asked, b"\"z\"", 33)?;
    Ok(asked)
}

/// PUTs to 4,097 paths, a PUT to the first of them again, and a GET of the last.
fn many_paths(alloc: Global) -> Result<Bytes, Memory> {
    let mut asked = Bytes::of(alloc, b"")?;
    for n in 0..4_097 {
        asked.push(b"PUT /")?;
        asked.push_number(n)?;
        asked.push(b" HTTP/1.1\r\nVersion: \"v\"\r\nContent-Length: 0\r\n\r\n")?;
    }
    asked.push(
        b"PUT /0 HTTP/1.1\r\nVersion: \"w\"\r\nParents: \"v\"\r\nContent-Length: 0\r\n\r\n",
    )?;
    asked.push(b"GET /4096 HTTP/1.1\r\n\r\n")?;
    Ok(asked)
}

/// These replies, one after the other.
fn joined(alloc: Global, replies: &[&[u8]]) -> Result<Bytes, Memory> {
    let mut bytes = Bytes::of(alloc, b"")?;
    for reply in replies {
        bytes.push(reply)?;
    }
    Ok(bytes)
}

#[test]
fn an_update_has_at_most_32_parents(rt: HostRuntime) -> Result<(), Fail> {
    let alloc = rt.alloc();
    let last = joined(alloc, &[STORED, TOO_MANY_PARENTS])?;
    let asked = many_parents(alloc)?;
    assert!(rt; ends_so(&rt, alloc, asked, 35, 34, last.get())?);
    Ok(())
}

#[test]
fn a_server_has_at_most_4096_resources(rt: HostRuntime) -> Result<(), Fail> {
    let alloc = rt.alloc();
    let last = joined(alloc, &[FULL, STORED, ABSENT])?;
    let asked = many_paths(alloc)?;
    assert!(rt; ends_so(&rt, alloc, asked, 4_099, 4_097, last.get())?);
    Ok(())
}

/// A hundred characters.
const LINE: &[u8] =
    b"aaaaaaaaaaaaaaaaaaaaaaaaaaaaaaaaaaaaaaaaaaaaaaaaaaaaaaaaaaaaaaaaaaaaaaaaaaaaaaaaaaaaaaaaaaaaaaaaaaaa";

/// A PUT of a hundred characters in place of all that stands at the version before.
fn push_body(asked: &mut Bytes, n: u64) -> Result<(), Memory> {
    push_quoted(asked, b"PUT /a HTTP/1.1\r\nVersion: \"v-", n)?;
    if let Some(before) = n.checked_sub(1) {
        push_quoted(asked, b"\r\nParents: \"v-", before)?;
    }
    asked.push(b"\r\nContent-Length: 100\r\n\r\n")?;
    asked.push(LINE)
}

/// PUTs of 501 bodies, each in place of the one before, of a letter in the middle of the last one, and a GET.
fn many_bodies(alloc: Global) -> Result<Bytes, Memory> {
    let mut asked = Bytes::of(alloc, b"")?;
    for n in 0..501 {
        push_body(&mut asked, n)?;
    }
    asked.push(
        b"PUT /a HTTP/1.1\r\nVersion: \"w\"\r\nParents: \"v-500\"\r\nContent-Range: text [50:50]\r\nContent-Length: 1\r\n\r\nx",
    )?;
    asked.push(b"GET /a HTTP/1.1\r\n\r\n")?;
    Ok(asked)
}

/// The reply to that GET.
const READ: &[u8] =
    b"HTTP/1.1 200 OK\r\nVersion: \"w\"\r\nMerge-Type: ti-text\r\nContent-Type: text/plain; charset=utf-8\r\nContent-Length: 101\r\n\r\naaaaaaaaaaaaaaaaaaaaaaaaaaaaaaaaaaaaaaaaaaaaaaaaaaxaaaaaaaaaaaaaaaaaaaaaaaaaaaaaaaaaaaaaaaaaaaaaaaaaa";

#[test]
fn a_text_may_stand_among_fifty_thousand_deleted_characters(rt: HostRuntime) -> Result<(), Fail> {
    let alloc = rt.alloc();
    let asked = many_bodies(alloc)?;
    assert!(rt; ends_so(&rt, alloc, asked, 503, 502, READ)?);
    Ok(())
}
