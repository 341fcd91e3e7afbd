//! Requests that are denied or refused, over links in memory.

use crate::tests::{HELLO, STORED, repeated, serve};
use braid_ids::{Bytes, Memory};
use std::alloc::Global;
use std::sync::Wait;

/// Puts a number down.
fn push_number(alloc: Global, out: &mut Bytes, n: usize) -> Result<(), Memory> {
    let text = format!(in alloc; "{n}")?;
    out.push(text.as_bytes())
}

/// The bytes of an error's reply.
fn push_error(alloc: Global, out: &mut Bytes, status: &[u8], reason: &[u8]) -> Result<(), Memory> {
    let allow: &[u8] = if status.starts_with(b"405") {
        b"Allow: GET, PUT\r\n"
    } else {
        b""
    };
    out.push(b"HTTP/1.1 ")?;
    out.push(status)?;
    out.push(b"\r\n")?;
    out.push(allow)?;
    out.push(b"Content-Type: text/plain; charset=utf-8\r\nContent-Length: ")?;
    push_number(alloc, out, reason.len().saturating_add(1))?;
    out.push(b"\r\n\r\n")?;
    out.push(reason)?;
    out.push(b"\n")
}

/// A request behind the PUT of `hello`, and the status and the reason of the error that answers it.
type Denial = (&'static [u8], &'static [u8], &'static [u8]);

/// Whether a session on the PUT of `hello` and a request writes this, in pieces of this size.
fn writes<R: Wait>(
    rt: &R,
    alloc: Global,
    request: &[u8],
    piece: usize,
    wanted: &[u8],
) -> Result<bool, Memory> {
    let asked = repeated(alloc, HELLO, b"", 0, request)?;
    let left = serve(rt, alloc, 0, asked, piece, 0, &[])?;
    Ok(left.link.written() == wanted && left.entries == 1 && left.note.requests == 2)
}

/// What is written where the second request is answered by an error.
fn error_behind(alloc: Global, status: &[u8], reason: &[u8]) -> Result<Bytes, Memory> {
    let mut wanted = Bytes::of(alloc, STORED)?;
    push_error(alloc, &mut wanted, status, reason)?;
    Ok(wanted)
}

/// Whether a request is answered by an error, in pieces of each size.
fn is_denied<R: Wait>(rt: &R, alloc: Global, row: &Denial) -> Result<bool, Memory> {
    let wanted = error_behind(alloc, row.1, row.2)?;
    Ok(
        writes(rt, alloc, row.0, 1, wanted.get()) == Ok(true)
            && writes(rt, alloc, row.0, 7, wanted.get()) == Ok(true)
            && writes(rt, alloc, row.0, 1_000_000, wanted.get()) == Ok(true),
    )
}

/// Whether each request is answered by its error.
fn all_denied<R: Wait>(rt: &R, alloc: Global, rows: &[Denial]) -> bool {
    for row in rows {
        if is_denied(rt, alloc, row) != Ok(true) {
            return false;
        }
    }
    true
}

const GETS: [Denial; 11] = [
    (
        b"POST a HTTP/1.1\r\nContent-Encoding: gzip\r\n\r\n",
        b"405 Method Not Allowed",
        b"Method",
    ),
    (
        b"GET a HTTP/1.1\r\nContent-Encoding: gzip\r\n\r\n",
        b"400 Bad Request",
        b"Encoded",
    ),
    (
        b"GET a HTTP/1.1\r\nMerge-Type: sync9\r\n\r\n",
        b"400 Bad Request",
        b"Path",
    ),
    (
        b"GET /a HTTP/1.1\r\nMerge-Type: sync9\r\nParents: \"b\"\r\n\r\n",
        b"400 Bad Request",
        b"OtherMergeType",
    ),
    (
        b"GET /a HTTP/1.1\r\nMerge-Type: ti-text\r\nMerge-Type: ti-text\r\n\r\n",
        b"400 Bad Request",
        b"OtherMergeType",
    ),
    (
        b"GET /a HTTP/1.1\r\nParents: \"b\"\r\nVersion: b\r\n\r\n",
        b"400 Bad Request",
        b"NotServed",
    ),
    (
        b"GET /a HTTP/1.1\r\nSubscribe: true\r\nVersion: \"x-1\"\r\nParents: b\r\n\r\n",
        b"400 Bad Request",
        b"NotServed",
    ),
    (
        b"GET /a HTTP/1.1\r\nVersion: \"\", b\r\n\r\n",
        b"400 Bad Request",
        b"BadList",
    ),
    (
        b"GET /none HTTP/1.1\r\nVersion: \"x-1\"\r\nVersion: \"\"\r\n\r\n",
        b"400 Bad Request",
        b"BadId",
    ),
    (
        b"GET /none HTTP/1.1\r\nVersion: \"b\"\r\n\r\n",
        b"404 Not Found",
        b"Absent",
    ),
    (
        b"GET /a HTTP/1.1\r\nVersion: \"x-1\", \"c\", \"b\"\r\n\r\n",
        b"404 Not Found",
        b"UnknownVersion \"b\"",
    ),
];

#[test]
fn of_two_rows_the_first_denies_a_get(rt: HostRuntime) {
    assert!(rt; all_denied(&rt, rt.alloc(), &GETS));
}

const PUTS: [Denial; 9] = [
    (
        b"PUT a HTTP/1.1\r\nContent-Encoding: gzip\r\n\r\n",
        b"400 Bad Request",
        b"Encoded",
    ),
    (
        b"PUT a HTTP/1.1\r\nPatches: 1\r\n\r\n",
        b"400 Bad Request",
        b"Path",
    ),
    (
        b"PUT /a HTTP/1.1\r\nPatches: 1\r\n\r\n",
        b"400 Bad Request",
        b"NoVersion",
    ),
    (
        b"PUT /a HTTP/1.1\r\nVersion: \"x-1\"\r\nPatches: 1001\r\n\r\n",
        b"413 Content Too Large",
        b"TooManyPatches",
    ),
    (
        b"PUT /a HTTP/1.1\r\nVersion: \"x-1\"\r\nPatches: 1\r\n\r\n",
        b"400 Bad Request",
        b"Short",
    ),
    (
        b"PUT /a HTTP/1.1\r\nVersion: \"x-1\"\r\nPatches: 0\r\nContent-Length: 1\r\n\r\nx",
        b"400 Bad Request",
        b"Extra",
    ),
    (
        b"PUT /a HTTP/1.1\r\nVersion: \"x-1\"\r\nParents: \"b\"\r\nContent-Length: 1\r\n\r\nx",
        b"409 Conflict",
        b"Clash \"x-1\"",
    ),
    (
        b"PUT /a HTTP/1.1\r\nVersion: \"y-1\"\r\nParents: \"x-1\", \"c\", \"b\"\r\nContent-Range: text [6:6]\r\n\r\n",
        b"409 Conflict",
        b"UnknownParent \"b\"",
    ),
    (
        b"PUT /a HTTP/1.1\r\nVersion: \"y-1\"\r\nParents: \"x-1\"\r\nContent-Range: text [6:6]\r\n\r\n",
        b"422 Unprocessable Content",
        b"OutOfRange patch 0 len 5",
    ),
];

#[test]
fn of_two_rows_the_first_denies_a_put(rt: HostRuntime) {
    assert!(rt; all_denied(&rt, rt.alloc(), &PUTS));
}

/// Puts down a front, a number and a back, for each number from 0.
fn push_many(
    alloc: Global,
    out: &mut Bytes,
    front: &[u8],
    back: &[u8],
    count: usize,
) -> Result<(), Memory> {
    for n in 0..count {
        out.push(front)?;
        push_number(alloc, out, n)?;
        out.push(back)?;
    }
    Ok(())
}

/// PUTs of 1,000 versions without parents, of a patch past the text, and of one version more.
fn asked_of_full(alloc: Global) -> Result<Bytes, Memory> {
    let front = b"PUT /a HTTP/1.1\r\nVersion: \"v-";
    let mut asked = Bytes::of(alloc, b"")?;
    push_many(
        alloc,
        &mut asked,
        front,
        b"\"\r\nContent-Length: 0\r\n\r\n",
        1_000,
    )?;
    asked.push(b"PUT /a HTTP/1.1\r\nVersion: \"w\"\r\nContent-Range: text [1:1]\r\n\r\n")?;
    asked.push(b"PUT /a HTTP/1.1\r\nVersion: \"w\"\r\nContent-Length: 0\r\n\r\n")?;
    Ok(asked)
}

/// Their replies.
fn wanted_of_full(alloc: Global) -> Result<Bytes, Memory> {
    let front = b"HTTP/1.1 200 OK\r\nVersion: \"v-";
    let past = b"OutOfRange patch 0 len 0";
    let mut wanted = Bytes::of(alloc, b"")?;
    push_many(
        alloc,
        &mut wanted,
        front,
        b"\"\r\nContent-Length: 0\r\n\r\n",
        1_000,
    )?;
    push_error(alloc, &mut wanted, b"422 Unprocessable Content", past)?;
    push_error(
        alloc,
        &mut wanted,
        b"507 Insufficient Storage",
        b"Full width 1000",
    )?;
    Ok(wanted)
}

/// Whether a path of 1,000 versions without children takes no further one, and a patch past the text is said before.
fn is_full<R: Wait>(rt: &R, alloc: Global) -> Result<bool, Memory> {
    let asked = asked_of_full(alloc)?;
    let left = serve(rt, alloc, 0, asked, 4_096, 0, &[])?;
    let wanted = wanted_of_full(alloc)?;
    Ok(left.link.written() == wanted.get() && left.entries == 1_000 && left.bell.rings() == 1_000)
}

#[test]
fn a_path_of_1000_versions_is_full(rt: HostRuntime) {
    assert!(rt; is_full(&rt, rt.alloc()) == Ok(true));
}

/// How many marks a GET of a target with a slash and so many bytes takes.
fn marks_of_target<R: Wait>(rt: &R, alloc: Global, bytes: u32) -> Result<usize, Memory> {
    let asked = repeated(alloc, b"GET /", b"a", bytes, b" HTTP/1.1\r\n\r\n")?;
    let left = serve(rt, alloc, 0, asked, 8_192, 0, &[])?;
    Ok(left.note.marks.len())
}

#[test]
fn a_target_has_at_most_1024_bytes(rt: HostRuntime) {
    let most = marks_of_target(&rt, rt.alloc(), 1_023);
    let over = marks_of_target(&rt, rt.alloc(), 1_024);
    assert!(rt; most == Ok(1) && over == Ok(0));
}
