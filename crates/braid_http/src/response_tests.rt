use super::tests::filled;
use super::*;
use braid_ids::{Bytes, Memory};
use braid_io::{MemLink, Read, Source};
use std::alloc::Global;

/// The name of an answer that is no head.
fn name_of(answer: &Replied) -> &'static [u8] {
    match answer {
        Replied::Head(_) => b"Head",
        Replied::Refused(refusal) => refusal.name(),
        Replied::Torn => b"Torn",
        Replied::ReadFault => b"ReadFault",
        Replied::Memory => b"Memory",
    }
}

/// The name of a state.
fn name_of_state(state: BodyState) -> &'static [u8] {
    match state {
        BodyState::Open => b" Open\n",
        BodyState::Done => b" Done\n",
        BodyState::Torn => b" Torn\n",
        BodyState::BadChunk => b" BadChunk\n",
        BodyState::SourceFailed => b" SourceFailed\n",
    }
}

/// Puts the data of a body down, and how it ended.
fn put_body(
    text: &mut Bytes,
    wire: &mut Wire,
    link: &mut MemLink,
    kind: BodyKind,
) -> Result<(), Memory> {
    let mut body = Body::new(kind);
    let mut buf = [0; 5];
    for _ in 0..40 {
        match body.read(wire, link, &mut buf) {
            Read::Got(n) => text.push(&buf[..n])?,
            Read::End | Read::Failed => break,
        }
    }
    text.push(name_of_state(body.state()))
}

/// Puts down what a wire says of what comes next, and whether it is a reply: its status, its data and how it ended.
fn put_next(
    alloc: Global,
    text: &mut Bytes,
    wire: &mut Wire,
    link: &mut MemLink,
) -> Result<bool, Memory> {
    let answer = wire.reply(alloc, link);
    if let Replied::Head(head) = &answer {
        text.push(head.status.as_str().as_bytes())?;
        text.push(b" ")?;
        put_body(text, wire, link, head.body)?;
        return Ok(true);
    }
    text.push(name_of(&answer))?;
    Ok(false)
}

/// Puts down what a wire says of the replies that a link brings, and of what follows.
fn put_all(alloc: Global, text: &mut Bytes, link: &mut MemLink) -> Result<(), Memory> {
    let mut wire = Wire::new(alloc);
    for _ in 0..3 {
        if !put_next(alloc, text, &mut wire, link)? {
            break;
        }
    }
    Ok(())
}

/// What a wire says of replies that come in such pieces: the status, the data and the end of each.
fn told(alloc: Global, left: Bytes, piece: usize, fails: &[u64]) -> Result<Bytes, Memory> {
    let fails = Vec::from_slice(alloc, fails)?;
    let mut link = MemLink::new(alloc, left, piece.max(1), 0, fails)?;
    let mut text = Bytes::of(alloc, b"")?;
    put_all(alloc, &mut text, &mut link)?;
    Ok(text)
}

/// Whether a wire says this of replies that come in such pieces.
fn says(alloc: Global, left: Bytes, piece: usize, fails: &[u64], expected: &[u8]) -> bool {
    match told(alloc, left, piece, fails) {
        Ok(text) => text.get() == expected,
        Err(_) => false,
    }
}

/// A front, a middle, how often it stands, a back, and what a wire says of them.
type Row = (
    &'static [u8],
    &'static [u8],
    usize,
    &'static [u8],
    &'static [u8],
);

/// The head of a reply whose body comes in chunks.
const CHUNKED: &[u8] = b"HTTP/1.1 209 Subscription\r\nTransfer-Encoding: Chunked\r\n\r\n";

const REPLIES: [Row; 31] = [
    (b"", b"", 0, b"", b"Torn"),
    (b"HTTP/1.1 200 OK\r\nContent-Le", b"", 0, b"", b"Torn"),
    (
        b"HTTP/1.1 200 OK\r\nVersion: \"a-1\"\r\nContent-Length: 0\r\n\r\n",
        b"",
        0,
        b"HTTP/1.1 409 Conflict\r\nContent-Length: 12\r\n\r\nClash \"a-1\"\n",
        b"200  Done\n409 Clash \"a-1\"\n Done\nTorn",
    ),
    (
        b"\r\n\nHTTP/1.0 200\nContent-Length: 002\n\nhi",
        b"",
        0,
        b"HTTP/1.1 204 No Content\r\nContent-Length: 7\r\n\r\n",
        b"200 hi Done\n204  Done\nTorn",
    ),
    (
        b"HTTP/1.1 304 Not Modified\r\n\r\n",
        b"",
        0,
        b"HTTP/1.1 200 OK\r\n\r\nhello there",
        b"304  Done\n200 hello there Done\nTorn",
    ),
    (
        b"HTTP/1.1 200 OK\r\nContent-Length: 3\r\n\r\nhi",
        b"",
        0,
        b"",
        b"200 hi Torn\nTorn",
    ),
    (b"HTTP/1.1 099 Low\r\n\r\n", b"", 0, b"", b"BadHead"),
    (b"HTTP/1.1 20 OK\r\n\r\n", b"", 0, b"", b"BadHead"),
    (b"HTTP/2 200 OK\r\n\r\n", b"", 0, b"", b"BadHead"),
    (
        b"HTTP/1.1 200 OK\r\nA: ",
        b"a",
        205_000,
        b"\r\nContent-Length: 0\r\n\r\n",
        b"200  Done\nTorn",
    ),
    (
        b"HTTP/1.1 200 OK\r\n",
        b"A: b\r\n",
        63,
        b"Content-Length: 0\r\n\r\n",
        b"200  Done\nTorn",
    ),
    (
        b"HTTP/1.1 200 OK\r\n",
        b"A: b\r\n",
        65,
        b"\r\n",
        b"ManyFields",
    ),
    (
        b"HTTP/1.1 200 OK\r\nContent-Length: 2\r\nTransfer-Encoding: chunked\r\n\r\n",
        b"",
        0,
        b"",
        b"BothLengths",
    ),
    (
        b"HTTP/1.1 200 OK\r\n",
        b"Content-Length: 2\r\n",
        2,
        b"\r\nhi",
        b"BadLength",
    ),
    (
        b"HTTP/1.1 200 OK\r\nTransfer-Encoding: gzip\r\n\r\n",
        b"",
        0,
        b"",
        b"BadLength",
    ),
    (
        CHUNKED,
        b"",
        0,
        b"2\r\nhi\r\nB ;x=y\r\nhello world\r\n0\r\nT: 1\nU: 2\r\n\r\nHTTP/1.1 204\n\n",
        b"209 hihello world Done\n204  Done\nTorn",
    ),
    (CHUNKED, b"", 0, b"0\r\n\n", b"209  Done\nTorn"),
    (CHUNKED, b"", 0, b"", b"209  Torn\nTorn"),
    (CHUNKED, b"", 0, b"2", b"209  Torn\nTorn"),
    (CHUNKED, b"", 0, b"2\r", b"209  Torn\nTorn"),
    (CHUNKED, b"", 0, b"2\r\n", b"209  Torn\nTorn"),
    (CHUNKED, b"", 0, b"2\r\nh", b"209 h Torn\nTorn"),
    (CHUNKED, b"", 0, b"2\r\nhi", b"209 hi Torn\nTorn"),
    (CHUNKED, b"", 0, b"2\r\nhi\r", b"209 hi Torn\nTorn"),
    (CHUNKED, b"", 0, b"2\r\nhi\r\n", b"209 hi Torn\nTorn"),
    (CHUNKED, b"", 0, b"2\r\nhi\r\n0\r\n", b"209 hi Torn\nTorn"),
    (CHUNKED, b"", 0, b"2\r\nhi\r\n0\r\n\r", b"209 hi Torn\nTorn"),
    (CHUNKED, b"", 0, b"zz\r\n", b"209  BadChunk\nTorn"),
    (CHUNKED, b"", 0, b"2\r\nhix", b"209 hi BadChunk\nTorn"),
    (CHUNKED, b"", 0, b"2\r\nhi\rx", b"209 hi BadChunk\nTorn"),
    (
        b"HTTP/1.1 209 S\r\nTransfer-Encoding: chunked\r\n\r\n1;",
        b"x",
        254,
        b"",
        b"209  BadChunk\nTorn",
    ),
];

/// The head of a reply in chunks, up to the value of a trailer.
const TRAILER: &[u8] = b"HTTP/1.1 209 S\r\nTransfer-Encoding: chunked\r\n\r\n0\r\nT: ";

const TRAILERS: [Row; 2] = [
    (TRAILER, b"x", 16_377, b"\r\n\r\n", b"209  Done\nTorn"),
    (TRAILER, b"x", 16_378, b"\r\n\r", b"209  BadChunk\nTorn"),
];

/// The front of a head, up to the value of its last field.
const FRONT: &[u8] = b"HTTP/1.1 200 OK\r\nContent-Length: 0\r\nA: ";

const LONG_HEADS: [Row; 2] = [
    (FRONT, b"a", 524_245, b"\r\n\r\n", b"200  Done\nTorn"),
    (FRONT, b"a", 524_246, b"\r\n\r\n", b"LongHead"),
];

/// Whether that is said of a row in such pieces.
fn row_comes(alloc: Global, row: &Row, piece: usize) -> bool {
    match filled(alloc, row.0, row.1, row.2, row.3) {
        Ok(bytes) => says(alloc, bytes, piece, &[], row.4),
        Err(_) => false,
    }
}

/// Whether that is said of a row in pieces of three sizes.
fn row_comes_always(alloc: Global, row: &Row) -> bool {
    row_comes(alloc, row, 1) && row_comes(alloc, row, 7) && row_comes(alloc, row, 1_000_000)
}

/// Whether that is said of all rows, in pieces of three sizes.
fn rows_come(alloc: Global, rows: &[Row]) -> bool {
    for row in rows {
        if !row_comes_always(alloc, row) {
            return false;
        }
    }
    true
}

#[test]
fn replies_come_out_of_any_pieces(rt: HostRuntime) {
    assert!(rt; rows_come(rt.alloc(), &REPLIES));
}

#[test]
fn trailers_have_a_limit(rt: HostRuntime) {
    assert!(rt; rows_come(rt.alloc(), &TRAILERS));
}

#[test]
fn heads_have_a_limit(rt: HostRuntime) {
    let [whole, long] = &LONG_HEADS;
    assert!(rt; row_comes(rt.alloc(), whole, 1_000_000) && row_comes(rt.alloc(), long, 1_000_000));
}

/// Whether this is said of a reply whose read of that number fails.
fn fails_at(alloc: Global, call: u64, expected: &[u8]) -> bool {
    match Bytes::of(
        alloc,
        b"HTTP/1.1 200 OK\r\nContent-Length: 9\r\n\r\nthe words",
    ) {
        Ok(bytes) => says(alloc, bytes, 7, &[call], expected),
        Err(_) => false,
    }
}

#[test]
fn a_failed_read_is_told(rt: HostRuntime) {
    let head = fails_at(rt.alloc(), 1, b"ReadFault");
    let body = fails_at(rt.alloc(), 6, b"200 the  SourceFailed\nTorn");
    assert!(rt; head && body);
}

/// Puts the data of a body down, and how it ended, as its reader gives them.
fn put_read(
    text: &mut Bytes,
    wire: &mut Wire,
    link: &mut MemLink,
    kind: BodyKind,
) -> Result<(), Memory> {
    let mut reader = wire.body(link, kind);
    let mut buf = [0; 5];
    for _ in 0..40 {
        match reader.read(&mut buf) {
            Read::Got(n) => text.push(&buf[..n])?,
            Read::End | Read::Failed => break,
        }
    }
    text.push(name_of_state(reader.state()))
}

/// Puts down what is said of two replies, whose bodies are read through a reader of their own.
fn put_by_readers(alloc: Global, text: &mut Bytes, link: &mut MemLink) -> Result<(), Memory> {
    let mut wire = Wire::new(alloc);
    for _ in 0..2 {
        match wire.reply(alloc, link) {
            Replied::Head(head) => put_read(text, &mut wire, link, head.body)?,
            _ => break,
        }
    }
    Ok(())
}

/// What is said of two replies that come in such pieces, whose bodies are read so.
fn told_by_readers(alloc: Global, replies: &[u8], piece: usize) -> Result<Bytes, Memory> {
    let left = Bytes::of(alloc, replies)?;
    let mut link = MemLink::new(alloc, left, piece.max(1), 0, Vec::new(alloc))?;
    let mut text = Bytes::of(alloc, b"")?;
    put_by_readers(alloc, &mut text, &mut link)?;
    Ok(text)
}

const TWO_REPLIES: &[u8] =
    b"HTTP/1.1 209 S\r\nTransfer-Encoding: chunked\r\n\r\n2\r\nhi\r\nb\r\nhello world\r\n0\r\n\r\nHTTP/1.1 200 OK\r\nContent-Length: 4\r\n\r\nnext";

/// Whether both bodies come whole, in such pieces.
fn both_come(alloc: Global, piece: usize) -> bool {
    match told_by_readers(alloc, TWO_REPLIES, piece) {
        Ok(text) => text.get() == b"hihello world Done\nnext Done\n".as_slice(),
        Err(_) => false,
    }
}

#[test]
fn a_reader_leaves_what_stands_behind_its_body(rt: HostRuntime) {
    let alloc = rt.alloc();
    assert!(rt; both_come(alloc, 1) && both_come(alloc, 7) && both_come(alloc, 1_000_000));
}
