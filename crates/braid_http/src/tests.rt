use super::*;
use braid_ids::{Bytes, Memory};
use braid_io::{MemLink, WriteEnd};
use std::alloc::Global;

/// The bytes of a front, of a middle so many times, and of a back.
pub(super) fn filled(
    alloc: Global,
    front: &[u8],
    middle: &[u8],
    times: usize,
    back: &[u8],
) -> Result<Bytes, Memory> {
    let mut bytes = Bytes::of(alloc, front)?;
    for _ in 0..times {
        bytes.push(middle)?;
    }
    bytes.push(back)?;
    Ok(bytes)
}

/// Puts a request down as a line: its method, its target and its body, and `!` where it asks to close.
fn put_down(text: &mut Bytes, request: &Request) -> Result<(), Memory> {
    text.push(request.method.as_str().as_bytes())?;
    text.push(request.target.get())?;
    text.push(b" ")?;
    text.push(request.body.get())?;
    text.push(if request.close { b"!\n" } else { b"\n" })
}

/// The name of an answer that is no request.
fn name_of(answer: &Asked) -> &'static [u8] {
    match answer {
        Asked::Request(_) => b"Request",
        Asked::End => b"End",
        Asked::Refused(refusal) => refusal.name(),
        Asked::Torn => b"Torn",
        Asked::ReadFault => b"ReadFault",
        Asked::Memory => b"Memory",
    }
}

/// Puts down what a wire says of what comes next, and whether it is a request.
fn put_next(
    alloc: Global,
    text: &mut Bytes,
    wire: &mut Wire,
    link: &mut MemLink,
) -> Result<bool, Memory> {
    let answer = wire.ask(alloc, link);
    if let Asked::Request(request) = &answer {
        put_down(text, request)?;
        return Ok(true);
    }
    text.push(name_of(&answer))?;
    Ok(false)
}

/// Puts down what a wire says of what a link brings: a line for each request, and the name of what follows.
fn put_all(alloc: Global, text: &mut Bytes, link: &mut MemLink) -> Result<(), Memory> {
    let mut wire = Wire::new(alloc);
    for _ in 0..4 {
        if !put_next(alloc, text, &mut wire, link)? {
            break;
        }
    }
    Ok(())
}

/// What a wire says of bytes that come in such pieces, with these reads failing.
fn told(alloc: Global, left: Bytes, piece: usize, fails: &[u64]) -> Result<Bytes, Memory> {
    let fails = Vec::from_slice(alloc, fails)?;
    let mut link = MemLink::new(alloc, left, piece.max(1), 0, fails)?;
    let mut text = Bytes::of(alloc, b"")?;
    put_all(alloc, &mut text, &mut link)?;
    Ok(text)
}

/// A front, a middle, how often it stands, a back, and what a wire says of them.
type Row = (
    &'static [u8],
    &'static [u8],
    usize,
    &'static [u8],
    &'static [u8],
);

/// The head of a PUT whose body comes in chunks.
const PUT: &[u8] = b"PUT /a HTTP/1.1\r\nTransfer-Encoding: chunked\r\n\r\n";

const REQUESTS: [Row; 31] = [
    (b"", b"", 0, b"", b"End"),
    (b"\r\n", b"", 0, b"", b"Torn"),
    (b"PUT /a HTTP/1.1", b"", 0, b"", b"Torn"),
    (
        b"GET /doc HTTP/1.1\r\nHost: 127.0.0.1:9000\r\nUser-Agent: curl/8.5.0\r\nAccept: */*\r\n\r\n",
        b"",
        0,
        b"",
        b"GET/doc \nEnd",
    ),
    (
        b"PUT /doc HTTP/1.1\r\nHost: 127.0.0.1:9000\r\nUser-Agent: curl/8.5.0\r\nAccept: */*\r\nVersion: \"a-1\"\r\n",
        b"",
        0,
        b"Content-Length: 2\r\nContent-Type: application/x-www-form-urlencoded\r\n\r\nhi",
        b"PUT/doc hi\nEnd",
    ),
    (
        PUT,
        b"",
        0,
        b"2\r\nhi\r\nA;x=y\r\n0123456789\r\n0\r\nT: 1\r\n\r\nGET / HTTP/1.1\n\n",
        b"PUT/a hi0123456789\nGET/ \nEnd",
    ),
    (
        b"\r\n\nGET / HTTP/1.1\r\nConnection: keep-alive,\tClose \r\n\r\n",
        b"",
        0,
        b"GET",
        b"GET/ !\nTorn",
    ),
    (
        b"GET / HTTP/1.1\r\nConnection: closed, x close\r\n\r\n",
        b"",
        0,
        b"",
        b"GET/ \nEnd",
    ),
    (b"GET / HTTP/1.0\r\n\r\n", b"", 0, b"", b"Version"),
    (
        b"GET / HTTP/1.1\r\nA: \x00\r\n\r\n",
        b"",
        0,
        b"",
        b"BadHead",
    ),
    (
        b"GET / HTTP/1.1\r\nA: ",
        b"a",
        16_361,
        b"\r\n\r\n",
        b"GET/ \nEnd",
    ),
    (
        b"GET / HTTP/1.1\r\nA: ",
        b"a",
        16_362,
        b"\r\n\r\n",
        b"LongHead",
    ),
    (
        b"GET / HTTP/1.1\r\n",
        b"A: b\r\n",
        64,
        b"\r\n",
        b"GET/ \nEnd",
    ),
    (
        b"GET / HTTP/1.1\r\n",
        b"A: b\r\n",
        65,
        b"\r\n",
        b"ManyFields",
    ),
    (
        b"PUT /a HTTP/1.1\r\nContent-Length: ",
        b"0",
        14,
        b"2\r\n\r\nhi",
        b"PUT/a hi\nEnd",
    ),
    (
        b"PUT /a HTTP/1.1\r\nContent-Length: ",
        b"0",
        15,
        b"2\r\n\r\nhi",
        b"BadLength",
    ),
    (
        b"PUT /a HTTP/1.1\r\n",
        b"Content-Length: 4\r\n",
        2,
        b"\r\nhi",
        b"BadLength",
    ),
    (
        b"PUT /a HTTP/1.1\r\nContent-Length: +2\r\n\r\nhi",
        b"",
        0,
        b"",
        b"BadLength",
    ),
    (
        b"PUT /a HTTP/1.1\r\nContent-Length: 2097153\r\n\r\n",
        b"",
        0,
        b"",
        b"TooLong",
    ),
    (
        b"PUT /a HTTP/1.1\r\nContent-Length: 2\r\nTransfer-Encoding: chunked\r\n\r\n",
        b"",
        0,
        b"",
        b"BothLengths",
    ),
    (
        b"PUT /a HTTP/1.1\r\nTransfer-Encoding: gzip, chunked\r\n\r\n",
        b"",
        0,
        b"",
        b"BadLength",
    ),
    (PUT, b"", 0, b"200001\r\n", b"TooLong"),
    (PUT, b"", 0, b"200000\r\nhi", b"Torn"),
    (PUT, b"", 0, b"ffffffffffffffffff\r\n", b"BadChunk"),
    (PUT, b"", 0, b"1\n1\r\n0\r\n\r\n", b"BadChunk"),
    (PUT, b"", 0, b"2\r\nhixx", b"BadChunk"),
    (PUT, b"", 0, b"2\r\nhi\rx", b"BadChunk"),
    (
        b"PUT /a HTTP/1.1\r\nTransfer-Encoding: chunked\r\n\r\n1;",
        b"x",
        252,
        b"\r\n!\r\n0\r\n\r\n",
        b"PUT/a !\nEnd",
    ),
    (
        b"PUT /a HTTP/1.1\r\nTransfer-Encoding: chunked\r\n\r\n1;",
        b"x",
        253,
        b"\r\n!\r\n0\r\n\r\n",
        b"BadChunk",
    ),
    (
        b"PUT /a HTTP/1.1\r\nTransfer-Encoding: chunked\r\n\r\n0\r\nT: ",
        b"x",
        16_377,
        b"\r\n\r\n",
        b"PUT/a \nEnd",
    ),
    (
        b"PUT /a HTTP/1.1\r\nTransfer-Encoding: chunked\r\n\r\n0\r\nT: ",
        b"x",
        16_378,
        b"\r\n\r\n",
        b"BadChunk",
    ),
];

/// Whether a wire says this of bytes that come in such pieces.
pub(super) fn says(
    alloc: Global,
    bytes: Bytes,
    piece: usize,
    fails: &[u64],
    expected: &[u8],
) -> bool {
    match told(alloc, bytes, piece, fails) {
        Ok(text) => text.get() == expected,
        Err(_) => false,
    }
}

/// Whether that is said of a row in such pieces.
fn row_comes(alloc: Global, row: &Row, piece: usize) -> bool {
    match filled(alloc, row.0, row.1, row.2, row.3) {
        Ok(bytes) => says(alloc, bytes, piece, &[], row.4),
        Err(_) => false,
    }
}

/// Whether that is said of all rows, in pieces of three sizes.
fn rows_come(alloc: Global, rows: &[Row]) -> bool {
    for row in rows {
        if !(row_comes(alloc, row, 1)
            && row_comes(alloc, row, 7)
            && row_comes(alloc, row, 100_000))
        {
            return false;
        }
    }
    true
}

#[test]
fn requests_come_out_of_any_pieces(rt: HostRuntime) {
    assert!(rt; rows_come(rt.alloc(), &REQUESTS));
}

/// Numbers of a read, and what is said of two requests where it fails.
const FAILED_READS: [(u64, &[u8]); 5] = [
    (0, b"ReadFault"),
    (2, b"ReadFault"),
    (3, b"GET/a \nReadFault"),
    (5, b"GET/a \nReadFault"),
    (6, b"GET/a \nGET/b \nReadFault"),
];

/// Whether that is said where this read fails.
fn ends_at(alloc: Global, call: u64, expected: &[u8]) -> bool {
    match Bytes::of(alloc, b"GET /a HTTP/1.1\r\n\r\nGET /b HTTP/1.1\r\n\r\n") {
        Ok(bytes) => says(alloc, bytes, 7, &[call], expected),
        Err(_) => false,
    }
}

/// Whether that is said of each failed read.
fn failed_reads_end(alloc: Global, rows: &[(u64, &[u8])]) -> bool {
    for (call, expected) in rows {
        if !ends_at(alloc, *call, expected) {
            return false;
        }
    }
    true
}

#[test]
fn a_failed_read_ends_the_requests(rt: HostRuntime) {
    assert!(rt; failed_reads_end(rt.alloc(), &FAILED_READS));
}

/// Whether a link with room for five bytes takes three, and of three more the first two.
fn writes_all(alloc: Global) -> Result<bool, Memory> {
    let bytes = Bytes::of(alloc, b"")?;
    let mut link = MemLink::new(alloc, bytes, 1, 5, Vec::new(alloc))?;
    let wire = Wire::new(alloc);
    let first = wire.write(&mut link, b"abc");
    let second = wire.write(&mut link, b"def");
    Ok(
        first == Ok(())
            && second == Err(WriteEnd::WriteFault)
            && link.written() == b"abcde".as_slice(),
    )
}

#[test]
fn a_wire_writes_all(rt: HostRuntime) {
    assert!(rt; writes_all(rt.alloc()) == Ok(true));
}
