//! The limits of a body and of an update: the last value of each, and the next one.

use crate::limits::{Row, first_other};
use braid_session::SessionEnd;
use std::test::Fail;

const R400: SessionEnd = SessionEnd::Refused { status: 400 };

const R413: SessionEnd = SessionEnd::Refused { status: 413 };

/// The sizes of the pieces in which many bytes come.
const LARGE: [usize; 2] = [4_099, 1_000_000];

/// Bodies at their limits.
const BODIES: &[Row] = &[
    // A chunk line of 256 bytes, and one more.
    Row {
        front: b"GET /a HTTP/1.1\r\nTransfer-Encoding: chunked\r\n\r\n2;",
        filler: b"a",
        times: 252,
        back: b"\r\nhi\r\n0\r\n\r\n",
        end: SessionEnd::Closed,
        requests: 1,
        entries: 0,
        begins: b"HTTP/1.1 404 Not Found\r\n",
        ends: b"\r\n\r\nAbsent\n",
    },
    Row {
        front: b"GET /a HTTP/1.1\r\nTransfer-Encoding: chunked\r\n\r\n2;",
        filler: b"a",
        times: 253,
        back: b"\r\nhi\r\n0\r\n\r\n",
        end: R400,
        requests: 0,
        entries: 0,
        begins: b"HTTP/1.1 400 Bad Request\r\n",
        ends: b"\r\n\r\nBadChunk\n",
    },
    // A trailer of 16,384 bytes, and one more.
    Row {
        front: b"GET /a HTTP/1.1\r\nTransfer-Encoding: chunked\r\n\r\n0\r\n",
        filler: b"a",
        times: 16_380,
        back: b"\r\n\r\n",
        end: SessionEnd::Closed,
        requests: 1,
        entries: 0,
        begins: b"HTTP/1.1 404 Not Found\r\n",
        ends: b"\r\n\r\nAbsent\n",
    },
    Row {
        front: b"GET /a HTTP/1.1\r\nTransfer-Encoding: chunked\r\n\r\n0\r\n",
        filler: b"a",
        times: 16_381,
        back: b"\r\n\r\n",
        end: R400,
        requests: 0,
        entries: 0,
        begins: b"HTTP/1.1 400 Bad Request\r\n",
        ends: b"\r\n\r\nBadChunk\n",
    },
    // A trailer without its end.
    Row {
        front: b"GET /a HTTP/1.1\r\nTransfer-Encoding: chunked\r\n\r\n0\r\n",
        filler: b"A: b\r\n",
        times: 10_000,
        back: b"",
        end: R400,
        requests: 0,
        entries: 0,
        begins: b"HTTP/1.1 400 Bad Request\r\n",
        ends: b"\r\n\r\nBadChunk\n",
    },
    // A body of 2,097,152 bytes, whole and in chunks, and a chunk of one more.
    Row {
        front: b"GET /a HTTP/1.1\r\nContent-Length: 2097152\r\n\r\n",
        filler: b"aaaaaaaaaaaaaaaaaaaaaaaaaaaaaaaaaaaaaaaaaaaaaaaaaaaaaaaaaaaaaaaa",
        times: 32_768,
        back: b"",
        end: SessionEnd::Closed,
        requests: 1,
        entries: 0,
        begins: b"HTTP/1.1 404 Not Found\r\n",
        ends: b"\r\n\r\nAbsent\n",
    },
    Row {
        front: b"GET /a HTTP/1.1\r\nTransfer-Encoding: chunked\r\n\r\n200000\r\n",
        filler: b"aaaaaaaaaaaaaaaaaaaaaaaaaaaaaaaaaaaaaaaaaaaaaaaaaaaaaaaaaaaaaaaa",
        times: 32_768,
        back: b"\r\n0\r\n\r\n",
        end: SessionEnd::Closed,
        requests: 1,
        entries: 0,
        begins: b"HTTP/1.1 404 Not Found\r\n",
        ends: b"\r\n\r\nAbsent\n",
    },
    Row {
        front: b"GET /a HTTP/1.1\r\nTransfer-Encoding: chunked\r\n\r\n200000\r\n",
        filler: b"aaaaaaaaaaaaaaaaaaaaaaaaaaaaaaaaaaaaaaaaaaaaaaaaaaaaaaaaaaaaaaaa",
        times: 32_768,
        back: b"\r\n1\r\n",
        end: R413,
        requests: 0,
        entries: 0,
        begins: b"HTTP/1.1 413 Content Too Large\r\n",
        ends: b"\r\n\r\nTooLong\n",
    },
    // A body in very many chunks.
    Row {
        front: b"GET /a HTTP/1.1\r\nTransfer-Encoding: chunked\r\n\r\n",
        filler: b"1\r\na\r\n",
        times: 20_000,
        back: b"0\r\n\r\n",
        end: SessionEnd::Closed,
        requests: 1,
        entries: 0,
        begins: b"HTTP/1.1 404 Not Found\r\n",
        ends: b"\r\n\r\nAbsent\n",
    },
];

#[test]
fn a_body_has_its_limits(rt: HostRuntime) -> Result<(), Fail> {
    assert_eq!(rt; first_other(&rt, rt.alloc(), BODIES, &LARGE)?, None);
    Ok(())
}

/// Updates at their limits.
const UPDATES: &[Row] = &[
    // A content of 1,048,576 bytes, and one more.
    Row {
        front: b"PUT /a HTTP/1.1\r\nVersion: \"a\"\r\nContent-Length: 1048576\r\n\r\n",
        filler: b"aaaaaaaaaaaaaaaaaaaaaaaaaaaaaaaaaaaaaaaaaaaaaaaaaaaaaaaaaaaaaaaa",
        times: 16_384,
        back: b"",
        end: SessionEnd::Closed,
        requests: 1,
        entries: 1,
        begins: b"HTTP/1.1 200 OK\r\n",
        ends: b"\r\nContent-Length: 0\r\n\r\n",
    },
    Row {
        front: b"PUT /a HTTP/1.1\r\nVersion: \"a\"\r\nContent-Length: 1048577\r\n\r\n",
        filler: b"aaaaaaaaaaaaaaaaaaaaaaaaaaaaaaaaaaaaaaaaaaaaaaaaaaaaaaaaaaaaaaaa",
        times: 16_384,
        back: b"a",
        end: SessionEnd::Closed,
        requests: 1,
        entries: 0,
        begins: b"HTTP/1.1 413 Content Too Large\r\n",
        ends: b"\r\n\r\nTooLong\n",
    },
    // 1,000 patches, and one more.
    Row {
        front: b"PUT /a HTTP/1.1\r\nVersion: \"a\"\r\nPatches: 1000\r\nContent-Length: 48000\r\n\r\n",
        filler: b"Content-Length: 0\r\nContent-Range: text [0:0]\r\n\r\n",
        times: 1_000,
        back: b"",
        end: SessionEnd::Closed,
        requests: 1,
        entries: 1,
        begins: b"HTTP/1.1 200 OK\r\n",
        ends: b"\r\nContent-Length: 0\r\n\r\n",
    },
    Row {
        front: b"PUT /a HTTP/1.1\r\nVersion: \"a\"\r\nPatches: 1001\r\nContent-Length: 48048\r\n\r\n",
        filler: b"Content-Length: 0\r\nContent-Range: text [0:0]\r\n\r\n",
        times: 1_001,
        back: b"",
        end: SessionEnd::Closed,
        requests: 1,
        entries: 0,
        begins: b"HTTP/1.1 413 Content Too Large\r\n",
        ends: b"\r\n\r\nTooManyPatches\n",
    },
    // A patch head of 16,384 bytes, and one more.
    Row {
        front: b"PUT /a HTTP/1.1\r\nVersion: \"a\"\r\nPatches: 1\r\nContent-Length: 16384\r\n\r\nA: ",
        filler: b"a",
        times: 16_331,
        back: b"\r\nContent-Length: 0\r\nContent-Range: text [0:0]\r\n\r\n",
        end: SessionEnd::Closed,
        requests: 1,
        entries: 1,
        begins: b"HTTP/1.1 200 OK\r\n",
        ends: b"\r\nContent-Length: 0\r\n\r\n",
    },
    Row {
        front: b"PUT /a HTTP/1.1\r\nVersion: \"a\"\r\nPatches: 1\r\nContent-Length: 16385\r\n\r\nA: ",
        filler: b"a",
        times: 16_332,
        back: b"\r\nContent-Length: 0\r\nContent-Range: text [0:0]\r\n\r\n",
        end: SessionEnd::Closed,
        requests: 1,
        entries: 0,
        begins: b"HTTP/1.1 400 Bad Request\r\n",
        ends: b"\r\n\r\nHeadTooLong\n",
    },
    // An identifier of 128 bytes, and one more.
    Row {
        front: b"PUT /a HTTP/1.1\r\nVersion: \"",
        filler: b"a",
        times: 128,
        back: b"\"\r\n\r\n",
        end: SessionEnd::Closed,
        requests: 1,
        entries: 1,
        begins: b"HTTP/1.1 200 OK\r\n",
        ends: b"\r\nContent-Length: 0\r\n\r\n",
    },
    Row {
        front: b"PUT /a HTTP/1.1\r\nVersion: \"",
        filler: b"a",
        times: 129,
        back: b"\"\r\n\r\n",
        end: SessionEnd::Closed,
        requests: 1,
        entries: 0,
        begins: b"HTTP/1.1 400 Bad Request\r\n",
        ends: b"\r\n\r\nBadId\n",
    },
    // A parent of 128 bytes, and one more.
    Row {
        front: b"PUT /a HTTP/1.1\r\nVersion: \"a\"\r\nParents: \"",
        filler: b"b",
        times: 128,
        back: b"\"\r\n\r\n",
        end: SessionEnd::Closed,
        requests: 1,
        entries: 0,
        begins: b"HTTP/1.1 409 Conflict\r\n",
        ends: b"bbb\"\n",
    },
    Row {
        front: b"PUT /a HTTP/1.1\r\nVersion: \"a\"\r\nParents: \"",
        filler: b"b",
        times: 129,
        back: b"\"\r\n\r\n",
        end: SessionEnd::Closed,
        requests: 1,
        entries: 0,
        begins: b"HTTP/1.1 400 Bad Request\r\n",
        ends: b"\r\n\r\nBadId\n",
    },
    // Very many members of a list, of which one identifier is left.
    Row {
        front: b"GET /a HTTP/1.1\r\nVersion: \"a\"",
        filler: b",\"a\"",
        times: 4_000,
        back: b"\r\n\r\n",
        end: SessionEnd::Closed,
        requests: 1,
        entries: 0,
        begins: b"HTTP/1.1 404 Not Found\r\n",
        ends: b"\r\n\r\nAbsent\n",
    },
];

#[test]
fn an_update_has_its_limits(rt: HostRuntime) -> Result<(), Fail> {
    assert_eq!(rt; first_other(&rt, rt.alloc(), UPDATES, &LARGE)?, None);
    Ok(())
}
