//! Requests that hide others: bodies that look like requests, behind heads that are served, denied or refused.

use crate::replies::{ABSENT, BAD_CHUNK, BAD_HEAD, BOTH_LENGTHS, METHOD, NO_VERSION, PATH};
use crate::sessions::{PIECES, Session, served};
use braid_ids::{Bytes, Memory};
use braid_session::SessionEnd;
use std::alloc::Global;
use std::sync::Wait;
use std::test::Fail;

const R400: SessionEnd = SessionEnd::Refused { status: 400 };

const NOTHING: &[u8] = b"";

/// The reply to a method that is not served, of a request that asks to close.
const METHOD_CLOSING: &[u8] =
    b"HTTP/1.1 405 Method Not Allowed\r\nAllow: GET, PUT\r\nContent-Type: text/plain; charset=utf-8\r\nContent-Length: 7\r\nConnection: close\r\n\r\nMethod\n";

/// What a session reads, the two replies that it writes, its end, and how many requests it answers. It adds nothing.
#[derive(Clone, Copy)]
struct Row {
    asked: &'static [u8],
    written: [&'static [u8]; 2],
    end: SessionEnd,
    requests: u64,
}

/// Whether bytes are the first part and the second behind it.
fn are_both(bytes: &[u8], first: &[u8], second: &[u8]) -> bool {
    bytes.strip_prefix(first) == Some(second)
}

/// Whether a session left what one of a row is to leave.
fn is_so(session: &Session, row: &Row) -> bool {
    let [first, second] = row.written;
    are_both(session.link.written(), first, second)
        && session.left.note.end == row.end
        && session.left.note.requests == row.requests
        && session.left.has_entries(0)
}

/// Whether a session of a row leaves what it is to leave, in pieces of this size.
fn row_holds<R: Wait>(rt: &R, alloc: Global, row: &Row, piece: usize) -> Result<bool, Memory> {
    let asked = Bytes::of(alloc, row.asked)?;
    let session = served(rt, alloc, asked, piece, 10_000, &[])?;
    Ok(is_so(&session, row))
}

/// Whether sessions of a row in pieces of each size leave what they are to leave.
fn holds_in_pieces<R: Wait>(rt: &R, alloc: Global, row: &Row) -> Result<bool, Memory> {
    for piece in PIECES {
        if !row_holds(rt, alloc, row, piece)? {
            return Ok(false);
        }
    }
    Ok(true)
}

/// The first row that does not hold.
fn first_other<R: Wait>(rt: &R, alloc: Global, rows: &[Row]) -> Result<Option<usize>, Memory> {
    for (n, row) in rows.iter().enumerate() {
        if !holds_in_pieces(rt, alloc, row)? {
            return Ok(Some(n));
        }
    }
    Ok(None)
}

/// Requests that hide others.
const ROWS: &[Row] = &[
    // A body that looks like a request is a body.
    Row {
        asked: b"GET /a HTTP/1.1\r\nContent-Length: 54\r\n\r\nPUT /b HTTP/1.1\r\nVersion: \"b-1\"\r\nContent-Length: 0\r\n\r\nGET /b HTTP/1.1\r\n\r\n",
        written: [ABSENT, ABSENT],
        end: SessionEnd::Closed,
        requests: 2,
    },
    // So is one in chunks.
    Row {
        asked: b"GET /a HTTP/1.1\r\nTransfer-Encoding: Chunked\r\n\r\n36\r\nPUT /b HTTP/1.1\r\nVersion: \"b-1\"\r\nContent-Length: 0\r\n\r\n\r\n0\r\n\r\nGET /b HTTP/1.1\r\n\r\n",
        written: [ABSENT, ABSENT],
        end: SessionEnd::Closed,
        requests: 2,
    },
    // The body of a request that is denied is passed over.
    Row {
        asked: b"PUT /a HTTP/1.1\r\nContent-Length: 54\r\n\r\nPUT /b HTTP/1.1\r\nVersion: \"b-1\"\r\nContent-Length: 0\r\n\r\nGET /b HTTP/1.1\r\n\r\n",
        written: [NO_VERSION, ABSENT],
        end: SessionEnd::Closed,
        requests: 2,
    },
    // So is that of another method.
    Row {
        asked: b"POST /a HTTP/1.1\r\nContent-Length: 54\r\n\r\nPUT /b HTTP/1.1\r\nVersion: \"b-1\"\r\nContent-Length: 0\r\n\r\nGET /b HTTP/1.1\r\n\r\n",
        written: [METHOD, ABSENT],
        end: SessionEnd::Closed,
        requests: 2,
    },
    // Fields of a trailer say nothing.
    Row {
        asked: b"PUT /a HTTP/1.1\r\nTransfer-Encoding: chunked\r\n\r\n0\r\nVersion: \"a-1\"\r\nContent-Length: 54\r\nConnection: close\r\n\r\nGET /b HTTP/1.1\r\n\r\n",
        written: [NO_VERSION, ABSENT],
        end: SessionEnd::Closed,
        requests: 2,
    },
    // What an extension of a chunk says is passed over.
    Row {
        asked: b"GET /a HTTP/1.1\r\nTransfer-Encoding: chunked\r\n\r\n2;a=\"0\r\nhi\r\n00;b\r\n\r\nGET /b HTTP/1.1\r\n\r\n",
        written: [ABSENT, ABSENT],
        end: SessionEnd::Closed,
        requests: 2,
    },
    // Behind a head with both lengths nothing is read.
    Row {
        asked: b"GET /a HTTP/1.1\r\n\r\nGET /a HTTP/1.1\r\nContent-Length: 5\r\nTransfer-Encoding: chunked\r\n\r\n0\r\n\r\nPUT /b HTTP/1.1\r\nVersion: \"b-1\"\r\nContent-Length: 0\r\n\r\n",
        written: [ABSENT, BOTH_LENGTHS],
        end: R400,
        requests: 1,
    },
    // Nor behind a head that is none.
    Row {
        asked: b"GET /a HTTP/1.1\r\n\r\nGET /a HTTP/1.1\r\nContent-Length : 5\r\n\r\nPUT /b HTTP/1.1\r\nVersion: \"b-1\"\r\nContent-Length: 0\r\n\r\n",
        written: [ABSENT, BAD_HEAD],
        end: R400,
        requests: 1,
    },
    // Nor behind a chunk that is none.
    Row {
        asked: b"GET /a HTTP/1.1\r\n\r\nGET /a HTTP/1.1\r\nTransfer-Encoding: chunked\r\n\r\n2\r\nhi!\r\n0\r\n\r\nPUT /b HTTP/1.1\r\nVersion: \"b-1\"\r\nContent-Length: 0\r\n\r\n",
        written: [ABSENT, BAD_CHUNK],
        end: R400,
        requests: 1,
    },
    // Nor behind a request that asks to close.
    Row {
        asked: b"POST /a HTTP/1.1\r\nConnection: keep-alive , CLOSE\t\r\n\r\nPUT /b HTTP/1.1\r\nVersion: \"b-1\"\r\nContent-Length: 0\r\n\r\n",
        written: [METHOD_CLOSING, NOTHING],
        end: SessionEnd::Closed,
        requests: 1,
    },
    // A body that announces more takes the next request in.
    Row {
        asked: b"GET /a HTTP/1.1\r\n\r\nPUT /a HTTP/1.1\r\nVersion: \"a-1\"\r\nContent-Length: 99\r\n\r\nPUT /b HTTP/1.1\r\nVersion: \"b-1\"\r\nContent-Length: 0\r\n\r\n",
        written: [ABSENT, NOTHING],
        end: SessionEnd::Torn,
        requests: 1,
    },
    // Lines may end with LF alone, and names are read without case.
    Row {
        asked: b"get /a HTTP/1.1\n\nPOST /a HTTP/1.1\ncontent-LENGTH:\t 2 \t\n\nhi",
        written: [METHOD, METHOD],
        end: SessionEnd::Closed,
        requests: 2,
    },
    // Other targets than paths are none.
    Row {
        asked: b"GET http://h/a HTTP/1.1\r\n\r\nGET * HTTP/1.1\r\n\r\n",
        written: [PATH, PATH],
        end: SessionEnd::Closed,
        requests: 2,
    },
    // A path is taken as it stands.
    Row {
        asked: b"PUT /a?b=c HTTP/1.1\r\n\r\nGET /%61 HTTP/1.1\r\n\r\n",
        written: [NO_VERSION, ABSENT],
        end: SessionEnd::Closed,
        requests: 2,
    },
];

#[test]
fn a_body_is_never_read_as_a_request(rt: HostRuntime) -> Result<(), Fail> {
    assert_eq!(rt; first_other(&rt, rt.alloc(), ROWS)?, None);
    Ok(())
}
