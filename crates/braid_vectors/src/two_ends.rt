//! Two ends of one text: what the client's commands write, and what a server replies to just that.
//!
//! The server holds `x-1`, whose body is `ab`, and `y-1` behind it, which inserts `c` at the end. The client's agent
//! `a` has `a-1`, whose body is `Z`, and `a-2` behind it, which inserts `!` at the end. A first sync is cut inside
//! `y-1`, the next one goes on, and then both ends read the same.

use crate::commands::{Ran, keeper_of, run};
use crate::protocol::{Example, first_other};
use crate::scripts::{check, dialer};
use braid_io::{MemDialer, MemKeeper, Status};
use std::alloc::Global;
use std::test::Fail;

const X: Example = Example {
    sent: b"PUT /doc HTTP/1.1\r\nVersion: \"x-1\"\r\nContent-Length: 2\r\n\r\nab",
    received: b"HTTP/1.1 200 OK\r\nVersion: \"x-1\"\r\nContent-Length: 0\r\n\r\n",
};

const Y: Example = Example {
    sent: b"PUT /doc HTTP/1.1\r\nVersion: \"y-1\"\r\nParents: \"x-1\"\r\nContent-Range: text [2:2]\r\nContent-Length: 1\r\n\r\nc",
    received: b"HTTP/1.1 200 OK\r\nVersion: \"y-1\"\r\nContent-Length: 0\r\n\r\n",
};

/// The subscription of the first sync.
const FIRST: Example = Example {
    sent: b"GET /doc HTTP/1.1\r\nHost: h:1\r\nSubscribe: true\r\nParents:\r\nMerge-Type: ti-text\r\n\r\n",
    received: b"HTTP/1.1 209 Subscription\r\nSubscribe: true\r\nCurrent-Version: \"y-1\"\r\nMerge-Type: ti-text\r\nContent-Type: text/plain; charset=utf-8\r\nTransfer-Encoding: chunked\r\nConnection: close\r\n\r\n35\r\nVersion: \"x-1\"\r\nParents:\r\nContent-Length: 2\r\n\r\nab\r\n\r\n\r\n63\r\nVersion: \"y-1\"\r\nParents: \"x-1\"\r\nPatches: 1\r\n\r\nContent-Length: 1\r\nContent-Range: text [2:2]\r\n\r\nc\r\n\r\n\r\n2\r\n\r\n\r\n0\r\n\r\n",
};

/// That of the next one.
const NEXT: Example = Example {
    sent: b"GET /doc HTTP/1.1\r\nHost: h:1\r\nSubscribe: true\r\nParents: \"x-1\"\r\nMerge-Type: ti-text\r\n\r\n",
    received: b"HTTP/1.1 209 Subscription\r\nSubscribe: true\r\nCurrent-Version: \"y-1\"\r\nMerge-Type: ti-text\r\nContent-Type: text/plain; charset=utf-8\r\nTransfer-Encoding: chunked\r\nConnection: close\r\n\r\n63\r\nVersion: \"y-1\"\r\nParents: \"x-1\"\r\nPatches: 1\r\n\r\nContent-Length: 1\r\nContent-Range: text [2:2]\r\n\r\nc\r\n\r\n\r\n0\r\n\r\n",
};

/// Its PUTs.
const PUTS: Example = Example {
    sent: b"PUT /doc HTTP/1.1\r\nHost: h:1\r\nVersion: \"a-1\"\r\nParents:\r\nMerge-Type: ti-text\r\nContent-Type: text/plain; charset=utf-8\r\nContent-Length: 1\r\n\r\nZPUT /doc HTTP/1.1\r\nHost: h:1\r\nVersion: \"a-2\"\r\nParents: \"a-1\"\r\nMerge-Type: ti-text\r\nContent-Type: text/plain; charset=utf-8\r\nPatches: 1\r\nContent-Length: 53\r\n\r\nContent-Length: 1\r\nContent-Range: text [1:1]\r\n\r\n!\r\n\r\n",
    received: b"HTTP/1.1 200 OK\r\nVersion: \"a-1\"\r\nContent-Length: 0\r\n\r\nHTTP/1.1 200 OK\r\nVersion: \"a-2\"\r\nContent-Length: 0\r\n\r\n",
};

/// The text behind both syncs.
const READ: Example = Example {
    sent: b"GET /doc HTTP/1.1\r\n\r\n",
    received: b"HTTP/1.1 200 OK\r\nVersion: \"a-2\", \"y-1\"\r\nMerge-Type: ti-text\r\nContent-Type: text/plain; charset=utf-8\r\nContent-Length: 5\r\n\r\nabcZ!",
};

/// All connections of the server.
const CONNECTIONS: &[Example] = &[X, Y, FIRST, NEXT, PUTS, READ];

#[test]
fn a_server_replies_to_what_a_client_writes(rt: HostRuntime) -> Result<(), Fail> {
    assert_eq!(rt;
        first_other(&rt, rt.alloc(), CONNECTIONS, &[1, 4_096])?,
        None
    );
    Ok(())
}

/// The client's state. Nothing is confirmed.
const STATE: &[u8] =
    b"braid-state 1\nagent: a\nserver: h:1\npath: /doc\nconfirmed: 0\nunsent: 2\n\nVersion: \"a-1\"\r\nParents:\r\nContent-Length: 1\r\n\r\nZ\r\n\r\nVersion: \"a-2\"\r\nParents: \"a-1\"\r\nPatches: 1\r\n\r\nContent-Length: 1\r\nContent-Range: text [1:1]\r\n\r\n!\r\n\r\nend\n";

/// What `show` prints behind both syncs. The digest was computed by python3's hashlib.
const SHOWN: &[u8] =
    b"agent: a\npath: /doc\nfrontier: \"a-2\", \"y-1\"\nconfirmed: 4\nunsent: 0\nlength: 5\ndigest: cc5dbf225fe9514da77b897af4307ae2f7ecde335db896a9d51d62587e1b788e\ntext:\nabcZ!\n";

/// What was written on the link of this number that was hung up, or nothing where there is none.
fn written_on(dialer: &MemDialer, n: usize) -> &[u8] {
    match dialer.talks().get(n) {
        Some(talk) => talk.link.written(),
        None => b"",
    }
}

/// Whether just so many links were hung up as there are texts here, and these were written on them.
fn wrote(dialer: &MemDialer, texts: &[&[u8]]) -> bool {
    for (n, text) in texts.iter().enumerate() {
        if written_on(dialer, n) != *text {
            return false;
        }
    }
    dialer.talks().len() == texts.len()
}

/// Whether a run printed this, with this status, and wrote this on the links of its dialer.
fn is_so(ran: &Ran, line: &[u8], status: Status, dialer: &MemDialer, texts: &[&[u8]]) -> bool {
    ran.is_so(line, status) && wrote(dialer, texts)
}

/// Whether a sync whose subscription is cut inside `y-1` is told so.
fn is_cut(alloc: Global, keeper: &mut MemKeeper) -> Result<bool, Fail> {
    let given = FIRST
        .received
        .strip_suffix(b"c\r\n\r\n\r\n2\r\n\r\n\r\n0\r\n\r\n");
    let mut dialer = dialer(alloc, given.unwrap_or(b""), b"", 4_096)?;
    let ran = run(alloc, &[b"sync", b"s"], keeper, &mut dialer, 100)?;
    Ok(is_so(&ran, b"fault: Cut\n", Status::Cut, &dialer, &[FIRST.sent]))
}

/// Whether the next sync learns and sends the rest.
fn goes_on(alloc: Global, keeper: &mut MemKeeper) -> Result<bool, Fail> {
    let mut dialer = dialer(alloc, NEXT.received, PUTS.received, 4_096)?;
    let ran = run(alloc, &[b"sync", b"s"], keeper, &mut dialer, 100)?;
    let line = b"synced: confirmed 4 unsent 0\n";
    Ok(is_so(&ran, line, Status::Done, &dialer, &[NEXT.sent, PUTS.sent]))
}

/// Whether the client then shows the text.
fn is_shown(alloc: Global, keeper: &mut MemKeeper) -> Result<bool, Fail> {
    let mut dialer = dialer(alloc, b"", b"", 4_096)?;
    let ran = run(alloc, &[b"show", b"s"], keeper, &mut dialer, 400)?;
    Ok(is_so(&ran, SHOWN, Status::Done, &dialer, &[]))
}

/// The three of them, one after another.
fn comes_together(alloc: Global, keeper: &mut MemKeeper) -> Result<(), Fail> {
    check(is_cut(alloc, keeper)?, "the first sync")?;
    check(goes_on(alloc, keeper)?, "the next sync")?;
    check(is_shown(alloc, keeper)?, "the text")
}

#[test]
fn a_client_writes_what_a_server_replies_to(rt: HostRuntime) -> Result<(), Fail> {
    let alloc = rt.alloc();
    let mut keeper = keeper_of(alloc, STATE, &[])?;
    comes_together(alloc, &mut keeper)
}
