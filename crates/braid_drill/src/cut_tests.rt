//! Links whose replies are cut.

use crate::local_dialer::{Cut, LocalDialer};
use crate::server::Server;
use braid_ids::Bytes;
use braid_io::{Dialed, Dialer, Link, Read, write_all};
use std::alloc::Global;
use std::marker::Sync;
use std::sync::Wait;
use std::test::Fail;

const SUBSCRIBES: &[u8] =
    b"GET /drill HTTP/1.1\r\nHost: drill\r\nSubscribe: true\r\nParents:\r\nMerge-Type: ti-text\r\n\r\n";

const PUTS: &[u8] =
    b"PUT /drill HTTP/1.1\r\nHost: drill\r\nVersion: \"a-1\"\r\nParents:\r\nContent-Length: 2\r\n\r\nhi";

const READS: &[u8] = b"GET /drill HTTP/1.1\r\nHost: drill\r\n\r\n";

/// The whole reply to a subscription to a path that is absent.
const NONE_THERE: &[u8] =
    b"HTTP/1.1 209 Subscription\r\nSubscribe: true\r\nCurrent-Version:\r\nMerge-Type: ti-text\r\nContent-Type: text/plain; charset=utf-8\r\nTransfer-Encoding: chunked\r\nConnection: close\r\n\r\n0\r\n\r\n";

/// That to a reading of the path, behind the PUT.
const READ: &[u8] =
    b"HTTP/1.1 200 OK\r\nVersion: \"a-1\"\r\nMerge-Type: ti-text\r\nContent-Type: text/plain; charset=utf-8\r\nContent-Length: 2\r\n\r\nhi";

/// Writes a request and reads up to the end. What was read.
fn talk<K: Link>(alloc: Global, link: &mut K, request: &[u8]) -> Option<Vec<u8>> {
    write_all(request, link).ok()?;
    let mut reply = Vec::new(alloc);
    let mut buf = [0u8; 64];
    for _ in 0..100u32 {
        match link.read(&mut buf) {
            Read::Got(n) => reply.extend_from_slice(&buf[..n]).ok()?,
            Read::End => return Some(reply),
            Read::Failed => return None,
        }
    }
    None
}

/// Whether just this is read in reply to a request on a link of its own.
fn answers<R: Wait + Sync>(
    alloc: Global,
    dialer: &mut LocalDialer<'_, R>,
    request: &[u8],
    reply: &[u8],
) -> Option<bool> {
    let server = Bytes::of(alloc, b"drill").ok()?;
    let Dialed::Up(mut link) = dialer.dial(alloc, &server) else {
        return None;
    };
    let came = talk(alloc, &mut link, request);
    dialer.hang_up(link);
    Some(came?.as_slice() == reply)
}

/// What two syncs come to. In the first no reply to a PUT comes; in the second that to the subscription is cut.
fn cuts<R: Wait + Sync>(alloc: Global, rt: &R) -> Option<[bool; 5]> {
    let mut dialer = LocalDialer::new(rt, Server::new(alloc).ok()?);
    dialer.begin(Cut::Puts);
    let whole = answers(alloc, &mut dialer, SUBSCRIBES, NONE_THERE)?;
    let none = answers(alloc, &mut dialer, PUTS, b"")?;
    dialer.begin(Cut::Subscription { after: 12 });
    let cut = answers(alloc, &mut dialer, SUBSCRIBES, b"HTTP/1.1 209")?;
    let read = answers(alloc, &mut dialer, READS, READ)?;
    Some([whole, none, cut, read, !dialer.lacks_memory()])
}

#[test]
fn a_cut_ends_a_reply_that_was_served(rt: HostRuntime) -> Result<(), Fail> {
    assert!(rt; cuts(rt.alloc(), &rt) == Some([true; 5]));
    Ok(())
}
