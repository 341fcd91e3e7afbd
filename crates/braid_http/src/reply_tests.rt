ghost use Rattle.braid_http.specs.Replies.{IsWritable, IsClosable};

use super::call_tests::frontier_of;
use super::*;
use braid_change::Text;
use braid_ids::{Bytes, Frontier, Id};
use std::alloc::Global;

/// Whether a reply has these bytes.
fn comes(alloc: Global, reply: &Reply, expected: &[u8]) -> bool
    requires writable { IsWritable reply.now }
{
    match reply_bytes(alloc, reply) {
        Ok(bytes) => bytes.get() == expected,
        Err(_) => false,
    }
}

/// Whether a reply that closes the connection has these bytes.
fn comes_closed(alloc: Global, reply: &Reply, expected: &[u8]) -> bool
    requires writable { IsWritable reply.now }
    requires closable { IsClosable reply.now }
{
    let Ok(bytes) = reply_bytes(alloc, reply) else {
        return false;
    };
    match closing(alloc, bytes) {
        Ok(closed) => closed.get() == expected,
        Err(_) => false,
    }
}

/// Whether the text `hé` at two versions has these bytes.
fn text_comes(alloc: Global, expected: &[u8]) -> Option<bool> {
    let version = frontier_of(alloc, b"b-2", b"a-1")?;
    let text = Text::read(alloc, b"h\xc3\xa9").ok()?;
    Some(comes(alloc, &Reply::Text { version, text }, expected))
}

#[test]
fn a_text_is_replied_with_its_frontier(rt: HostRuntime) {
    let expected =
        b"HTTP/1.1 200 OK\r\nVersion: \"a-1\", \"b-2\"\r\nMerge-Type: ti-text\r\nContent-Type: text/plain; charset=utf-8\r\nContent-Length: 3\r\n\r\nh\xc3\xa9";
    assert!(rt; text_comes(rt.alloc(), expected) == Some(true));
}

/// Whether a stored `a-1` has these bytes, and those where the connection is closed.
fn stored_comes(alloc: Global, expected: &[u8], closed: &[u8]) -> Option<bool> {
    let id = Id::read(alloc, b"a-1").ok()?;
    let _bytes = id.bytes();
    let reply = Reply::Stored { id };
    Some(comes(alloc, &reply, expected) && comes_closed(alloc, &reply, closed))
}

#[test]
fn a_put_is_replied_with_its_version(rt: HostRuntime) {
    let expected = b"HTTP/1.1 200 OK\r\nVersion: \"a-1\"\r\nContent-Length: 0\r\n\r\n";
    let closed =
        b"HTTP/1.1 200 OK\r\nVersion: \"a-1\"\r\nContent-Length: 0\r\nConnection: close\r\n\r\n";
    assert!(rt; stored_comes(rt.alloc(), expected, closed) == Some(true));
}

/// Whether an error that leaves the connection open has these bytes where it is closed after all.
fn open_error_comes(alloc: Global, expected: &[u8]) -> Option<bool> {
    let reply = Reply::Error {
        status: 405,
        reason: Bytes::of(alloc, b"Method").ok()?,
        close: false,
    };
    Some(comes_closed(alloc, &reply, expected))
}

/// Whether an error that closes the connection has these bytes.
fn closing_error_comes(alloc: Global, expected: &[u8]) -> Option<bool> {
    let reply = Reply::Error {
        status: 431,
        reason: Bytes::of(alloc, b"LongHead").ok()?,
        close: true,
    };
    Some(comes(alloc, &reply, expected))
}

#[test]
fn errors_are_replied_with_their_reason(rt: HostRuntime) {
    let open =
        b"HTTP/1.1 405 Method Not Allowed\r\nAllow: GET, PUT\r\nContent-Type: text/plain; charset=utf-8\r\nContent-Length: 7\r\nConnection: close\r\n\r\nMethod\n";
    let closing =
        b"HTTP/1.1 431 Request Header Fields Too Large\r\nContent-Type: text/plain; charset=utf-8\r\nContent-Length: 9\r\nConnection: close\r\n\r\nLongHead\n";
    let opened = open_error_comes(rt.alloc(), open);
    let closed = closing_error_comes(rt.alloc(), closing);
    assert!(rt; opened == Some(true) && closed == Some(true));
}

/// Whether a subscription to nothing has these bytes.
fn subscription_comes(alloc: Global, expected: &[u8]) -> Option<bool> {
    let current = Frontier::of(Vec::new(alloc)).ok()?;
    Some(comes(alloc, &Reply::Subscription { current }, expected))
}

#[test]
fn a_subscription_is_replied_with_its_frontier(rt: HostRuntime) {
    let expected =
        b"HTTP/1.1 209 Subscription\r\nSubscribe: true\r\nCurrent-Version:\r\nMerge-Type: ti-text\r\nContent-Type: text/plain; charset=utf-8\r\nTransfer-Encoding: chunked\r\nConnection: close\r\n\r\n";
    assert!(rt; subscription_comes(rt.alloc(), expected) == Some(true));
}
