use super::tests::says;
use super::*;
use braid_change::{Change, ListPatch, Patch, Text, Update};
use braid_ids::{Bytes, Frontier, Id};
use std::alloc::Global;

/// A frontier of two identifiers.
pub(super) fn frontier_of(alloc: Global, first: &[u8], second: &[u8]) -> Option<Frontier> {
    let first = Id::read(alloc, first).ok()?;
    let second = Id::read(alloc, second).ok()?;
    Frontier::of(Vec::from_array(alloc, [first, second]).ok()?).ok()
}

/// The patch of a start, an end and a text.
fn patch_of(alloc: Global, start: u32, end: u32, text: &[u8]) -> Option<Patch> {
    let text = Text::read(alloc, text).ok()?;
    Some(Patch { start, end, text })
}

/// The change that replaces the first character by `J` and puts `!` behind the fifth.
fn patches(alloc: Global) -> Option<Change> {
    let first = patch_of(alloc, 0, 1, b"J")?;
    let second = patch_of(alloc, 5, 5, b"!")?;
    let patches = Vec::from_array(alloc, [first, second]).ok()?;
    Some(Change::Patches(ListPatch::of(patches)))
}

/// The update of this change.
fn update_of(alloc: Global, change: Change) -> Option<Update> {
    if change.patches().len() > 9 {
        return None;
    }
    let id = Id::read(alloc, b"b-1").ok()?;
    let parents = frontier_of(alloc, b"x-1", b"a-1")?;
    Update::build(id, parents, change).ok()
}

/// The PUT of an update.
fn put_of(alloc: Global, update: Update) -> Option<Call> {
    let server = Bytes::of(alloc, b"127.0.0.1:9000").ok()?;
    let path = Bytes::of(alloc, b"/doc").ok()?;
    Some(Call::Put {
        server,
        path,
        update,
    })
}

/// The subscription behind two parents.
fn subscription(alloc: Global) -> Option<Call> {
    let server = Bytes::of(alloc, b"h:1").ok()?;
    let path = Bytes::of(alloc, b"/d?q").ok()?;
    let parents = frontier_of(alloc, b"b-2", b"a-1")?;
    Some(Call::Subscribe {
        server,
        path,
        parents,
    })
}

/// Whether the request has these bytes, and is read back so.
fn is_written(alloc: Global, call: Option<Call>, expected: &[u8], told: &[u8]) -> bool {
    let Some(call) = call else {
        return false;
    };
    match request_bytes(alloc, &call) {
        Ok(bytes) => bytes.get() == expected && says(alloc, bytes, 7, &[], told),
        Err(_) => false,
    }
}

/// Whether the PUT of this change has these bytes, and is read back so.
fn is_put(alloc: Global, change: Option<Change>, expected: &[u8], told: &[u8]) -> bool {
    let Some(change) = change else {
        return false;
    };
    match update_of(alloc, change) {
        Some(update) => is_written(alloc, put_of(alloc, update), expected, told),
        None => false,
    }
}

/// The body of two characters.
fn body(alloc: Global) -> Option<Change> {
    Some(Change::Body(Text::read(alloc, b"h\xc3\xa9").ok()?))
}

#[test]
fn a_subscription_is_written(rt: HostRuntime) {
    let alloc = rt.alloc();
    let expected =
        b"GET /d?q HTTP/1.1\r\nHost: h:1\r\nSubscribe: true\r\nParents: \"a-1\", \"b-2\"\r\nMerge-Type: ti-text\r\n\r\n";
    let written = is_written(alloc, subscription(alloc), expected, b"GET/d?q \nEnd");
    assert!(rt; written);
}

#[test]
fn a_body_is_put(rt: HostRuntime) {
    let alloc = rt.alloc();
    let expected =
        b"PUT /doc HTTP/1.1\r\nHost: 127.0.0.1:9000\r\nVersion: \"b-1\"\r\nParents: \"a-1\", \"x-1\"\r\nMerge-Type: ti-text\r\nContent-Type: text/plain; charset=utf-8\r\nContent-Length: 3\r\n\r\nh\xc3\xa9";
    let written = is_put(alloc, body(alloc), expected, b"PUT/doc h\xc3\xa9\nEnd");
    assert!(rt; written);
}

#[test]
fn patches_are_put(rt: HostRuntime) {
    let alloc = rt.alloc();
    let expected =
        b"PUT /doc HTTP/1.1\r\nHost: 127.0.0.1:9000\r\nVersion: \"b-1\"\r\nParents: \"a-1\", \"x-1\"\r\nMerge-Type: ti-text\r\nContent-Type: text/plain; charset=utf-8\r\nPatches: 2\r\nContent-Length: 104\r\n\r\nContent-Length: 1\r\nContent-Range: text [0:1]\r\n\r\nJ\r\nContent-Length: 1\r\nContent-Range: text [5:5]\r\n\r\n!\r\n\r\n";
    let told =
        b"PUT/doc Content-Length: 1\r\nContent-Range: text [0:1]\r\n\r\nJ\r\nContent-Length: 1\r\nContent-Range: text [5:5]\r\n\r\n!\r\n\r\n\nEnd";
    let written = is_put(alloc, patches(alloc), expected, told);
    assert!(rt; written);
}
