//! A subscription's bytes, cut before each byte and read back.

use crate::reading_back::{Heard, Last, bytes_are_events};
use braid_http::Replied;
use braid_ids::Bytes;
use braid_io::MemLink;
use braid_stream::Next;
use std::alloc::Global;
use std::test::Fail;

// What a session writes for a subscription from nothing: its head, an update, a beat, an update, and the last chunk.
const HEAD: &[u8] =
    b"HTTP/1.1 209 Subscription\r\nSubscribe: true\r\nCurrent-Version: \"a-1\"\r\nMerge-Type: ti-text\r\nContent-Type: text/plain; charset=utf-8\r\nTransfer-Encoding: chunked\r\nConnection: close\r\n\r\n";

const FIRST: &[u8] =
    b"35\r\nVersion: \"a-1\"\r\nParents:\r\nContent-Length: 2\r\n\r\nhi\r\n\r\n\r\n";

const BEAT: &[u8] = b"2\r\n\r\n\r\n";

const SECOND: &[u8] =
    b"3b\r\nVersion: \"b-1\"\r\nParents: \"a-1\"\r\nContent-Length: 2\r\n\r\nyo\r\n\r\n\r\n";

const LAST: &[u8] = b"0\r\n\r\n";

/// Where the data of each chunk begins behind the head, and how many bytes it has.
const DATA: [(usize, usize); 3] = [(4, 53), (62, 2), (70, 59)];

/// Behind so many bytes of the data it is a stream: before the first update, behind each, and behind each empty line.
const STREAMS: [u64; 8] = [0, 49, 51, 53, 55, 110, 112, 114];

fn check(holds: bool, what: &'static str) -> Result<(), Fail> {
    if holds { Ok(()) } else { Err(what.into()) }
}

/// The text of the subscription.
fn whole_text(alloc: Global) -> Result<Bytes, Fail> {
    let mut text = Bytes::of(alloc, HEAD)?;
    text.push(FIRST)?;
    text.push(BEAT)?;
    text.push(SECOND)?;
    text.push(LAST)?;
    Ok(text)
}

/// How many bytes of data so many bytes of the text hold.
fn data_in(cut: usize) -> u64 {
    let body = cut.saturating_sub(HEAD.len());
    let mut data = 0;
    for (start, len) in DATA {
        data = (len.min(body.saturating_sub(start)) as u64).saturating_add(data);
    }
    data
}

/// Whether the last answer is the one of so many bytes of the text.
fn is_end(last: &Last, cut: usize) -> bool {
    let data = data_in(cut);
    match last {
        Last::Head(Replied::Torn) => cut < HEAD.len(),
        Last::Stream(Next::End) => HEAD.len() <= cut && STREAMS.contains(&data),
        Last::Stream(Next::Torn { at }) => {
            HEAD.len() <= cut && !STREAMS.contains(&data) && *at == data
        }
        _ => false,
    }
}

/// How many updates are whole in so many bytes of data.
fn whole_updates(data: u64) -> usize {
    if data >= 110 {
        2
    } else if data >= 49 {
        1
    } else {
        0
    }
}

/// Reads the front of these bytes that ends before byte `cut`, given in pieces; reads of these numbers fail.
fn read_front(
    alloc: Global,
    text: &[u8],
    cut: usize,
    piece: usize,
    fails: Vec<u64>,
) -> Result<Heard, Fail> {
    if cut > text.len() || piece == 0 {
        return Err("a cut past the end, or no piece".into());
    }
    let front = Bytes::of(alloc, &text[..cut])?;
    let mut link = MemLink::new(alloc, front, piece, 0, fails)?;
    Ok(bytes_are_events(alloc, &mut link))
}

/// Whether the updates are the first ones of the text.
fn are_first(heard: &Heard, count: usize) -> bool {
    let names: [&[u8]; 2] = [b"a-1", b"b-1"];
    let updates = heard.updates.get();
    if updates.len() != count {
        return false;
    }
    for n in 0..updates.len() {
        if n >= 2 || updates[n].id().bytes() != names[n] {
            return false;
        }
    }
    true
}

/// Cuts the text before each byte, and at its end.
fn cut_everywhere(alloc: Global, piece: usize) -> Result<(), Fail> {
    let text = whole_text(alloc)?;
    let text = text.get();
    for cut in 0..=text.len() {
        let heard = read_front(alloc, text, cut, piece, Vec::new(alloc))?;
        check(
            are_first(&heard, whole_updates(data_in(cut))),
            "the updates",
        )?;
        check(is_end(&heard.last, cut), "the last answer")?;
    }
    Ok(())
}

#[test]
fn whole_updates_are_read_wherever_the_bytes_end(rt: HostRuntime) -> Result<(), Fail> {
    cut_everywhere(rt.alloc(), 1_000)?;
    cut_everywhere(rt.alloc(), 7)
}

#[test]
fn a_failed_read_ends_the_reading(rt: HostRuntime) -> Result<(), Fail> {
    let alloc = rt.alloc();
    let text = whole_text(alloc)?;
    let text = text.get();
    // Pieces of 100 bytes: the head is whole with the second, the first update with the third.
    let head = read_front(alloc, text, text.len(), 100, vec![in alloc; 1]?)?;
    check(
        matches!(&head.last, Last::Head(Replied::ReadFault)),
        "in the head",
    )?;
    let body = read_front(alloc, text, text.len(), 100, vec![in alloc; 3]?)?;
    check(
        matches!(&body.last, Last::Stream(Next::ReadFault)),
        "in the body",
    )?;
    check(are_first(&body, 1), "the first update is read before")
}
