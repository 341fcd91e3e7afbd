use super::*;
use braid_change::{Change, Text, Update};
use braid_ids::{Frontier, Id};
use braid_io::{MemSink, WriteEnd};
use std::alloc::Global;

const CHUNKS: &[u8] =
    b"35\r\nVersion: \"a-1\"\r\nParents:\r\nContent-Length: 2\r\n\r\nhi\r\n\r\n\r\n2\r\n\r\n\r\n35\r\nVersion: \"a-1\"\r\nParents:\r\nContent-Length: 2\r\n\r\nhi\r\n\r\n\r\n0\r\n\r\n";

/// The update `a-1` with this body.
fn update_of(alloc: Global, body: &[u8]) -> Option<Update> {
    let id = Id::read(alloc, b"a-1").ok()?;
    let parents = Frontier::of(Vec::new(alloc)).ok()?;
    let text = Text::read(alloc, body).ok()?;
    Update::build(id, parents, Change::Body(text)).ok()
}

/// Writes an update, a beat, the update again, and the last chunk.
fn write_stream(sink: &mut MemSink, updates: &[Update; 1]) -> Result<(), WriteEnd> {
    let mut writer = StreamWriter::new(sink);
    writer.put(&updates[0])?;
    writer.beat()?;
    writer.put_all(updates)?;
    writer.finish()
}

/// What is written where there is so much room and this write fails, and whether all of it was.
fn written(alloc: Global, room: usize, fails: u64) -> Option<(bool, usize)> {
    let mut sink = MemSink::new(alloc, room, Vec::from_slice(alloc, &[fails]).ok()?).ok()?;
    let updates = [update_of(alloc, b"hi")?];
    let whole = write_stream(&mut sink, &updates).is_ok();
    let text = sink.written();
    let front = CHUNKS.starts_with(text);
    Some((whole && front, if front { text.len() } else { 1_000 }))
}

#[test]
fn updates_are_written_as_chunks(rt: HostRuntime) {
    let rows: [(usize, u64, bool, usize); 6] = [
        (200, 9, true, 130),
        (20, 9, false, 20),
        (59, 9, false, 59),
        (129, 9, false, 129),
        (200, 1, false, 59),
        (200, 3, false, 125),
    ];
    for (room, fails, whole, len) in rows {
        assert!(rt; written(rt.alloc(), room, fails) == Some((whole, len)));
    }
}

/// Whether an update that is longer than the buffer is written whole, in as many writes as the buffer is filled.
fn is_written_long(alloc: Global) -> Option<bool> {
    let body = vec![in alloc; b'a'; 20_000].ok()?;
    let update = update_of(alloc, &body)?;
    let mut sink = MemSink::new(alloc, 20_063, Vec::new(alloc)).ok()?;
    let whole = StreamWriter::new(&mut sink).put(&update).is_ok();
    let front = sink.written().starts_with(b"4e57\r\nVersion: \"a-1\"\r\n");
    Some(whole && front && sink.room() == 0 && sink.calls() == 3)
}

#[test]
fn an_update_may_be_longer_than_the_buffer_of_a_writer(rt: HostRuntime) {
    assert!(rt; is_written_long(rt.alloc()) == Some(true));
}
