ghost use Rattle.std.specs.Prelude.{◌≡◌, [], ◌∷◌, ◌<◌, false};
ghost use Rattle.std.specs.Fmt.{digits, digit_glyph};
ghost use Rattle.braid_change.specs.Spellings.{canonical};
ghost use Rattle.braid_fields.specs.Chunks.{chunk, beat, last_chunk};
ghost use Rattle.braid_frame.specs.Buffers.{IsWritten};
ghost use Rattle.braid_stream.specs.Chunked.{chunks};

use braid_change::{Outlet, Update, canon_len, spell};
use braid_frame::Buffered;
use braid_io::{Sink, WriteEnd};

/// Writes a stream of updates as a chunked body (RFC 9112, section 7.1), through a buffer of 8,192 bytes.
///
/// Each update is one chunk with its canonical spelling. A call writes in as few writes as the buffer allows, and leaves
/// nothing waiting, so the buffer stands in the call. It borrows its sink until it is dropped, and takes no memory.
///
/// Errors: `WriteFault` at the first write that fails, where the sink's count of faults rose in that call; a front of what
/// the call writes was then written. No call answers `Memory`.
#[derive(Drop)]
pub struct StreamWriter<'a, S: Sink> {
    sink: &'a mut S,
}

impl<'a, S: Sink> StreamWriter<'a, S> {
    /// A writer before a sink that has written nothing.
    pub fn new(sink: &'a mut S) -> StreamWriter<'a, S>
        ensures same_sink { result.sink.ghost_name ≡ sink.entry.ghost_name }
        ensures sink { result.sink.now ≡ sink.old }
    {
        StreamWriter { sink }
    }

    /// Writes an update as one chunk.
    pub fn put(&mut self, update: &Update) -> Result<(), WriteEnd>
        ensures written { IsWritten result (chunk (canonical update.now)) (S.outflow self.old.sink.now)
            (S.outflow self.new.sink.now) }
        ensures kept { S.beside_writes self.new.sink.now ≡ S.beside_writes self.old.sink.now }
        ensures same_sink { self.new.sink.ghost_name ≡ self.old.sink.ghost_name }
    {
        let mut out = Buffered::new(self.sink);
        put_chunk(update, &mut out);
        out.end()
    }

    /// Writes updates as one chunk each, in their order.
    pub fn put_all(&mut self, updates: &[Update]) -> Result<(), WriteEnd>
        ensures written { IsWritten result (chunks updates.now) (S.outflow self.old.sink.now)
            (S.outflow self.new.sink.now) }
        ensures kept { S.beside_writes self.new.sink.now ≡ S.beside_writes self.old.sink.now }
        ensures same_sink { self.new.sink.ghost_name ≡ self.old.sink.ghost_name }
    {
        let mut out = Buffered::new(self.sink);
        put_chunks(updates, &mut out);
        out.end()
    }

    /// Writes a chunk of an empty line, which shows a reader that the stream goes on.
    pub fn beat(&mut self) -> Result<(), WriteEnd>
        ensures written { IsWritten result beat (S.outflow self.old.sink.now)
            (S.outflow self.new.sink.now) }
        ensures kept { S.beside_writes self.new.sink.now ≡ S.beside_writes self.old.sink.now }
        ensures same_sink { self.new.sink.ghost_name ≡ self.old.sink.ghost_name }
    {
        let mut out = Buffered::new(self.sink);
        out.put(b"2\r\n\r\n\r\n");
        out.end()
    }

    /// Writes the last chunk, which ends the body.
    pub fn finish(&mut self) -> Result<(), WriteEnd>
        ensures written { IsWritten result last_chunk (S.outflow self.old.sink.now)
            (S.outflow self.new.sink.now) }
        ensures kept { S.beside_writes self.new.sink.now ≡ S.beside_writes self.old.sink.now }
        ensures same_sink { self.new.sink.ghost_name ≡ self.old.sink.ghost_name }
    {
        let mut out = Buffered::new(self.sink);
        out.put(b"0\r\n\r\n");
        out.end()
    }
}

/// Puts updates as one chunk each.
fn put_chunks<O: Outlet>(updates: &[Update], out: &mut O)
    ensures puts { O.puts (chunks updates.now) out.old out.new }
{
    for update in updates {
        put_chunk(update, out);
    }
}

/// Puts an update as one chunk.
fn put_chunk<O: Outlet>(update: &Update, out: &mut O)
    ensures puts { O.puts (chunk (canonical update.now)) out.old out.new }
{
    put_size(canon_len(update), out);
    out.put(b"\r\n");
    spell(update, out);
    out.put(b"\r\n");
}

/// Puts a number in lower-case hexadecimal digits, without leading zeros.
fn put_size<O: Outlet>(n: u64, out: &mut O)
    ensures puts { O.puts (digits 16 false n) out.old out.new }
{
    if n < 16 {
        put_digit(n as u8, out);
    } else {
        put_size(n / 16, out);
        put_digit((n % 16) as u8, out);
    }
}

/// Puts the digit of a number below 16.
fn put_digit<O: Outlet>(n: u8, out: &mut O)
    requires digit { n < 16 }
    ensures puts { O.puts (digit_glyph false n ∷ []) out.old out.new }
{
    let digit = if n < 10 { b'0' + n } else { b'a' + (n - 10) };
    out.put(&[digit]);
}
