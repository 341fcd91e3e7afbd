ghost use Rattle.std.specs.Prelude.{◌≡◌, ◌<◌, ◌≤◌, [], length, drop};
ghost use Rattle.braid_stream.specs.Pieces.{Fills, ReadsFront};

use braid_io::{Read, Source};
use std::marker::Model;

/// The number of bytes that the buffer has room for, and so the most that one read brings.
const ROOM: usize = 8_192;

/// Bytes that were read and not yet fed, in a buffer of fixed size.
#[derive(Drop)]
pub struct Held {
    buffer: [u8; ROOM],
    from: usize,
    to: usize,
}

impl Model for Held {
    ghost use Rattle.std.specs.Prelude.{◌≤◌, ◌-◌, List, ℕ, take, drop};

    ghost Value = { List ℕ };

    ghost view = { λ held. take (held.to - held.from) (drop held.from held.buffer) };

    ghost invariant = { λ held. (held.from ≤ held.to) × (held.to ≤ 8_192) };
}

impl Held {
    /// No bytes.
    pub fn new() -> Held
        ensures none { result ≡ [] }
    {
        Held {
            buffer: [0; ROOM],
            from: 0,
            to: 0,
        }
    }

    /// The bytes, lent as a slice.
    pub fn get(&self) -> &[u8]
        ensures value { result.now ≡ self.now }
    {
        &self.buffer[self.from..self.to]
    }

    /// Lets the first `count` bytes go.
    pub fn pass(&mut self, count: usize)
        requires within { count ≤ length self.old }
        ensures rest { self.new ≡ drop count self.old }
    {
        self.from += count;
    }

    /// Reads the next bytes, at most `most` of them, where no bytes are held.
    pub fn fill<S: Source>(&mut self, source: &mut S, most: u64) -> Read
        requires none { self.old ≡ [] }
        requires some { 0 < most }
        ensures fills { Fills result self.new most (S.intake source.old) (S.intake source.new) }
        ensures kept { S.beside_reads source.new ≡ S.beside_reads source.old }
    {
        let read = read_front(source, &mut self.buffer, most);
        if let Read::Got(count) = read {
            self.from = 0;
            self.to = count;
        }
        read
    }
}

/// Reads bytes into the front of a buffer, at most `most` of them.
fn read_front<S: Source>(source: &mut S, buffer: &mut [u8], most: u64) -> Read
    requires room { 0 < length buffer.old }
    requires some { 0 < most }
    ensures reads { ReadsFront result buffer.new most (S.intake source.old) (S.intake source.new) }
    ensures kept { S.beside_reads source.new ≡ S.beside_reads source.old }
{
    let room = buffer.len();
    if most < room as u64 {
        source.read(&mut buffer[..most as usize])
    } else {
        source.read(buffer)
    }
}
