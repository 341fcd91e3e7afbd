ghost use Rattle.std.specs.Prelude.{◌≡◌, ◌<◌, ◌≤◌, ◌+◌, ◌++◌, ◌↔◌, [], length, take, IsTrue};

use std::marker::Model;

/// The number of bytes that a buffer has room for.
const ROOM: usize = 8_192;

/// Bytes that wait to be written, in a buffer of fixed size.
#[derive(Drop)]
pub struct Pending {
    buffer: [u8; ROOM],
    len: usize,
}

impl Model for Pending {
    ghost use Rattle.std.specs.Prelude.{◌≤◌, List, ℕ, take};

    ghost Value = { List ℕ };

    ghost view = { λ pending. take pending.len pending.buffer };

    ghost invariant = { λ pending. pending.len ≤ 8_192 };
}

impl Pending {
    /// No bytes.
    pub(crate) fn new() -> Pending
        ensures none { result ≡ [] }
    {
        Pending {
            buffer: [0; ROOM],
            len: 0,
        }
    }

    /// The bytes, lent as a slice.
    pub(crate) fn get(&self) -> &[u8]
        ensures value { result.now ≡ self.now }
    {
        &self.buffer[..self.len]
    }

    /// Whether there is no room.
    pub(crate) fn is_full(&self) -> bool
        ensures full { IsTrue result ↔ (8_192 ≤ length self.now) }
    {
        self.len == ROOM
    }

    /// Lets all bytes go.
    pub(crate) fn clear(&mut self)
        ensures none { self.new ≡ [] }
    {
        self.len = 0;
    }

    /// Takes the first bytes of a piece, as many as there is room for. Their number.
    pub(crate) fn add(&mut self, piece: &[u8]) -> usize
        ensures within { result ≤ length piece.now }
        ensures added { self.new ≡ self.old ++ take result piece.now }
        ensures some { length self.old < 8_192 → 0 < length piece.now → 0 < result }
    {
        let count = piece.len().min(ROOM - self.len);
        copy_behind(&mut self.buffer, self.len, &piece[..count]);
        self.len += count;
        count
    }
}

/// Puts a piece into a buffer, behind its first bytes.
fn copy_behind(buffer: &mut [u8], at: usize, piece: &[u8])
    requires room { at + length piece.now ≤ length buffer.old }
    ensures copied { take (at + length piece.now) buffer.new ≡ take at buffer.old ++ piece.now }
{
    buffer[at..at + piece.len()].copy_from_slice(piece);
}
