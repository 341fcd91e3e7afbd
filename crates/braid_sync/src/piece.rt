ghost use Rattle.std.specs.Prelude.{◌≡◌, ◌≤◌, ◌<◌, [], length, take, min};
ghost use Rattle.braid_io.specs.Outside.{Reads};
ghost use Rattle.braid_sync.specs.Pieces.{PieceView, piece_intake, nothing_left};

use braid_io::{Read, Source};
use std::marker::Model;

/// The room of a piece in bytes.
pub const ROOM: usize = 8_192;

/// Bytes that have come, as a source for a reader of updates that is handed one piece after the other.
///
/// It has no end: where its bytes are used up a read fails, so that the reader stops and goes on with the next piece. So a
/// read fails only where nothing is left. Behind the last piece the reader is handed `Ended`.
#[derive(Drop)]
pub struct Piece {
    buffer: [u8; ROOM],
    at: usize,
    to: usize,
    faults: u64,
}

impl Model for Piece {
    ghost use Rattle.std.specs.Prelude.{◌≡◌, ◌≤◌, ◌⊎◌, ◌-◌, take, drop};
    ghost use Rattle.braid_sync.specs.Pieces.{PieceView};

    ghost Value = { PieceView };

    ghost view = { λ p. record { left = take (p.to - p.at) (drop p.at p.buffer); faults = p.faults } };

    ghost invariant = { λ p. (p.at ≤ p.to) × (p.to ≤ 8_192) × ((p.faults ≡ 0) ⊎ (p.at ≡ p.to)) };
}

impl Piece {
    /// No bytes.
    pub fn new() -> Piece
        ensures value { result ≡ record { left = []; faults = 0 } }
    {
        Piece {
            buffer: [0; ROOM],
            at: 0,
            to: 0,
            faults: 0,
        }
    }

    /// The first `count` bytes of a buffer.
    pub fn of(buffer: [u8; ROOM], count: usize) -> Piece
        requires within { count ≤ length buffer }
        ensures value { result ≡ record { left = take count buffer; faults = 0 } }
    {
        Piece {
            buffer,
            at: 0,
            to: count,
            faults: 0,
        }
    }

    /// The bytes that are left.
    pub fn left(&self) -> &[u8]
        ensures value { result.now ≡ self.now.left }
        ensures used { 0 < self.now.faults → self.now.left ≡ [] }
    {
        &self.buffer[self.at..self.to]
    }
}

impl Source for Piece {
    ghost use Rattle.braid_sync.specs.Pieces.{piece_intake};

    ghost intake = { piece_intake };

    fn read(&mut self, buf: &mut [u8]) -> Read
        requires some { 0 < length buf.old }
        ensures read { Reads result buf.new (piece_intake self.old) (piece_intake self.new) }
    {
        let left = &self.buffer[self.at..self.to];
        if !left.is_empty() {
            let n = copy_front(left, buf);
            self.at += n;
            return Read::Got(n);
        }
        self.faults = self.faults.saturating_add(1);
        Read::Failed
    }
}

/// A source that has ended: it gives nothing.
#[derive(Drop)]
pub struct Ended;

impl Source for Ended {
    ghost use Rattle.braid_sync.specs.Pieces.{nothing_left};

    ghost intake = { λ _. nothing_left };

    fn read(&mut self, _buf: &mut [u8]) -> Read
        ensures read { Reads result _buf.new nothing_left nothing_left }
    {
        Read::End
    }
}

/// Puts the first bytes of `from` at the front of `buf`, as many as fit.
fn copy_front(from: &[u8], buf: &mut [u8]) -> usize
    ensures count { result ≡ min (length from.now) (length buf.old) }
    ensures bytes { take result buf.new ≡ take result from.now }
{
    let n = from.len().min(buf.len());
    buf[..n].copy_from_slice(&from[..n]);
    n
}
