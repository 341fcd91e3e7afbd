ghost use Rattle.std.specs.Prelude.{◌≡◌, ◌≤◌, ◌<◌, ◌↔◌, ◌⊎◌, ℕ, false, length, replicate, IfOk, OnOk, OnErr, IsTrue};
ghost use Rattle.braid_ids.specs.MarkSets.{IsMarked, pieces_of};

use crate::memory::Memory;
use crate::piece::{Piece, add_among, add_last, begins_before_last, is_all, is_in, rate_of};
use std::alloc::Global;
use std::marker::Model;

/// A set of numbers below a size that never changes.
///
/// The set is kept as its ranges, so it takes memory by the number of ranges, whatever the size. `rate` is about how many
/// ranges there are for each number: a look for a number begins by it, and nothing rests on it.
#[derive(Drop)]
pub struct Marks {
    pieces: Vec<Piece>,
    size: u32,
    rate: u64,
    alloc: Global,
}

impl Model for Marks {
    ghost use Rattle.std.specs.Prelude.{List, Bool};
    ghost use Rattle.braid_ids.specs.Pieces.{flags_in, KeepPieces};

    ghost Value = { List Bool };

    ghost view = { λ marks. flags_in 0 marks.size marks.pieces.items };

    ghost invariant = { λ marks. KeepPieces marks.size marks.pieces.items };
}

impl Marks {
    /// The empty set of numbers below `size`.
    ///
    /// Errors: `Memory` where there was none for the set.
    pub fn of(alloc: Global, size: u32) -> Result<Marks, Memory>
        ensures ok { IfOk result (λ marks. marks ≡ replicate size false) }
    {
        Ok(Marks {
            pieces: Vec::new(alloc),
            size,
            rate: 0,
            alloc,
        })
    }

    /// Adds the numbers from `from` up to and without `to`. It takes constant time where no range of the set begins
    /// above `from`, and else time linear in the ranges.
    ///
    /// Errors: `Memory` where there was none; the set is then unchanged.
    pub fn add(&mut self, from: u32, to: u32) -> Result<(), Memory>
        requires some { from < to }
        requires within { to ≤ length self.old }
        ensures size { length self.new ≡ length self.old }
        ensures ok { OnOk result ((n : ℕ) → IsMarked self.new n ↔ (IsMarked self.old n ⊎ ((from ≤ n) × (n < to)))) }
        ensures err { OnErr result (self.new ≡ self.old) }
    {
        let piece = Piece { from, to };
        if begins_before_last(&self.pieces, piece) {
            self.pieces = add_among(self.alloc, &self.pieces, piece)?;
            self.rate = rate_of(&self.pieces, self.rate);
            return Ok(());
        }
        add_last(&mut self.pieces, piece)?;
        self.rate = rate_of(&self.pieces, self.rate);
        Ok(())
    }

    /// The same set once more.
    ///
    /// Errors: `Memory` where there was none for the copy.
    pub fn copy(&self, alloc: Global) -> Result<Marks, Memory>
        ensures ok { IfOk result (λ marks. marks ≡ self.now) }
    {
        let pieces = Vec::from_slice(alloc, self.pieces.as_slice())?;
        Ok(Marks {
            pieces,
            size: self.size,
            rate: self.rate,
            alloc,
        })
    }

    /// Raises the size: the numbers from the old size on are not in the set. It takes no memory and constant time.
    pub fn widen(&mut self, size: u32)
        requires within { length self.old ≤ size }
        ensures size { length self.new ≡ size }
        ensures kept { (n : ℕ) → IsMarked self.new n ↔ IsMarked self.old n }
    {
        self.size = size;
    }

    /// Whether the number is in the set; no number from the size on is. It takes no memory, and bisects the ranges.
    pub fn has(&self, n: u32) -> bool
        ensures has { IsTrue result ↔ IsMarked self.now n }
    {
        is_in(&self.pieces, n, self.rate)
    }

    /// Whether each number below the size is in the set. It takes no memory and constant time.
    pub fn is_full(&self) -> bool
        ensures full { IsTrue result ↔ ((n : ℕ) → n < length self.now → IsMarked self.now n) }
    {
        is_all(&self.pieces, self.size)
    }

    /// The number of ranges that the set is made of. It takes no memory.
    pub fn pieces(&self) -> u32
        ensures pieces { result ≡ pieces_of self.now }
    {
        self.pieces.len() as u32
    }

    /// The size: all numbers of the set are below it. It takes no memory.
    pub fn size(&self) -> u32
        ensures size { result ≡ length self.now }
    {
        self.size
    }
}
