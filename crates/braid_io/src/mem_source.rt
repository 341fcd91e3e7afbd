ghost use Rattle.std.specs.Prelude.{◌≡◌, ◌<◌, [], length};
ghost use Rattle.braid_io.specs.Outside.{Reads};
ghost use Rattle.braid_io.specs.InMemory.{MemIntake, MemReads, intake_of};

use crate::calls::Calls;
use crate::copies::copy_front;
use crate::source::{Read, Source};
use braid_ids::Bytes;
use std::marker::Model;

/// A source over a list of bytes.
///
/// A read fails exactly where its number is one of those that are to fail, and then only the counts change. Else it
/// ends exactly where nothing is left, and otherwise gives the next bytes: as many as the largest piece, what is left
/// and the buffer allow. No call takes memory.
#[derive(Drop)]
pub struct MemSource {
    bytes: Bytes,
    at: usize,
    piece: usize,
    calls: Calls,
}

impl Model for MemSource {
    ghost use Rattle.std.specs.Prelude.{◌<◌, ◌≤◌, length, take, drop};
    ghost use Rattle.braid_io.specs.InMemory.{MemIntake};

    ghost Value = { MemIntake };

    ghost view = { λ a. record {
      taken = take a.at a.bytes;
      left = drop a.at a.bytes;
      piece = a.piece;
      fails = a.calls.fails.items;
      calls = a.calls.made;
      faults = a.calls.faults;
    } };

    ghost invariant = { λ a. (a.at ≤ length a.bytes) × (0 < a.piece) };
}

impl MemSource {
    /// A source that has all of `left` to give, at most `piece` bytes by one read.
    ///
    /// `piece` is at least 1. `fails` has the numbers of the reads that fail, counted from 0.
    pub fn new(left: Bytes, piece: usize, fails: Vec<u64>) -> MemSource
        requires some { 0 < piece }
        ensures value { result
            ≡ record { taken = []; left = left; piece = piece; fails = fails.items; calls = 0; faults = 0 } }
    {
        MemSource {
            bytes: left,
            at: 0,
            piece,
            calls: Calls::new(fails),
        }
    }

    /// The bytes given so far.
    pub fn taken(&self) -> &[u8]
        ensures value { result.now ≡ self.now.taken }
    {
        &self.bytes.get()[..self.at]
    }

    /// The bytes that are left.
    pub fn left(&self) -> &[u8]
        ensures value { result.now ≡ self.now.left }
    {
        &self.bytes.get()[self.at..]
    }

    /// The number of reads so far, or 2^64 - 1 where there were more.
    pub fn calls(&self) -> u64
        ensures value { result ≡ self.now.calls }
    {
        self.calls.made()
    }

    /// The number of reads that failed, or 2^64 - 1 where there were more.
    pub fn faults(&self) -> u64
        ensures value { result ≡ self.now.faults }
    {
        self.calls.faults()
    }
}

impl Source for MemSource {
    ghost use Rattle.braid_io.specs.InMemory.{intake_of};

    ghost intake = { intake_of };

    fn read(&mut self, buf: &mut [u8]) -> Read
        requires some { 0 < length buf.old }
        ensures read { Reads result buf.new (intake_of self.old) (intake_of self.new) }
        ensures exact { MemReads result buf.new self.old self.new }
    {
        if self.calls.begin() {
            self.calls.fault();
            return Read::Failed;
        }
        let rest = &self.bytes.get()[self.at..];
        if rest.is_empty() {
            return Read::End;
        }
        let n = copy_front(rest, self.piece, buf);
        self.at += n;
        Read::Got(n)
    }
}
