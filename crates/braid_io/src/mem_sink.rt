ghost use Rattle.std.specs.Prelude.{◌≡◌, ◌<◌, [], IfOk, length};
ghost use Rattle.braid_io.specs.Outside.{Writes};
ghost use Rattle.braid_io.specs.InMemory.{MemOutflow, MemWrites, outflow_of};

use crate::calls::Calls;
use crate::sink::{Sink, Wrote};
use braid_ids::Memory;
use std::alloc::Global;
use std::marker::Model;

/// A sink into memory that was taken when it was made.
///
/// A write fails exactly where its number is one of those that are to fail or no room is left, and then only the counts
/// change. Else it takes the first bytes of the piece: as many as there is room for. No call but `new` takes memory.
#[derive(Drop)]
pub struct MemSink {
    bytes: Vec<u8>,
    room: usize,
    calls: Calls,
}

impl Model for MemSink {
    ghost use Rattle.std.specs.Prelude.{◌+◌, ◌≤◌, vec_len, vec_capacity};
    ghost use Rattle.braid_io.specs.InMemory.{MemOutflow};

    ghost Value = { MemOutflow };

    ghost view = { λ a. record {
      written = a.bytes.items;
      room = a.room;
      fails = a.calls.fails.items;
      calls = a.calls.made;
      faults = a.calls.faults;
    } };

    ghost invariant = { λ a. vec_len a.bytes + a.room ≤ vec_capacity a.bytes };
}

impl MemSink {
    /// A sink that has room for `room` bytes. The memory for them is taken here, and none later.
    ///
    /// `fails` has the numbers of the writes that fail, counted from 0.
    ///
    /// Errors: `Memory` where there was none for the room.
    pub fn new(alloc: Global, room: usize, fails: Vec<u64>) -> Result<MemSink, Memory>
        ensures ok { IfOk result (λ sink. sink
            ≡ record { written = []; room = room; fails = fails.items; calls = 0; faults = 0 }) }
    {
        Ok(MemSink {
            bytes: Vec::with_capacity(alloc, room)?,
            room,
            calls: Calls::new(fails),
        })
    }

    /// The bytes taken so far.
    pub fn written(&self) -> &[u8]
        ensures value { result.now ≡ self.now.written }
    {
        self.bytes.as_slice()
    }

    /// The number of bytes that it still has room for.
    pub fn room(&self) -> usize
        ensures value { result ≡ self.now.room }
    {
        self.room
    }

    /// The number of writes so far, or 2^64 - 1 where there were more.
    pub fn calls(&self) -> u64
        ensures value { result ≡ self.now.calls }
    {
        self.calls.made()
    }

    /// The number of writes that failed, or 2^64 - 1 where there were more.
    pub fn faults(&self) -> u64
        ensures value { result ≡ self.now.faults }
    {
        self.calls.faults()
    }
}

impl Sink for MemSink {
    ghost use Rattle.braid_io.specs.InMemory.{outflow_of};

    ghost outflow = { outflow_of };

    fn write(&mut self, piece: &[u8]) -> Wrote
        requires some { 0 < length piece.now }
        ensures write { Writes result piece.now (outflow_of self.old) (outflow_of self.new) }
        ensures exact { MemWrites result piece.now self.old self.new }
    {
        if self.calls.begin() || self.room == 0 {
            self.calls.fault();
            return Wrote::Failed;
        }
        let n = piece.len().min(self.room);
        match self.bytes.extend_from_slice(&piece[..n]) {
            Ok(()) => {
                self.room -= n;
                Wrote::Took(n)
            }
            Err(_) => unreachable!(),
        }
    }
}
