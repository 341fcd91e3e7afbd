ghost use Rattle.std.specs.Prelude.{◌≡◌, ◌<◌, [], IfOk, length};
ghost use Rattle.braid_io.specs.Outside.{Reads, Writes};
ghost use Rattle.braid_io.specs.InMemory.{MemTalk, LinkReads, LinkWrites, talk_intake, talk_outflow};

use crate::calls::Calls;
use crate::link::Link;
use crate::mem_sink::MemSink;
use crate::mem_source::MemSource;
use crate::sink::{Sink, Wrote};
use crate::source::{Read, Source};
use braid_ids::{Bytes, Memory};
use std::alloc::Global;
use std::marker::Model;

/// A link over a list of bytes and into memory that was taken when it was made.
///
/// Reads and writes are numbered together. A call whose number is one of those that are to fail fails, a write that has
/// no room too, and then only the counts change. Else a read is one of a source in memory, and a write one to a sink
/// in memory. No call but `new` takes memory.
#[derive(Drop)]
pub struct MemLink {
    source: MemSource,
    sink: MemSink,
    calls: Calls,
    read_faults: u64,
    write_faults: u64,
}

impl Model for MemLink {
    ghost use Rattle.std.specs.Prelude.{◌≡◌, [], List, ℕ};
    ghost use Rattle.braid_io.specs.InMemory.{MemTalk};

    ghost Value = { MemTalk };

    ghost view = { λ a. record {
      taken = a.source.taken;
      left = a.source.left;
      piece = a.source.piece;
      written = a.sink.written;
      room = a.sink.room;
      fails = a.calls.fails.items;
      calls = a.calls.made;
      read_faults = a.read_faults;
      write_faults = a.write_faults;
    } };

    ghost invariant = { λ a. (a.source.fails ≡ []) × (a.sink.fails ≡ []) };
}

impl MemLink {
    /// A link that has all of `left` to give, at most `piece` bytes by one read, and has room for `room` bytes. The
    /// memory for them is taken here, and none later.
    ///
    /// `piece` is at least 1. `fails` has the numbers of the reads and writes that fail, counted together from 0.
    ///
    /// Errors: `Memory` where there was none for the room.
    pub fn new(
        alloc: Global,
        left: Bytes,
        piece: usize,
        room: usize,
        fails: Vec<u64>,
    ) -> Result<MemLink, Memory>
        requires some { 0 < piece }
        ensures ok { IfOk result (λ link. link ≡ record {
          taken = [];
          left = left;
          piece = piece;
          written = [];
          room = room;
          fails = fails.items;
          calls = 0;
          read_faults = 0;
          write_faults = 0;
        }) }
    {
        Ok(MemLink {
            source: MemSource::new(left, piece, Vec::new(alloc)),
            sink: MemSink::new(alloc, room, Vec::new(alloc))?,
            calls: Calls::new(fails),
            read_faults: 0,
            write_faults: 0,
        })
    }

    /// The bytes given so far.
    pub fn taken(&self) -> &[u8]
        ensures value { result.now ≡ self.now.taken }
    {
        self.source.taken()
    }

    /// The bytes that are left.
    pub fn left(&self) -> &[u8]
        ensures value { result.now ≡ self.now.left }
    {
        self.source.left()
    }

    /// The bytes written so far.
    pub fn written(&self) -> &[u8]
        ensures value { result.now ≡ self.now.written }
    {
        self.sink.written()
    }

    /// The number of reads and writes so far, or 2^64 - 1 where there were more.
    pub fn calls(&self) -> u64
        ensures value { result ≡ self.now.calls }
    {
        self.calls.made()
    }

    /// The number of reads that failed, or 2^64 - 1 where there were more.
    pub fn read_faults(&self) -> u64
        ensures value { result ≡ self.now.read_faults }
    {
        self.read_faults
    }

    /// The number of writes that failed, or 2^64 - 1 where there were more.
    pub fn write_faults(&self) -> u64
        ensures value { result ≡ self.now.write_faults }
    {
        self.write_faults
    }
}

impl Source for MemLink {
    ghost use Rattle.braid_io.specs.InMemory.{talk_intake, talk_outflow};

    ghost intake = { talk_intake };

    ghost beside_reads = { talk_outflow };

    fn read(&mut self, buf: &mut [u8]) -> Read
        requires some { 0 < length buf.old }
        ensures read { Reads result buf.new (talk_intake self.old) (talk_intake self.new) }
        ensures kept { talk_outflow self.new ≡ talk_outflow self.old }
        ensures exact { LinkReads result buf.new self.old self.new }
    {
        if self.calls.begin() {
            self.read_faults = self.read_faults.saturating_add(1);
            return Read::Failed;
        }
        match self.source.read(buf) {
            Read::Got(n) => Read::Got(n),
            Read::End => Read::End,
            Read::Failed => unreachable!(),
        }
    }
}

impl Sink for MemLink {
    ghost use Rattle.braid_io.specs.InMemory.{talk_intake, talk_outflow};

    ghost outflow = { talk_outflow };

    ghost beside_writes = { talk_intake };

    fn write(&mut self, piece: &[u8]) -> Wrote
        requires some { 0 < length piece.now }
        ensures write { Writes result piece.now (talk_outflow self.old) (talk_outflow self.new) }
        ensures kept { talk_intake self.new ≡ talk_intake self.old }
        ensures exact { LinkWrites result piece.now self.old self.new }
    {
        if self.calls.begin() || self.sink.room() == 0 {
            self.write_faults = self.write_faults.saturating_add(1);
            return Wrote::Failed;
        }
        match self.sink.write(piece) {
            Wrote::Took(n) => Wrote::Took(n),
            Wrote::Failed => unreachable!(),
        }
    }
}

impl Link for MemLink {
    ghost use Rattle.std.specs.Prelude.{refl};

    ghost reads_keep = { λ x. refl };

    ghost writes_keep = { λ x. refl };
}
