ghost use Rattle.std.specs.Prelude.{◌≡◌, ◌≢◌, ◌<◌, [], length};
ghost use Rattle.braid_io.specs.Outside.{Reads};
ghost use Rattle.braid_io.specs.InMemory.{PureIntake, PureReads, pure_intake};

use crate::copies::copy_front;
use crate::source::{Read, Source};
use braid_ids::Bytes;
use std::marker::Model;

/// A source over a list of bytes that never fails, as bytes that are wholly there.
///
/// A read ends exactly where nothing is left, and otherwise gives the next bytes: as many as are left and the buffer
/// takes. No call takes memory.
#[derive(Drop)]
pub struct PureSource {
    bytes: Bytes,
    at: usize,
}

impl Model for PureSource {
    ghost use Rattle.std.specs.Prelude.{◌≤◌, length, take, drop};
    ghost use Rattle.braid_io.specs.InMemory.{PureIntake};

    ghost Value = { PureIntake };

    ghost view = { λ a. record { taken = take a.at a.bytes; left = drop a.at a.bytes } };

    ghost invariant = { λ a. a.at ≤ length a.bytes };
}

impl PureSource {
    /// A source that has all of `bytes` to give.
    pub fn new(bytes: Bytes) -> PureSource
        ensures value { result ≡ record { taken = []; left = bytes } }
    {
        PureSource { bytes, at: 0 }
    }

    /// The bytes that are left.
    pub fn left(&self) -> &[u8]
        ensures value { result.now ≡ self.now.left }
    {
        &self.bytes.get()[self.at..]
    }
}

impl Source for PureSource {
    ghost use Rattle.braid_io.specs.InMemory.{pure_intake};

    ghost intake = { pure_intake };

    fn read(&mut self, buf: &mut [u8]) -> Read
        requires some { 0 < length buf.old }
        ensures read { Reads result buf.new (pure_intake self.old) (pure_intake self.new) }
        ensures exact { PureReads result buf.new self.old self.new }
        ensures never_fails { result ≢ Read.Failed }
    {
        let rest = &self.bytes.get()[self.at..];
        if rest.is_empty() {
            return Read::End;
        }
        let n = copy_front(rest, rest.len(), buf);
        self.at += n;
        Read::Got(n)
    }
}
