//! The bytes read past the last message.

ghost use Rattle.std.specs.Prelude.{◌≡◌, ◌≤◌, ◌<◌, [], drop, take, length, vec_len};
ghost use Rattle.braid_http.specs.Reads.{Grows};
ghost use Rattle.braid_http.specs.Draws.{DrawsBytes};

use braid_io::{Link, Read};
use std::alloc::Global;
use std::marker::Model;

/// Bytes that were read and not yet used: those of a buffer from a place on. What stands before it moves away when a
/// read wants room, so that each byte moves once for each message that it waits behind.
#[derive(Drop)]
pub struct Held {
    bytes: Vec<u8>,
    at: usize,
}

impl Model for Held {
    ghost use Rattle.std.specs.Prelude.{List, ℕ, ◌≤◌, vec_len, drop};

    ghost Value = { List ℕ };

    ghost view = { λ a. drop a.at a.bytes.items };

    ghost invariant = { λ a. a.at ≤ vec_len a.bytes };
}

/// How a read onto the bytes held ended.
#[derive(Clone, Copy, Debug, PartialEq, Eq)]
pub enum More {
    /// At least one byte came.
    Got,
    /// The source has ended.
    End,
    /// The read failed.
    Failed,
    /// There was no memory to read into; nothing was read.
    Memory,
}

impl Held {
    /// No bytes. It takes no memory.
    pub fn new(alloc: Global) -> Held
        ensures none { result ≡ [] }
    {
        Held {
            bytes: Vec::new(alloc),
            at: 0,
        }
    }

    /// The bytes, lent as a slice.
    pub fn get(&self) -> &[u8]
        ensures value { result.now ≡ self.now }
    {
        &self.bytes[self.at..]
    }

    /// Takes off the first bytes.
    pub fn pass(&mut self, n: usize)
        requires within { n ≤ length self.old }
        ensures rest { self.new ≡ drop n self.old }
    {
        self.at += n;
    }

    /// The next bytes, in the front of a buffer: those held first, and else those that one read gives.
    pub fn next_bytes<K: Link>(&mut self, link: &mut K, buf: &mut [u8]) -> Read
        requires some { 0 < length buf.old }
        ensures draws { DrawsBytes result buf.new self.old self.new (K.intake link.old) (K.intake link.new) }
        ensures kept { K.outflow link.new ≡ K.outflow link.old }
    {
        if self.get().is_empty() {
            return link.read(buf);
        }
        let n = copy_front(self.get(), buf);
        self.pass(n);
        Read::Got(n)
    }

    /// Reads a piece onto the bytes: at most as many as the buffer has room for.
    pub fn read_more<K: Link>(&mut self, link: &mut K, buf: &mut [u8]) -> More
        requires some { 0 < length buf.old }
        ensures grows { Grows result self.old self.new (K.intake link.old) (K.intake link.new) }
        ensures kept { K.outflow link.new ≡ K.outflow link.old }
    {
        move_front(&mut self.bytes, self.at);
        self.at = 0;
        if self.bytes.reserve(buf.len()).is_err() {
            return More::Memory;
        }
        match link.read(buf) {
            Read::Got(n) => match self.bytes.extend_from_slice(&buf[..n]) {
                Ok(()) => More::Got,
                Err(_) => unreachable!(),
            },
            Read::End => More::End,
            Read::Failed => More::Failed,
        }
    }
}

/// Takes off the first bytes of a list.
fn move_front(bytes: &mut Vec<u8>, n: usize)
    requires within { n ≤ vec_len bytes.old }
    ensures rest { bytes.new.items ≡ drop n bytes.old.items }
{
    if n == 0 {
        return;
    }
    let left = bytes.len() - n;
    bytes.rotate_left(n);
    bytes.truncate(left);
}

/// Copies as many of the bytes into the front of a buffer as there is room for.
fn copy_front(bytes: &[u8], buf: &mut [u8]) -> usize
    requires bytes { 0 < length bytes.now }
    requires room { 0 < length buf.old }
    ensures some { 0 < result }
    ensures within { (result ≤ length bytes.now) × (result ≤ length buf.new) }
    ensures copied { take result buf.new ≡ take result bytes.now }
{
    let n = bytes.len().min(buf.len());
    buf[..n].copy_from_slice(&bytes[..n]);
    n
}
