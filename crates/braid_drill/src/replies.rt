ghost use Rattle.std.specs.Prelude.{◌≤◌, length, vec_len};

use braid_ids::Memory;
use std::alloc::Global;

/// Bytes that a link has to give, and how many of them it gave.
#[derive(Drop)]
pub struct Replies {
    bytes: Vec<u8>,
    given: usize,
    ghost within: { given ≤ vec_len bytes },
}

impl Replies {
    /// No bytes. It takes no memory.
    pub fn new(alloc: Global) -> Replies {
        Replies {
            bytes: Vec::new(alloc),
            given: 0,
        }
    }

    /// Puts bytes at the end.
    ///
    /// Errors: `Memory` where there was none.
    pub fn push(&mut self, more: &[u8]) -> Result<(), Memory> {
        self.bytes.extend_from_slice(more)?;
        Ok(())
    }

    /// Gives the next bytes into the front of `buf`: as many as are left and fit. How many. It takes no memory.
    pub fn give(&mut self, buf: &mut [u8]) -> usize
        ensures fits { result ≤ length buf.new }
    {
        let left = &self.bytes[self.given..];
        let n = left.len().min(buf.len());
        buf[..n].copy_from_slice(&left[..n]);
        self.given += n;
        n
    }
}
