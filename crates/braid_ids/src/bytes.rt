ghost use Rattle.std.specs.Prelude.{◌≡◌, ◌++◌, IfOk, OnOk, OnErr, decimal};

use crate::memory::Memory;
use itoa::Buffer;
use std::alloc::Global;
use std::marker::Model;

/// A list of bytes of any kind and length, which may grow at its end.
#[derive(Debug, Drop)]
pub struct Bytes {
    items: Vec<u8>,
}

impl Model for Bytes {
    ghost use Rattle.std.specs.Prelude.{List, ℕ};

    ghost Value = { List ℕ };

    ghost view = { λ bytes. bytes.items.items };
}

impl Bytes {
    /// A copy of the bytes of a slice.
    ///
    /// Errors: `Memory` where there was none for the copy.
    pub fn of(alloc: Global, from: &[u8]) -> Result<Bytes, Memory>
        ensures ok { IfOk result (λ bytes. bytes ≡ from.now) }
    {
        let items = Vec::from_slice(alloc, from)?;
        Ok(Bytes { items })
    }

    /// Puts bytes at the end.
    ///
    /// Errors: `Memory` where there was none to grow; the list is then unchanged.
    pub fn push(&mut self, more: &[u8]) -> Result<(), Memory>
        ensures ok { OnOk result (self.new ≡ self.old ++ more.now) }
        ensures err { OnErr result (self.new ≡ self.old) }
    {
        self.items.extend_from_slice(more)?;
        Ok(())
    }

    /// Puts a number at the end, in decimal without leading zeros.
    ///
    /// Errors: `Memory` where there was none to grow; the list is then unchanged.
    pub fn push_number(&mut self, n: u64) -> Result<(), Memory>
        ensures ok { OnOk result (self.new ≡ self.old ++ decimal n) }
        ensures err { OnErr result (self.new ≡ self.old) }
    {
        let mut buffer = Buffer::new();
        self.push(buffer.format(n).as_bytes())
    }

    /// The bytes, lent as a slice. It takes no memory.
    pub fn get(&self) -> &[u8]
        ensures value { result.now ≡ self.now }
    {
        self.items.as_slice()
    }
}
