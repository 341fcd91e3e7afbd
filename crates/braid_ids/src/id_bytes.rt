//! The bytes of an identifier as they are kept: a few in the value itself, more in a list of their own.

ghost use Rattle.std.specs.Prelude.{◌≡◌, ◌<◌, ◌≤◌, ◌++◌, ◌∷◌, [], IfOk, length};

use crate::memory::Memory;
use std::alloc::Global;
use std::fmt;
use std::marker::Model;

const MOST: usize = 22;

/// At most 22 bytes, which lie in the value itself.
#[derive(Drop)]
struct FewBytes {
    len: u8,
    bytes: [u8; MOST],
}

impl Model for FewBytes {
    ghost use Rattle.std.specs.Prelude.{ℕ, List, ◌≤◌, take};

    ghost Value = { List ℕ };

    ghost view = { λ few. take few.len few.bytes };

    ghost invariant = { λ few. few.len ≤ 22 };
}

impl FewBytes {
    /// A copy of the bytes of a slice.
    fn of(from: &[u8]) -> FewBytes
        requires few { length from.now ≤ 22 }
        ensures value { result ≡ from.now }
    {
        let mut few = FewBytes {
            len: 0,
            bytes: [0; MOST],
        };
        for byte in from {
            few.push(*byte);
        }
        few
    }

    /// Puts a byte at the end.
    fn push(&mut self, byte: u8)
        requires room { length self.old < 22 }
        ensures value { self.new ≡ self.old ++ byte ∷ [] }
    {
        self.bytes[self.len as usize] = byte;
        self.len += 1;
    }

    /// The bytes, lent as a slice.
    fn get(&self) -> &[u8]
        ensures value { result.now ≡ self.now }
    {
        &self.bytes[..self.len as usize]
    }
}

/// Where the bytes lie.
#[derive(Drop)]
enum Place {
    /// In the value itself, where they are at most 22.
    Here(FewBytes),
    /// In a list of their own.
    There(Box<Vec<u8>>),
}

/// The bytes of an identifier. At most 22 take no memory of their own, and the value takes 24 bytes in all.
#[derive(Drop)]
pub struct IdBytes {
    place: Place,
}

impl Model for IdBytes {
    ghost use Rattle.std.specs.Prelude.{ℕ, List};
    ghost use Rattle.braid_ids.specs.Kept.{bytes_at};

    ghost Value = { List ℕ };

    ghost view = { λ bytes. bytes_at bytes.place };
}

impl IdBytes {
    /// A copy of the bytes of a slice.
    ///
    /// Errors: `Memory` where there was none for the copy. There is always some for at most 22 bytes.
    pub fn of(alloc: Global, from: &[u8]) -> Result<IdBytes, Memory>
        ensures ok { IfOk result (λ bytes. bytes ≡ from.now) }
    {
        if from.len() <= MOST {
            let few = FewBytes::of(from);
            return Ok(IdBytes {
                place: Place::Here(few),
            });
        }
        let list = Vec::from_slice(alloc, from)?;
        let list = Box::new(alloc, list)?;
        Ok(IdBytes {
            place: Place::There(list),
        })
    }

    /// The bytes, lent as a slice. It takes no memory.
    pub fn get(&self) -> &[u8]
        ensures value { result.now ≡ self.now }
    {
        match &self.place {
            Place::Here(few) => few.get(),
            Place::There(list) => list.as_slice(),
        }
    }
}

/// They are shown as a list.
impl fmt::Debug for IdBytes {
    fn fmt<W: fmt::Write>(&self, f: &mut fmt::Formatter<W>) -> fmt::Result {
        self.get().fmt(f)
    }
}
