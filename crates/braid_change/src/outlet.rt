ghost use Rattle.std.specs.Prelude.{◌≡◌, [], ◌++◌, ◌-◌, ◌^◌, min, false, List, ℕ, IfOk};

use braid_ids::{Bytes, Memory};
use std::alloc::Global;

/// Where a spelling goes to, piece by piece.
///
/// An outlet keeps what goes wrong, and takes nothing more then. So who spells goes on to the end, and who made the
/// outlet asks it at last.
pub trait Outlet {
    /// What the outlet was before these bytes were put, one behind the other, and what it is then.
    ghost puts: { List ℕ → Self → Self → Type 0 };

    /// Puts a piece behind what was put before.
    fn put(&mut self, piece: &[u8])
        ensures put { puts piece.now self.old self.new };

    /// Where nothing is done, no byte was put.
    ghost none: { (x : Self) → puts [] x x };

    /// Bytes that were put behind others were put together with them.
    ghost more: { (a b : List ℕ) (x y z : Self) → puts a x y → puts b y z → puts (a ++ b) x z };
}

/// Bytes in memory, which grow.
#[derive(Drop)]
pub(crate) struct Grown {
    bytes: Bytes,
    /// Whether a piece found no memory.
    lacks: bool,
}

impl Grown {
    /// No bytes.
    pub(crate) fn new(alloc: Global) -> Result<Grown, Memory>
        ensures ok { IfOk result (λ grown. (grown.bytes ≡ []) × (grown.lacks ≡ false)) }
    {
        let bytes = Bytes::of(alloc, b"")?;
        Ok(Grown {
            bytes,
            lacks: false,
        })
    }

    /// The bytes that were put.
    pub(crate) fn bytes(self) -> Result<Bytes, Memory>
        ensures ok { IfOk result (λ bytes. (self.lacks ≡ false) × (bytes ≡ self.bytes)) }
    {
        let Grown { bytes, lacks } = self;
        if lacks { Err(Memory) } else { Ok(bytes) }
    }
}

impl Outlet for Grown {
    ghost use Rattle.braid_change.specs.Outlets.{Grows};
    ghost use Rattle.braid_change.specs.Outlets.{grows_none, grows_more};

    ghost puts = { λ bytes old new. Grows bytes old.bytes old.lacks new.bytes new.lacks };

    ghost none = { λ x. grows_none x.bytes x.lacks };

    ghost more = { λ a b x y z. grows_more a b x.bytes y.bytes z.bytes x.lacks y.lacks z.lacks };

    fn put(&mut self, piece: &[u8]) {
        if !self.lacks && self.bytes.push(piece).is_err() {
            self.lacks = true;
        }
    }
}

/// The number of bytes that were put, or 18,446,744,073,709,551,615 where they are more.
#[derive(Drop)]
pub(crate) struct Counted {
    bytes: u64,
}

impl Counted {
    /// No bytes.
    pub(crate) fn new() -> Counted
        ensures none { result.bytes ≡ 0 }
    {
        Counted { bytes: 0 }
    }

    /// The number of bytes that were put.
    pub(crate) fn bytes(&self) -> u64
        ensures value { result ≡ min self.now.bytes (2 ^ 64 - 1) }
    {
        self.bytes
    }
}

impl Outlet for Counted {
    ghost use Rattle.braid_change.specs.Outlets.{Counts};
    ghost use Rattle.braid_change.specs.Outlets.{counts_none, counts_more};

    ghost puts = { λ bytes old new. Counts bytes old.bytes new.bytes };

    ghost none = { λ x. counts_none x.bytes };

    ghost more = { λ a b x y z. counts_more a b x.bytes y.bytes z.bytes };

    fn put(&mut self, piece: &[u8]) {
        self.bytes = self.bytes.saturating_add(piece.len() as u64);
    }
}
