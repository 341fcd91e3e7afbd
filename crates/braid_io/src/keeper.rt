ghost use Rattle.braid_io.specs.Keepers.{Keeping, Loads, Saves};

use braid_ids::{Bytes, Word};
use std::alloc::Global;

/// What a load answers.
#[derive(Drop)]
pub enum Loaded {
    /// What is kept under the name.
    Bytes(Bytes),
    /// Nothing is kept under the name.
    Nothing,
    /// The load failed, and the keeper's count of failed loads rose. A later load may succeed.
    Failed,
    /// There was not enough memory; the keeper is unchanged.
    Memory,
}

/// What a save answers.
#[derive(Clone, Copy, Debug, PartialEq, Eq)]
pub enum Saved {
    /// The bytes are kept under the name.
    Done,
    /// The save failed, and the keeper's count of failed saves rose. Nothing is said of what is kept under the name.
    Failed,
    /// There was not enough memory; the keeper is unchanged.
    Memory,
}

/// Where bytes are kept under names.
pub trait Keeper: Drop {
    /// What it keeps, where it tells that, and how often loads and saves failed.
    ghost keeping: { Self → Keeping };

    /// Gives what is kept under a name.
    fn load(&mut self, alloc: Global, name: &Word) -> Loaded
        ensures load { Loads name.now result (keeping self.old) (keeping self.new) };

    /// Keeps bytes under a name, in place of what stood there.
    fn save(&mut self, alloc: Global, name: &Word, bytes: &Bytes) -> Saved
        ensures save { Saves name.now bytes.now result (keeping self.old) (keeping self.new) };
}
