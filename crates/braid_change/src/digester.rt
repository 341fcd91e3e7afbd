ghost use Rattle.std.specs.Prelude.{◌≡◌, ◌++◌, [], ◌∷◌, List, OnOk, OnErr};
ghost use Rattle.braid_change.specs.Updates.{UpdateView};
ghost use Rattle.braid_change.specs.Spellings.{digest_of};
ghost use Rattle.braid_change.specs.Digests.{HasAdded};

use crate::spelling::canon;
use crate::update::Update;
use braid_ids::Memory;
use sha2::{Digest, Sha256};
use std::alloc::Global;

/// A digest of updates in the making: SHA-256 (FIPS 180-4) of their canonical spellings, in the order added.
#[derive(Drop)]
pub struct Digester {
    pub(crate) hasher: Sha256,
}

impl Digester {
    /// The digest of no updates so far. It takes no memory.
    pub fn new() -> Digester
        ensures none { HasAdded result [] }
    {
        Digester {
            hasher: Sha256::new(),
        }
    }

    /// Adds an update.
    ///
    /// Errors: `Memory` where there was none for its spelling; nothing is added then.
    pub fn add(&mut self, alloc: Global, update: &Update) -> Result<(), Memory>
        ensures ok { OnOk result ((us : List UpdateView) → HasAdded self.old us
            → HasAdded self.new (us ++ update.now ∷ [])) }
        ensures err { OnErr result (self.new ≡ self.old) }
    {
        let spelling = canon(alloc, update)?;
        self.hasher.update(spelling.get());
        Ok(())
    }

    /// The digest of the updates added. It takes no memory.
    pub fn finish(self) -> [u8; 32]
        ensures digest { (us : List UpdateView) → HasAdded self us → result ≡ digest_of us }
    {
        self.hasher.finalize()
    }
}
