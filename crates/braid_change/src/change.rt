ghost use Rattle.std.specs.Prelude.{◌≡◌, ◌-◌, ◌^◌, min, length, ◌↔◌, IfOk, IsTrue};
ghost use Rattle.braid_change.specs.Changes.{patches_of, patches_content, content_len, AreNumbered, AreScalars, HaveScalars};

use crate::patch::{ListPatch, Patch};
use crate::text::Text;
use braid_ids::Memory;
use std::alloc::Global;

/// What an update does to the text at its parents.
#[derive(Debug, Drop)]
pub enum Change {
    /// The text becomes this one.
    Body(Text),
    /// Ranges of the text become the patches' texts. All ranges count characters of the text before the change.
    Patches(ListPatch),
}

impl Change {
    /// The patches as listed, and none of a body. It takes no memory.
    pub fn patches(&self) -> &[Patch]
        ensures value { result.now ≡ patches_of self.now }
    {
        match self {
            Change::Body(_) => &[],
            Change::Patches(patches) => patches.get(),
        }
    }

    /// The number of UTF-8 bytes of all texts together, or 18,446,744,073,709,551,615 where they are more.
    /// It takes no memory.
    pub fn utf8_len(&self) -> u64
        ensures len { result ≡ min (content_len self.now) (2 ^ 64 - 1) }
        ensures numbered { AreNumbered (patches_of self.now) }
        ensures scalar { AreScalars self.now }
    {
        match self {
            Change::Body(text) => text.utf8_len(),
            Change::Patches(patches) => patches_len(patches.get()),
        }
    }

    /// Whether both are the same body, or the same patches as listed. It takes no memory.
    pub fn same(&self, other: &Change) -> bool
        ensures same { IsTrue result ↔ (self.now ≡ other.now) }
    {
        match (self, other) {
            (Change::Body(text), Change::Body(body)) => text.same(body),
            (Change::Patches(patches), Change::Patches(others)) => patches.same(others),
            _ => false,
        }
    }

    /// The same change once more.
    ///
    /// Errors: `Memory` where there was none for the copy.
    pub fn copy(&self, alloc: Global) -> Result<Change, Memory>
        ensures ok { IfOk result (λ change. change ≡ self.now) }
    {
        match self {
            Change::Body(text) => Ok(Change::Body(text.copy(alloc)?)),
            Change::Patches(patches) => Ok(Change::Patches(patches.copy(alloc)?)),
        }
    }
}

/// The number of UTF-8 bytes of the patches' texts together, or the greatest `u64` where they are more.
fn patches_len(patches: &[Patch]) -> u64
    ensures len { result ≡ min (length (patches_content patches.now)) (2 ^ 64 - 1) }
    ensures numbered { AreNumbered patches.now }
    ensures scalar { HaveScalars patches.now }
{
    let mut len: u64 = 0;
    for patch in patches {
        len = len.saturating_add(patch.utf8_len());
    }
    len
}
