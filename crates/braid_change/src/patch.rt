ghost use Rattle.std.specs.Prelude.{◌≡◌, ◌<◌, ◌↔◌, ◌-◌, ◌^◌, true, min, length, encode_utf8_all, IfOk, IsTrue};
ghost use Rattle.std.specs.Str.{all_scalars};

use crate::text::Text;
use braid_ids::Memory;
use std::alloc::Global;
use std::marker::Model;

/// A text that stands in place of the characters from number `start` up to and without number `end`.
///
/// Characters are counted from 0 in the text that the patch changes.
#[derive(Debug, Drop)]
pub struct Patch {
    pub start: u32,
    pub end: u32,
    pub text: Text,
}

impl Patch {
    /// The number of bytes of its text's UTF-8, or 18,446,744,073,709,551,615 where they are more. It takes no memory.
    pub fn utf8_len(&self) -> u64
        ensures len { result ≡ min (length (encode_utf8_all self.now.text)) (2 ^ 64 - 1) }
        ensures numbered { self.now.end < 2 ^ 32 }
        ensures scalar { all_scalars self.now.text ≡ true }
    {
        // A proof learns that a number fits its type where it is read.
        let _end = self.end;
        self.text.utf8_len()
    }

    /// Whether both replace the same range by the same text. It takes no memory.
    pub fn same(&self, other: &Patch) -> bool
        ensures same { IsTrue result ↔ (self.now ≡ other.now) }
    {
        self.start == other.start && self.end == other.end && self.text.same(&other.text)
    }

    /// The same patch once more.
    ///
    /// Errors: `Memory` where there was none for the copy.
    pub fn copy(&self, alloc: Global) -> Result<Patch, Memory>
        ensures ok { IfOk result (λ patch. patch ≡ self.now) }
    {
        let text = self.text.copy(alloc)?;
        Ok(Patch {
            start: self.start,
            end: self.end,
            text,
        })
    }
}

/// A list of patches, in the order in which they are listed.
#[derive(Debug, Drop)]
pub struct ListPatch {
    items: Vec<Patch>,
}

impl Model for ListPatch {
    ghost use Rattle.std.specs.Prelude.{List};
    ghost use Rattle.braid_change.specs.declared.patch.Patch.{Patch};

    ghost Value = { List Patch };

    ghost view = { λ list. list.items.items };
}

impl ListPatch {
    /// The list of these patches. It takes no memory, and gives back what the list has room for beside them.
    pub fn of(items: Vec<Patch>) -> ListPatch
        ensures value { result ≡ items.items }
    {
        let mut items = items;
        items.shrink_to_fit();
        ListPatch { items }
    }

    /// The patches, lent as a slice. It takes no memory.
    pub fn get(&self) -> &[Patch]
        ensures value { result.now ≡ self.now }
    {
        self.items.as_slice()
    }

    /// Whether both have the same patches in the same order. It takes no memory.
    pub fn same(&self, other: &ListPatch) -> bool
        ensures same { IsTrue result ↔ (self.now ≡ other.now) }
    {
        same_patches(&self.items, &other.items)
    }

    /// The same list once more.
    ///
    /// Errors: `Memory` where there was none for the copy.
    pub fn copy(&self, alloc: Global) -> Result<ListPatch, Memory>
        ensures ok { IfOk result (λ list. list ≡ self.now) }
    {
        let mut items = Vec::with_capacity(alloc, self.items.len())?;
        for patch in &self.items {
            items.push(patch.copy(alloc)?)?;
        }
        Ok(ListPatch { items })
    }
}

/// Whether both lists have the same patches in the same order.
fn same_patches(patches: &[Patch], others: &[Patch]) -> bool
    ensures same { IsTrue result ↔ (patches.now ≡ others.now) }
{
    if patches.len() != others.len() {
        return false;
    }
    for (n, patch) in patches.iter().enumerate() {
        if !patch.same(&others[n]) {
            return false;
        }
    }
    true
}
