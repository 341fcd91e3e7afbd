//! How many characters a change inserts, and how many it deletes.

ghost use Rattle.std.specs.Prelude.{◌≡◌, ◌<◌, ◌-◌, ◌^◌, ℕ, List, Some, IfOk, IfErr, IfSome, length, min};
ghost use Rattle.std.specs.List.{position_from};
ghost use Rattle.braid_change.specs.declared.patch.Patch.{Patch};
ghost use Rattle.braid_change.specs.declared.change.Change.TheVariants.{Patches};
ghost use Rattle.braid_change.specs.Changes.{IsShaped};
ghost use Rattle.braid_change.specs.Splices.{ranges, inserted, removed, is_past, IsSpliceFault};

use braid_change::{Change, Patch, SpliceFault, joined};
use std::alloc::Global;

/// How many characters ranges insert, and how many they delete.
#[derive(Drop)]
pub struct Counts {
    pub inserted: u64,
    pub removed: u64,
}

/// What a change inserts into a text of this length, and deletes from it.
///
/// Errors: `OutOfRange` with the first joined patch that ends past the text, or `Memory`.
pub fn counts_of(alloc: Global, change: &Change, len: u32) -> Result<Counts, SpliceFault>
    requires shaped { IsShaped change.now }
    ensures ok { IfOk result (λ counts. (t : List ℕ) → length t ≡ len →
        (rs : List Patch) × (ranges t change.now ≡ Some rs) × (counts.inserted ≡ inserted rs)
        × (counts.removed ≡ removed rs)) }
    ensures fault { IfErr result (λ fault. (t : List ℕ) → length t ≡ len → IsSpliceFault t change.now fault) }
{
    match change {
        Change::Body(text) => Ok(Counts {
            inserted: text.chars().len() as u64,
            removed: len as u64,
        }),
        Change::Patches(patches) => counts_of_patches(alloc, patches.get(), len),
    }
}

/// The same of patches, which are joined first.
fn counts_of_patches(alloc: Global, patches: &[Patch], len: u32) -> Result<Counts, SpliceFault>
    requires shaped { IsShaped (Patches patches.now) }
    ensures ok { IfOk result (λ counts. (t : List ℕ) → length t ≡ len →
        (rs : List Patch) × (ranges t (Patches patches.now) ≡ Some rs) × (counts.inserted ≡ inserted rs)
        × (counts.removed ≡ removed rs)) }
    ensures fault { IfErr result (λ fault. (t : List ℕ) → length t ≡ len →
        IsSpliceFault t (Patches patches.now) fault) }
{
    let Ok(list) = joined(alloc, patches) else {
        return Err(SpliceFault::Memory);
    };
    match find_past(&list, len) {
        Some(n) => Err(SpliceFault::OutOfRange {
            patch: n as u32,
            len,
        }),
        None => Ok(Counts {
            inserted: inserted_len(&list),
            removed: removed_len(&list),
        }),
    }
}

/// The first patch whose end is above `len`.
fn find_past(patches: &[Patch], len: u32) -> Option<usize>
    ensures found { result ≡ position_from (is_past len) 0 patches.now }
    ensures bound { IfSome result (λ n. n < length patches.now) }
{
    patches.iter().position(|patch| patch.end > len)
}

/// The number of characters of the patches' texts together, or the greatest number where they are more.
fn inserted_len(patches: &[Patch]) -> u64
    ensures len { result ≡ min (inserted patches.now) (2 ^ 64 - 1) }
{
    let mut len: u64 = 0;
    for patch in patches {
        len = len.saturating_add(patch.text.chars().len() as u64);
    }
    len
}

/// The number of characters that the patches replace, or the greatest number where they are more.
fn removed_len(patches: &[Patch]) -> u64
    ensures len { result ≡ min (removed patches.now) (2 ^ 64 - 1) }
{
    let mut len: u64 = 0;
    for patch in patches {
        len = len.saturating_add(patch.end.saturating_sub(patch.start) as u64);
    }
    len
}
