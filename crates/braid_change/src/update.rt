ghost use Rattle.std.specs.Prelude.{◌≡◌, ◌-◌, ◌^◌, ◌<◌, ◌↔◌, min, length, List, IfOk, IfErr, IfSome, IsTrue};
ghost use Rattle.std.specs.List.{position_from};
ghost use Rattle.braid_change.specs.Changes.{patches_of, content_len, neighbours, do_overlap, first_backwards};
ghost use Rattle.braid_change.specs.Updates.{UpdateView, IsBuilt, IsUpdate, IsBuildFault};

use crate::change::Change;
use crate::patch::Patch;
use braid_ids::{Frontier, Id, Memory};
use std::alloc::Global;
use std::marker::Model;

/// The most parents of an update.
pub const MOST_PARENTS: u32 = 32;

/// The most patches of an update.
pub const MOST_PATCHES: usize = 1_000;

/// The most bytes of all contents of an update together.
pub const LONGEST_CONTENT: u64 = 1_048_576;

/// One version of a text: its identifier, its parents and what it changes in the text at them.
#[derive(Drop)]
pub struct Update {
    id: Id,
    parents: Frontier,
    change: Change,
}

impl Model for Update {
    ghost use Rattle.braid_change.specs.Updates.{UpdateView, IsUpdate};

    ghost Value = { UpdateView };

    ghost view = { λ update. record { id = update.id; parents = update.parents; change = update.change } };

    ghost invariant = { λ update. IsUpdate
        (record { id = update.id; parents = update.parents; change = update.change }) };
}

/// Why parts make no update: the first of these that holds, in this order. Patches are numbered from 0.
#[derive(Clone, Copy, Debug, PartialEq, Eq)]
pub enum BuildFault {
    /// There are more than 32 parents: `n` of them.
    TooManyParents { n: u32 },
    /// There are more than 1,000 patches: `n` of them.
    TooManyPatches { n: u32 },
    /// This patch is the first whose start is above its end.
    Backwards { patch: u32 },
    /// This patch is the first whose start is below the end of the one before it.
    Overlap { patch: u32 },
    /// The texts have more than 1,048,576 bytes of UTF-8 together: `bytes` of them, or
    /// 18,446,744,073,709,551,615 where they are more.
    TooLong { bytes: u64 },
}

impl Update {
    /// An update of these parts. There are fewer than 4,294,967,296 patches. It takes no memory.
    ///
    /// Errors: the first of `BuildFault` that holds of the parts, which are then dropped.
    pub fn build(id: Id, parents: Frontier, change: Change) -> Result<Update, BuildFault>
        requires counted { length (patches_of change) < 2 ^ 32 }
        ensures ok { IfOk result (λ update. (update ≡ record { id = id; parents = parents; change = change })
            × IsBuilt parents change) }
        ensures valid { IfOk result (λ update. IsUpdate update) }
        ensures fault { IfErr result (λ fault. IsBuildFault parents change fault) }
    {
        let n = parents.len();
        if n > MOST_PARENTS {
            return Err(BuildFault::TooManyParents { n });
        }
        let patches = change.patches();
        if patches.len() > MOST_PATCHES {
            let n = patches.len() as u32;
            return Err(BuildFault::TooManyPatches { n });
        }
        if let Some(n) = find_backwards(patches) {
            let patch = n as u32;
            return Err(BuildFault::Backwards { patch });
        }
        if let Some(n) = find_overlap(patches) {
            let patch = n as u32 + 1;
            return Err(BuildFault::Overlap { patch });
        }
        let bytes = change.utf8_len();
        if bytes > LONGEST_CONTENT {
            return Err(BuildFault::TooLong { bytes });
        }
        // For its contract: the bytes are an identifier's.
        id.bytes();
        Ok(Update {
            id,
            parents,
            change,
        })
    }

    /// The identifier of the version. It takes no memory.
    ///
    /// Contracts learn here that the update is one that the program can hold.
    pub fn id(&self) -> &Id
        ensures value { result.now ≡ self.now.id }
        ensures valid { IsUpdate self.now }
    {
        &self.id
    }

    /// The versions that this one stands on. It takes no memory.
    pub fn parents(&self) -> &Frontier
        ensures value { result.now ≡ self.now.parents }
        ensures valid { IsBuilt self.now.parents self.now.change }
    {
        &self.parents
    }

    /// What the version changes in the text at its parents. It takes no memory.
    pub fn change(&self) -> &Change
        ensures value { result.now ≡ self.now.change }
        ensures valid { IsBuilt self.now.parents self.now.change }
    {
        &self.change
    }

    /// Whether both have the same identifier, the same parents and the same change, with its patches as listed.
    /// It takes no memory.
    pub fn same(&self, other: &Update) -> bool
        ensures same { IsTrue result ↔ (self.now ≡ other.now) }
    {
        self.id == other.id
            && same_parents(&self.parents, &other.parents)
            && self.change.same(&other.change)
    }

    /// The same update once more.
    ///
    /// Errors: `Memory` where there was none for the copy.
    pub fn copy(&self, alloc: Global) -> Result<Update, Memory>
        ensures ok { IfOk result (λ update. update ≡ self.now) }
    {
        let id = self.id.copy(alloc)?;
        let parents = self.parents.copy(alloc)?;
        let change = self.change.copy(alloc)?;
        Ok(Update {
            id,
            parents,
            change,
        })
    }
}

/// The first patch whose start is above its end.
fn find_backwards(patches: &[Patch]) -> Option<usize>
    ensures found { result ≡ first_backwards patches.now }
    ensures bound { IfSome result (λ n. n < length patches.now) }
{
    patches.iter().position(|p| p.start > p.end)
}

/// The first patch whose end is above the start of the one after it.
fn find_overlap(patches: &[Patch]) -> Option<usize>
    ensures found { result ≡ position_from do_overlap 0 (neighbours patches.now) }
    ensures bound { IfSome result (λ n. n < length patches.now) }
{
    let after = patches.iter().skip(1);
    patches.iter().zip(after).position(|(p, q)| q.start < p.end)
}

/// Whether two frontiers have the same members.
fn same_parents(parents: &Frontier, others: &Frontier) -> bool
    ensures same { IsTrue result ↔ (parents.now ≡ others.now) }
{
    if parents.len() != others.len() {
        return false;
    }
    for n in 0..parents.len() {
        let (Some(id), Some(other)) = (parents.get(n), others.get(n)) else {
            return false;
        };
        if id != other {
            return false;
        }
    }
    true
}
