ghost use Rattle.std.specs.Prelude.{◌≡◌, IfOk, MatchOption, Some, None};
ghost use Rattle.std.specs.FinMap as map;
ghost use Rattle.braid_io.specs.Keepers.{Loads, Saves};
ghost use Rattle.braid_io.specs.MemKeepers.{MemKeeping, MemLoads, MemSaves, keeping_of, kept_of};

use crate::calls::Calls;
use crate::keeper::{Keeper, Loaded, Saved};
use braid_ids::{Bytes, Memory, Word};
use std::alloc::Global;
use std::collections::VecDeque;
use std::marker::Model;

/// A keeper in memory.
///
/// Loads and saves are numbered together. A call whose number is one of those that are to fail fails, and then only the
/// counts change. What a save replaces stays in memory and is not seen any more; a load looks through what was saved,
/// the newest first.
#[derive(Drop)]
pub struct MemKeeper {
    saved: VecDeque<(Word, Bytes)>,
    calls: Calls,
    load_faults: u64,
    save_faults: u64,
}

impl Model for MemKeeper {
    ghost use Rattle.braid_io.specs.MemKeepers.{MemKeeping};

    ghost Value = { MemKeeping };

    ghost view = { λ a. record {
      saved = a.saved.items;
      fails = a.calls.fails.items;
      calls = a.calls.made;
      load_faults = a.load_faults;
      save_faults = a.save_faults;
    } };
}

impl MemKeeper {
    /// A keeper that keeps these bytes under these names. Where a name stands twice, the first counts.
    ///
    /// `fails` has the numbers of the loads and saves that fail, counted together from 0.
    pub fn new(kept: Vec<(Word, Bytes)>, fails: Vec<u64>) -> MemKeeper
        ensures value { result
            ≡ record { saved = kept.items; fails = fails.items; calls = 0; load_faults = 0; save_faults = 0 } }
    {
        MemKeeper {
            saved: VecDeque::from(kept),
            calls: Calls::new(fails),
            load_faults: 0,
            save_faults: 0,
        }
    }

    /// What is kept under a name. It takes no memory.
    pub fn kept(&self, name: &[u8]) -> Option<&Bytes>
        ensures value { MatchOption result (map.get (kept_of self.now) name.now ≡ None)
            (λ bytes. map.get (kept_of self.now) name.now ≡ Some bytes.now) }
    {
        for (known, bytes) in &self.saved {
            if name.cmp(known.get()).is_eq() {
                return Some(bytes);
            }
        }
        None
    }

    /// The number of loads and saves so far, or 2^64 - 1 where there were more.
    pub fn calls(&self) -> u64
        ensures value { result ≡ self.now.calls }
    {
        self.calls.made()
    }

    /// The number of loads that failed, or 2^64 - 1 where there were more.
    pub fn load_faults(&self) -> u64
        ensures value { result ≡ self.now.load_faults }
    {
        self.load_faults
    }

    /// The number of saves that failed, or 2^64 - 1 where there were more.
    pub fn save_faults(&self) -> u64
        ensures value { result ≡ self.now.save_faults }
    {
        self.save_faults
    }

    /// A copy of what is kept under a name.
    fn copy(&self, alloc: Global, name: &Word) -> Result<Option<Bytes>, Memory>
        ensures ok { IfOk result (λ found. found ≡ map.get (kept_of self.now) name.now) }
    {
        match self.kept(name.get()) {
            Some(bytes) => Ok(Some(Bytes::of(alloc, bytes.get())?)),
            None => Ok(None),
        }
    }
}

impl Keeper for MemKeeper {
    ghost use Rattle.braid_io.specs.MemKeepers.{keeping_of};

    ghost keeping = { keeping_of };

    fn load(&mut self, alloc: Global, name: &Word) -> Loaded
        ensures load { Loads name.now result (keeping_of self.old) (keeping_of self.new) }
        ensures exact { MemLoads name.now result self.old self.new }
    {
        let Ok(found) = self.copy(alloc, name) else {
            return Loaded::Memory;
        };
        if self.calls.begin() {
            self.load_faults = self.load_faults.saturating_add(1);
            return Loaded::Failed;
        }
        match found {
            Some(bytes) => Loaded::Bytes(bytes),
            None => Loaded::Nothing,
        }
    }

    fn save(&mut self, alloc: Global, name: &Word, bytes: &Bytes) -> Saved
        ensures save { Saves name.now bytes.now result (keeping_of self.old) (keeping_of self.new) }
        ensures exact { MemSaves name.now bytes.now result self.old self.new }
    {
        let Ok(entry) = entry_of(alloc, name, bytes) else {
            return Saved::Memory;
        };
        let Ok(()) = self.saved.reserve(1) else {
            return Saved::Memory;
        };
        if self.calls.begin() {
            self.save_faults = self.save_faults.saturating_add(1);
            return Saved::Failed;
        }
        match self.saved.push_front(entry) {
            Ok(()) => Saved::Done,
            Err(_) => unreachable!(),
        }
    }
}

/// Copies of a name and of the bytes that are to stand under it.
fn entry_of(alloc: Global, name: &Word, bytes: &Bytes) -> Result<(Word, Bytes), Memory>
    ensures ok { IfOk result (λ entry. (entry.0 ≡ name.now) × (entry.1 ≡ bytes.now)) }
{
    Ok((Word::of(alloc, name.get())?, Bytes::of(alloc, bytes.get())?))
}
