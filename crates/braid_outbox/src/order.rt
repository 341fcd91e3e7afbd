//! The arrival numbers of a replica's updates in the order of its two lists.

ghost use Rattle.std.specs.Prelude.{◌≡◌, ◌<◌, ◌≤◌, ◌+◌, ◌∷◌, ◌++◌, ◌^◌, [], true, length, take, drop, slice_get, slice_set, vec_len, vec_capacity, false, OnOk, IfSome, Some};

use crate::heads::Heads;
use braid_ids::Memory;
use std::alloc::Global;

/// Arrival numbers: first those of the confirmed updates, then those of the unsent ones.
#[derive(Drop)]
pub struct Order {
    pub numbers: Vec<u32>,
    /// How many of the numbers are those of confirmed updates.
    pub confirmed: u32,
    /// For each arrival number, whether it is that of a confirmed update.
    pub flags: Vec<bool>,
    /// Which arrival numbers are those of confirmed updates that no confirmed one names as a parent.
    pub heads: Heads,
}

impl Order {
    /// No numbers. It takes no memory.
    pub fn new(alloc: Global) -> Order
        ensures numbers { result.numbers.items ≡ [] }
        ensures flags { result.flags.items ≡ [] }
        ensures heads { result.heads.flags.items ≡ [] }
        ensures confirmed { result.confirmed ≡ 0 }
    {
        Order {
            numbers: Vec::new(alloc),
            confirmed: 0,
            flags: Vec::new(alloc),
            heads: Heads::new(alloc),
        }
    }

    /// Makes room for one number more.
    ///
    /// Errors: `Memory` where there was none; nothing else is changed in either case.
    pub fn reserve(&mut self) -> Result<(), Memory>
        ensures numbers { self.new.numbers.items ≡ self.old.numbers.items }
        ensures flags { self.new.flags.items ≡ self.old.flags.items }
        ensures heads { self.new.heads.flags.items ≡ self.old.heads.flags.items }
        ensures confirmed { self.new.confirmed ≡ self.old.confirmed }
        ensures room { OnOk result (vec_len self.new.numbers < vec_capacity self.new.numbers) }
        ensures flag { OnOk result (vec_len self.new.flags < vec_capacity self.new.flags) }
        ensures head { OnOk result (vec_len self.new.heads.flags < vec_capacity self.new.heads.flags) }
    {
        self.numbers.reserve(1)?;
        self.flags.reserve(1)?;
        self.heads.reserve()?;
        Ok(())
    }

    /// Takes the next arrival number as that of the newest confirmed update, which is a head. The room is there.
    pub fn add_confirmed(&mut self)
        requires few { length self.old.numbers.items < 2 ^ 31 }
        requires heads { length self.old.heads.flags.items < 2 ^ 31 }
        requires split { self.old.confirmed ≤ length self.old.numbers.items }
        requires room { vec_len self.old.numbers < vec_capacity self.old.numbers }
        requires flag { vec_len self.old.flags < vec_capacity self.old.flags }
        requires head { vec_len self.old.heads.flags < vec_capacity self.old.heads.flags }
        ensures numbers { self.new.numbers.items ≡ take self.old.confirmed self.old.numbers.items
            ++ length self.old.numbers.items ∷ drop self.old.confirmed self.old.numbers.items }
        ensures flags { self.new.flags.items ≡ self.old.flags.items ++ true ∷ [] }
        ensures heads { self.new.heads.flags.items ≡ self.old.heads.flags.items ++ true ∷ [] }
        ensures confirmed { self.new.confirmed ≡ self.old.confirmed + 1 }
    {
        let number = self.numbers.len() as u32;
        let Ok(_) = self.numbers.insert(self.confirmed as usize, number) else {
            unreachable!()
        };
        self.flags.push_reserved(true);
        self.heads.add_head();
        self.confirmed += 1;
    }

    /// Takes the next arrival number as that of the newest unsent update. The room is there.
    pub fn add_unsent(&mut self)
        requires few { length self.old.numbers.items < 2 ^ 31 }
        requires room { vec_len self.old.numbers < vec_capacity self.old.numbers }
        requires flag { vec_len self.old.flags < vec_capacity self.old.flags }
        requires head { vec_len self.old.heads.flags < vec_capacity self.old.heads.flags }
        ensures numbers { self.new.numbers.items ≡ self.old.numbers.items ++ length self.old.numbers.items ∷ [] }
        ensures flags { self.new.flags.items ≡ self.old.flags.items ++ false ∷ [] }
        ensures heads { self.new.heads.flags.items ≡ self.old.heads.flags.items ++ false ∷ [] }
        ensures confirmed { self.new.confirmed ≡ self.old.confirmed }
    {
        self.numbers.push_reserved(self.numbers.len() as u32);
        self.flags.push_reserved(false);
        self.heads.add_other();
    }

    /// The number of the first unsent update is now that of the newest confirmed one, which is a head; it is answered.
    /// It takes no memory.
    pub fn confirm_first(&mut self) -> u32
        requires some { self.old.confirmed < length self.old.numbers.items }
        requires within { IfSome (slice_get self.old.numbers.items self.old.confirmed)
            (λ n. n < length self.old.flags.items) }
        requires head { IfSome (slice_get self.old.numbers.items self.old.confirmed)
            (λ n. n < length self.old.heads.flags.items) }
        requires few { length self.old.numbers.items < 2 ^ 31 }
        requires heads { length self.old.heads.flags.items < 2 ^ 31 }
        ensures numbers { self.new.numbers.items ≡ self.old.numbers.items }
        ensures flags { IfSome (slice_get self.old.numbers.items self.old.confirmed) (λ n. self.new.flags.items
            ≡ slice_set self.old.flags.items n true) }
        ensures heads { IfSome (slice_get self.old.numbers.items self.old.confirmed) (λ n. self.new.heads.flags.items
            ≡ slice_set self.old.heads.flags.items n true) }
        ensures number { slice_get self.old.numbers.items self.old.confirmed ≡ Some result }
        ensures confirmed { self.new.confirmed ≡ self.old.confirmed + 1 }
    {
        let number = self.numbers[self.confirmed as usize];
        self.flags[number as usize] = true;
        self.heads.set(number);
        self.confirmed += 1;
        number
    }
}
