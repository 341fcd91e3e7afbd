//! The confirmed updates that no confirmed one names as a parent, by their arrival numbers.

ghost use Rattle.std.specs.Prelude.{◌≡◌, ◌<◌, ◌≤◌, ◌↔◌, ◌^◌, ◌∷◌, ◌++◌, [], ℕ, Some, true, false, IfOk, OnOk, Contains, length, count_by, slice_get, slice_set, vec_len, vec_capacity};
ghost use Rattle.braid_ids.specs.MarkSets.{IsMarked};
ghost use Rattle.braid_change.specs.Updates.{UpdateView};
ghost use Rattle.braid_text.specs.Histories.{graph_of};
ghost use Rattle.braid_outbox.specs.Heads.{IsNumberAmong};

use braid_ids::{Frontier, Memory};
use braid_text::Resource;
use std::alloc::Global;

/// Which arrival numbers are those of heads, one flag a number, and how many are.
#[derive(Drop)]
pub struct Heads {
    pub flags: Vec<bool>,
    pub count: u32,
    ghost counted: { count ≡ count_by (λ flag. flag) flags.items },
}

impl Heads {
    /// No numbers. It takes no memory.
    pub fn new(alloc: Global) -> Heads
        ensures none { result.flags.items ≡ [] }
    {
        Heads {
            flags: Vec::new(alloc),
            count: 0,
        }
    }

    /// Makes room for one number more.
    ///
    /// Errors: `Memory` where there was none; nothing else is changed in either case.
    pub fn reserve(&mut self) -> Result<(), Memory>
        ensures flags { self.new.flags.items ≡ self.old.flags.items }
        ensures room { OnOk result (vec_len self.new.flags < vec_capacity self.new.flags) }
    {
        self.flags.reserve(1)?;
        Ok(())
    }

    /// Takes the next number as that of a head. The room is there.
    pub fn add_head(&mut self)
        requires few { length self.old.flags.items < 2 ^ 31 }
        requires room { vec_len self.old.flags < vec_capacity self.old.flags }
        ensures flags { self.new.flags.items ≡ self.old.flags.items ++ true ∷ [] }
    {
        self.flags.push_reserved(true);
        self.count += 1;
    }

    /// Takes the next number as that of no head. The room is there.
    pub fn add_other(&mut self)
        requires room { vec_len self.old.flags < vec_capacity self.old.flags }
        ensures flags { self.new.flags.items ≡ self.old.flags.items ++ false ∷ [] }
    {
        self.flags.push_reserved(false);
    }

    /// Notes that a number is that of a head.
    pub fn set(&mut self, n: u32)
        requires within { n < length self.old.flags.items }
        requires few { length self.old.flags.items < 2 ^ 31 }
        ensures flags { self.new.flags.items ≡ slice_set self.old.flags.items n true }
    {
        if !self.flags[n as usize] {
            self.flags[n as usize] = true;
            self.count += 1;
        }
    }

    /// Notes that a number is that of no head.
    fn clear(&mut self, n: u32)
        requires within { n < length self.old.flags.items }
        ensures flags { self.new.flags.items ≡ slice_set self.old.flags.items n false }
    {
        if self.flags[n as usize] {
            self.flags[n as usize] = false;
            self.count -= 1;
        }
    }

    /// Notes that the parents of the update with this arrival number are no heads.
    pub fn clear_parents(&mut self, resource: &Resource, number: u32)
        requires size { length self.old.flags.items ≡ length resource.now }
        ensures size { length self.new.flags.items ≡ length self.old.flags.items }
        ensures cleared { (u : UpdateView) → slice_get resource.now number ≡ Some u → (n : ℕ) →
            IsMarked self.new.flags.items n ↔ (IsMarked self.old.flags.items n
            × ¬ (IsNumberAmong (graph_of resource.now) u.parents n)) }
    {
        if let Some(update) = resource.entry(number) {
            self.clear_all(resource, update.parents());
        }
    }

    /// Notes that the updates with these identifiers are no heads.
    fn clear_all(&mut self, resource: &Resource, of: &Frontier)
        requires size { length self.old.flags.items ≡ length resource.now }
        ensures size { length self.new.flags.items ≡ length self.old.flags.items }
        ensures cleared { (n : ℕ) → IsMarked self.new.flags.items n ↔ (IsMarked self.old.flags.items n
            × ¬ (IsNumberAmong (graph_of resource.now) of.now n)) }
    {
        // It gives the proof that no identifier comes twice.
        let _entries = resource.entries();
        for i in 0..of.len() {
            let Some(id) = of.get(i) else { unreachable!() };
            if let Some(n) = resource.find(id) {
                self.clear(n);
            }
        }
    }

    /// The numbers of the heads, the newest first. It looks at no number below that of the oldest head.
    ///
    /// Errors: `Memory` where there was none.
    pub fn numbers(&self, alloc: Global) -> Result<Vec<u32>, Memory>
        requires few { length self.now.flags.items < 2 ^ 31 }
        ensures ok { IfOk result (λ numbers. (n : ℕ) → Contains numbers.items n ↔ IsMarked self.now.flags.items n) }
        ensures few { IfOk result (λ numbers. vec_len numbers ≤ length self.now.flags.items) }
    {
        let count = self.count as usize;
        let mut numbers = Vec::with_capacity(alloc, count)?;
        for n in (0..self.flags.len()).rev() {
            if numbers.len() == count {
                break;
            }
            if self.flags[n] {
                numbers.push(n as u32)?;
            }
        }
        Ok(numbers)
    }
}
