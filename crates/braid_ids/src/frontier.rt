ghost use Rattle.std.specs.Prelude.{◌≡◌, ◌^◌, ◌<◌, ◌↔◌, List, ℕ, IfOk, IsTrue, Contains, length, vec_len, slice_get};
ghost use Rattle.std.specs.List.{AllByRecursion};
ghost use Rattle.std.specs.Option.{option_copied};
ghost use Rattle.braid_ids.specs.Frontiers.{IsRising, IsFrontier};
ghost use Rattle.braid_ids.specs.Identifiers.{IsIdentifier};
ghost use Rattle.braid_ids.specs.declared.id.Id.{Id as Identifier};

use crate::id::Id;
use crate::memory::Memory;
use std::alloc::Global;
use std::marker::Model;

/// A finite set of identifiers, in rising order. It has fewer than 4,294,967,296 members.
#[derive(Debug, Drop)]
pub struct Frontier {
    ids: Vec<Id>,
}

impl Model for Frontier {
    ghost use Rattle.std.specs.Prelude.{List};
    ghost use Rattle.braid_ids.specs.declared.id.Id.{Id};
    ghost use Rattle.braid_ids.specs.Frontiers.{IsFrontier};

    ghost Value = { List Id };

    ghost view = { λ frontier. frontier.ids.items };

    ghost invariant = { λ frontier. IsFrontier frontier.ids.items };
}

impl Frontier {
    /// The set of these identifiers: repeats count once, and their order does not matter.
    ///
    /// Errors: `Memory` where there was none to sort them; they are then dropped.
    pub fn of(ids: Vec<Id>) -> Result<Frontier, Memory>
        requires { vec_len ids < 2 ^ 32 }
        ensures rising { IfOk result (λ frontier. IsRising frontier) }
        ensures same { IfOk result (λ frontier. (id : List ℕ) → Contains frontier id ↔ Contains ids.items id) }
    {
        let mut ids = ids;
        ids.sort()?;
        ids.dedup();
        are_identifiers(&ids);
        Ok(Frontier { ids })
    }

    /// The number of members. It takes no memory.
    pub fn len(&self) -> u32
        ensures len { result ≡ length self.now }
        ensures valid { IsFrontier self.now }
    {
        self.ids.len() as u32
    }

    /// The member at place `n` in rising order, counted from 0, or `None` past the last. It takes no memory.
    pub fn get(&self, n: u32) -> Option<&Id>
        ensures value { option_copied result ≡ slice_get self.now n }
    {
        self.ids.get(n as usize)
    }

    /// Whether the identifier is a member. It takes no memory.
    pub fn holds(&self, id: &Id) -> bool
        ensures holds { IsTrue result ↔ Contains self.now id.now }
    {
        self.ids.contains(id)
    }

    /// The same set once more.
    ///
    /// Errors: `Memory` where there was none for the copy.
    pub fn copy(&self, alloc: Global) -> Result<Frontier, Memory>
        ensures ok { IfOk result (λ frontier. frontier ≡ self.now) }
    {
        let mut ids = Vec::with_capacity(alloc, self.ids.len())?;
        for id in &self.ids {
            ids.push(id.copy(alloc)?)?;
        }
        Ok(Frontier { ids })
    }
}

/// What the type of each of these says of its bytes. Nothing is done when it runs.
fn are_identifiers(ids: &[Id])
    ensures valid { AllByRecursion IsIdentifier ids.now }
{
    for id in ids {
        id.bytes();
    }
}
