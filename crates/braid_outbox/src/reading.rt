//! Where a replica resumes, and what is read of all its updates.

ghost use Rattle.std.specs.Prelude.{◌≡◌, ◌↔◌, ◌<◌, ◌≤◌, ◌^◌, ℕ, List, IfOk, Contains, take, vec_len};
ghost use Rattle.braid_ids.specs.Frontiers.{IsRising};
ghost use Rattle.braid_graph.specs.Frontiers.{IsFrontierOf};
ghost use Rattle.braid_text.specs.Histories.{graph_of, text_of};
ghost use Rattle.braid_text.specs.Digested.{digest_at};
ghost use Rattle.braid_outbox.specs.Replicas.{all_of, frontier, resume_of};
ghost use Rattle.braid_outbox.specs.Heads.{IsHead};

use crate::replica::Replica;
use braid_change::{MOST_PARENTS, Text};
use braid_ids::{Frontier, Id, Memory};
use std::alloc::Global;

impl Replica {
    /// Where the replica resumes: the frontier of its confirmed updates, or the 32 least identifiers of it.
    ///
    /// It looks at no update that came before the oldest member of that frontier.
    ///
    /// Errors: `Memory` where there was none.
    pub fn resume(&self, alloc: Global) -> Result<Frontier, Memory>
        ensures ok { IfOk result (λ at. at ≡ resume_of self.now) }
    {
        let frontier = self.confirmed_frontier(alloc)?;
        let ids = least(alloc, &frontier)?;
        Frontier::of(ids)
    }

    /// The frontier of the confirmed updates.
    fn confirmed_frontier(&self, alloc: Global) -> Result<Frontier, Memory>
        ensures ok { IfOk result (IsFrontierOf (graph_of self.now.confirmed)) }
    {
        let ids = self.head_ids(alloc)?;
        Frontier::of(ids)
    }

    /// The identifiers of the confirmed updates that no confirmed one names as a parent, the newest first.
    fn head_ids(&self, alloc: Global) -> Result<Vec<Id>, Memory>
        ensures ok { IfOk result (λ ids. (v : List ℕ) → Contains ids.items v
            ↔ IsHead (graph_of self.now.confirmed) v) }
        ensures few { IfOk result (λ ids. vec_len ids < 2 ^ 32) }
    {
        let numbers = self.order.heads.numbers(alloc)?;
        let mut ids = Vec::with_capacity(alloc, numbers.len())?;
        for number in numbers.as_slice() {
            let Some(update) = self.resource.entry(*number) else {
                unreachable!()
            };
            ids.push(update.id().copy(alloc)?)?;
        }
        Ok(ids)
    }

    /// The frontier of all updates: the identifiers that are no update's parent.
    ///
    /// Errors: `Memory` where there was none for the copies.
    pub fn frontier(&self, alloc: Global) -> Result<Frontier, Memory>
        ensures ok { IfOk result (λ at. at ≡ frontier (all_of self.now)) }
    {
        self.resource.frontier(alloc)
    }

    /// The text at the frontier of all updates.
    ///
    /// Errors: `Memory` where there was none.
    pub fn body(&self, alloc: Global) -> Result<Text, Memory>
        ensures ok { IfOk result (λ text. text ≡ text_of (all_of self.now)) }
    {
        let frontier = self.resource.frontier(alloc)?;
        match self.resource.read(alloc, &frontier) {
            Ok(text) => Ok(text),
            // The frontier's members are held, so only memory can be wanting.
            Err(_) => Err(Memory),
        }
    }

    /// The digest of all updates: SHA-256 (FIPS 180-4) of their canonical spellings, by rising identifier.
    ///
    /// Errors: `Memory` where there was none.
    pub fn digest(&self, alloc: Global) -> Result<[u8; 32], Memory>
        ensures ok { IfOk result (λ digest. digest ≡ digest_at (all_of self.now)) }
    {
        self.resource.digest(alloc)
    }
}

/// The 32 least members of a frontier, or all where there are fewer.
pub(crate) fn least(alloc: Global, of: &Frontier) -> Result<Vec<Id>, Memory>
    ensures ok { IfOk result (λ ids. ids.items ≡ take 32 of.now) }
    ensures few { IfOk result (λ ids. vec_len ids ≤ 32) }
    ensures rising { IsRising of.now }
{
    let mut ids = Vec::new(alloc);
    for n in 0..of.len() {
        if n == MOST_PARENTS {
            return Ok(ids);
        }
        let Some(id) = of.get(n) else { unreachable!() };
        let copy = id.copy(alloc)?;
        ids.push(copy)?;
    }
    Ok(ids)
}
