//! The pure merges that a replica writes before a change, while its frontier has too many members.

ghost use Rattle.std.specs.Prelude.{◌≡◌, ◌<◌, ◌≤◌, ◌+◌, ◌^◌, ◌∷◌, ◌++◌, ℕ, List, [], IfOk, OnOk, OnErr, length, filter, not, take, vec_len, unwrap_or};
ghost use Rattle.std.specs.Option.{option_copied};
ghost use Rattle.std.specs.Ordering.{is_eq};
ghost use Rattle.braid_ids.specs.Identifiers.{id_cmp};
ghost use Rattle.braid_outbox.specs.Replicas.{all_of, log_of, frontier, number, greatest_number};
ghost use Rattle.braid_outbox.specs.Writes.{last_id, merged_of, merge_parents, merges_needed, merges_of, next_merge, with_unsent};

use crate::reading::least;
use crate::replica::{ANY_WIDTH, Replica};
use braid_change::{Change, ListPatch, MOST_PARENTS, Update};
use braid_ids::{Frontier, Id, Memory};
use braid_text::Accept;
use std::alloc::Global;

impl Replica {
    /// How many pure merges a write makes first: each takes 32 members of the frontier and leaves one.
    pub(crate) fn merges_needed(&self) -> u64
        ensures count { result ≡ merges_needed (length (frontier (all_of self.now))) }
        ensures few { result < 2 ^ 31 }
    {
        let width = self.width() as u64;
        width.saturating_sub(2) / 31
    }

    /// How many identifiers the frontier of all updates has.
    pub(crate) fn width(&self) -> u32
        ensures width { result ≡ length (frontier (all_of self.now)) }
    {
        self.resource.width()
    }

    /// The greatest number of the agent's versions, or 0 where there is none.
    pub(crate) fn greatest_number(&self) -> u64
        ensures number { result ≡ greatest_number self.now.agent (log_of self.now) }
    {
        self.greatest
    }

    /// The number of the agent's version with this identifier, or 0 where it is none.
    pub(crate) fn number_of(&self, id: &Id) -> u64
        ensures number { result ≡ unwrap_or (number self.now.agent id.now) 0 }
    {
        match self.agent.number(id) {
            Some(number) => number,
            None => 0,
        }
    }

    /// Adds pure merges, the first of them with this number: as many as it takes until the frontier has at most 32
    /// members.
    ///
    /// Errors: `Memory` where there was none. The merges that were added already stay.
    pub(crate) fn add_merges(
        &mut self,
        alloc: Global,
        count: u64,
        number: u64,
    ) -> Result<(), Memory>
        requires count { count ≡ merges_needed (length (frontier (all_of self.old))) }
        requires number { number ≡ 1 + greatest_number self.old.agent (log_of self.old) }
        requires numbers { number + count < 2 ^ 64 }
        ensures ok { OnOk result (self.new ≡ with_unsent self.old (merges_of self.old)) }
        ensures err { OnErr result ((added : ℕ) × (self.new ≡ with_unsent self.old (take added (merges_of self.old)))) }
    {
        // They give the proof what every replica keeps.
        let _agent = self.agent();
        let _confirmed = self.confirmed();
        for n in 0..count {
            self.add_merge(alloc, number + n)?;
        }
        Ok(())
    }

    /// Adds the next pure merge, which has this number.
    ///
    /// Errors: `Memory` where there was none. Nothing is changed then.
    fn add_merge(&mut self, alloc: Global, number: u64) -> Result<(), Memory>
        requires number { number ≡ 1 + greatest_number self.old.agent (log_of self.old) }
        ensures ok { OnOk result (self.new ≡ with_unsent self.old (next_merge self.old ∷ [])) }
        ensures err { OnErr result (self.new ≡ self.old) }
    {
        let merge = self.merge(alloc, number)?;
        match self.add_unsent(alloc, merge, ANY_WIDTH) {
            Accept::New => Ok(()),
            // It may follow, and there is room for it: only memory can be wanting.
            _ => Err(Memory),
        }
    }

    /// The next pure merge, which has this number.
    fn merge(&self, alloc: Global, number: u64) -> Result<Update, Memory>
        requires number { number ≡ 1 + greatest_number self.now.agent (log_of self.now) }
        ensures ok { IfOk result (λ merge. merge ≡ next_merge self.now) }
    {
        let id = self.agent.name(alloc, number)?;
        let parents = self.merge_parents(alloc)?;
        let change = Change::Patches(ListPatch::of(Vec::new(alloc)));
        match Update::build(id, parents, change) {
            Ok(merge) => Ok(merge),
            // It has at most 32 parents and no patches, so it is built.
            Err(_) => Err(Memory),
        }
    }

    /// The parents of the next pure merge: the last unsent update, where there is one, and the least of the others.
    fn merge_parents(&self, alloc: Global) -> Result<Frontier, Memory>
        ensures ok { IfOk result (λ parents. parents ≡ merge_parents (last_id self.now.unsent) (frontier
            (log_of self.now))) }
    {
        let frontier = self.frontier(alloc)?;
        let ids = self.merged_ids(alloc, &frontier)?;
        Frontier::of(ids)
    }

    /// 32 members of a frontier: the last unsent update, where there is one, and the least of the others.
    fn merged_ids(&self, alloc: Global, of: &Frontier) -> Result<Vec<Id>, Memory>
        ensures ok { IfOk result (λ ids. ids.items ≡ merged_of (last_id self.now.unsent) of.now) }
        ensures few { IfOk result (λ ids. vec_len ids ≤ 32) }
    {
        match self.last() {
            Some(last) => merged(alloc, last, of),
            None => least(alloc, of),
        }
    }

    /// The identifier of the last unsent update, where there is one.
    pub(crate) fn last(&self) -> Option<&Id>
        ensures last { option_copied result ≡ last_id self.now.unsent }
    {
        let unsent = self.unsent();
        if unsent == 0 {
            return None;
        }
        match self.entry(self.confirmed() + unsent - 1) {
            Some(last) => Some(last.id()),
            None => None,
        }
    }
}

/// An identifier, and the 31 least other members of a frontier, or all others where there are fewer.
fn merged(alloc: Global, last: &Id, of: &Frontier) -> Result<Vec<Id>, Memory>
    ensures ok { IfOk result (λ ids. ids.items ≡ last.now ∷ take 31 (filter (λ (w : List ℕ). not (is_eq
        (id_cmp last.now w))) of.now)) }
    ensures few { IfOk result (λ ids. vec_len ids ≤ 32) }
{
    let mut ids = Vec::new(alloc);
    ids.push(last.copy(alloc)?)?;
    for n in 0..of.len() {
        if ids.len() == MOST_PARENTS as usize {
            return Ok(ids);
        }
        let Some(id) = of.get(n) else { unreachable!() };
        push_other(alloc, &mut ids, id, last)?;
    }
    Ok(ids)
}

/// Pushes an identifier, where it is not that of the last unsent update.
fn push_other(alloc: Global, ids: &mut Vec<Id>, id: &Id, last: &Id) -> Result<(), Memory>
    ensures ok { OnOk result (ids.new.items ≡ ids.old.items ++ filter (λ (w : List ℕ). not (is_eq
        (id_cmp last.now w))) (id.now ∷ [])) }
{
    if id != last {
        ids.push(id.copy(alloc)?)?;
        return Ok(());
    }
    Ok(())
}
