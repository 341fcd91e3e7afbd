//! What a replica answers to an update that it is given to learn.

ghost use Rattle.std.specs.Prelude.{◌≡◌, ◌≢◌, ◌↔◌, IsTrue, reverse};
ghost use Rattle.std.specs.Option.{option_copied};
ghost use Rattle.braid_graph.specs.Entries.{Holds, HoldsAll};
ghost use Rattle.braid_text.specs.Histories.{graph_of};
ghost use Rattle.braid_text.specs.Refusals.{first_missing};
ghost use Rattle.braid_text.specs.Rooms.{replica_limits};
ghost use Rattle.braid_outbox.specs.Replicas.{IsSound};
ghost use Rattle.braid_outbox.specs.Learns.{Judged, is_first, learn_answer, learn, told};
ghost use Rattle.braid_outbox.specs.Standings.{Stands};
ghost use Rattle.braid_outbox.specs.declared.learn.Learn.TheVariants.{Clash, UnknownParent, Memory};

use crate::learn::Learn;
use crate::replica::Replica;
use crate::standing::Standing;
use braid_change::Update;
use braid_ids::{Frontier, Id};
use braid_text::{Accept, REPLICA_LIMITS};
use std::alloc::Global;

impl Replica {
    /// Takes an update that the server sent as a confirmed one, or says why not: the first of `Learn`'s answers that
    /// holds, but New only where no other does.
    ///
    /// The first unsent update goes to the end of the confirmed ones where it is the same. A new update goes there
    /// where its parents are confirmed. The limits count both lists together.
    ///
    /// An answer other than New and Confirmed leaves the replica as it was; the update is dropped.
    pub fn learn(&mut self, alloc: Global, update: Update) -> Learn
        ensures answer { result ≢ Memory → result ≡ told replica_limits (learn_answer replica_limits self.old update) }
        ensures learnt { result ≢ Memory → self.new ≡ learn replica_limits self.old update }
        ensures kept { result ≡ Memory → self.new ≡ self.old }
    {
        match self.standing(&update) {
            Standing::First => {
                self.confirm_first();
                return Learn::Confirmed;
            }
            Standing::Confirmed => return Learn::Known,
            Standing::Other => return clash(alloc, update.id()),
            Standing::Next => {}
        }
        if let Some(id) = self.least_unconfirmed(update.parents()) {
            return unknown_parent(alloc, id);
        }
        learnt(self.add_confirmed(alloc, update, REPLICA_LIMITS.width))
    }

    /// How an update stands among the replica's.
    fn standing(&self, update: &Update) -> Standing
        ensures stands { Stands self.now update.now result }
        ensures sound { IsSound self.now }
    {
        let Some(n) = self.resource.find(update.id()) else {
            return Standing::Next;
        };
        let Some(held) = self.resource.entry(n) else {
            unreachable!()
        };
        if !held.same(update) {
            return Standing::Other;
        }
        if self.order.flags[n as usize] {
            return Standing::Confirmed;
        }
        if self.is_next(update) {
            Standing::First
        } else {
            Standing::Next
        }
    }

    /// Whether the update is the first unsent one.
    fn is_next(&self, update: &Update) -> bool
        ensures next { result ≡ is_first update.now self.now.unsent }
    {
        match self.next_out() {
            Some(first) => first.same(update),
            None => false,
        }
    }

    /// Whether an update with this identifier is confirmed, in expected constant time. It takes no memory.
    pub fn is_confirmed(&self, id: &Id) -> bool
        ensures confirmed { IsTrue result ↔ Holds (graph_of self.now.confirmed) id.now }
    {
        match self.resource.find(id) {
            Some(n) => self.order.flags[n as usize],
            None => false,
        }
    }

    /// The first member of a frontier that is not confirmed, which is the least such.
    pub(crate) fn least_unconfirmed<'a>(&self, of: &'a Frontier) -> Option<&'a Id>
        ensures least { option_copied result ≡ first_missing of.now (reverse self.now.confirmed) }
    {
        for i in 0..of.len() {
            let Some(id) = of.get(i) else { unreachable!() };
            if !self.is_confirmed(id) {
                return Some(id);
            }
        }
        None
    }

    /// Whether each member of a frontier is confirmed. It takes no memory.
    pub fn holds(&self, at: &Frontier) -> bool
        ensures holds { IsTrue result ↔ HoldsAll (graph_of self.now.confirmed) at.now }
    {
        match self.least_unconfirmed(at) {
            Some(_) => false,
            None => true,
        }
    }
}

/// The answer that names an update whose identifier another one has.
fn clash(alloc: Global, id: &Id) -> Learn
    ensures names { result ≢ Memory → result ≡ Clash id.now }
{
    match id.copy(alloc) {
        Ok(id) => Learn::Clash { id },
        Err(_) => Learn::Memory,
    }
}

/// The answer that names a parent which is not confirmed.
fn unknown_parent(alloc: Global, id: &Id) -> Learn
    ensures names { result ≢ Memory → result ≡ UnknownParent id.now }
{
    match id.copy(alloc) {
        Ok(id) => Learn::UnknownParent { id },
        Err(_) => Learn::Memory,
    }
}

/// A resource's answer as the replica's, which names the limit.
fn learnt(answer: Accept) -> Learn
    ensures told { result ≡ told replica_limits (Judged answer) }
{
    match answer {
        Accept::New => Learn::New,
        Accept::Known => Learn::Known,
        Accept::Clash { id } => Learn::Clash { id },
        Accept::UnknownParent { id } => Learn::UnknownParent { id },
        Accept::OutOfRange { patch, len } => Learn::OutOfRange { patch, len },
        Accept::Full { which, .. } => Learn::Full {
            which,
            limit: REPLICA_LIMITS.of(which),
        },
        Accept::Memory => Learn::Memory,
    }
}
