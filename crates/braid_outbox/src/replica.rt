ghost use Rattle.std.specs.Prelude.{◌≡◌, ◌≢◌, ◌≤◌, ◌<◌, ◌++◌, ◌∷◌, [], ℕ, List, Some, Contains, length, slice_get};
ghost use Rattle.std.specs.Option.{option_copied};
ghost use Rattle.braid_ids.specs.Agents.{IsAgent};
ghost use Rattle.braid_ids.specs.Frontiers.{IsRising};
ghost use Rattle.braid_graph.specs.Entries.{HoldsAll};
ghost use Rattle.braid_text.specs.Histories.{graph_of};
ghost use Rattle.braid_text.specs.Answers.{answer_to, room_of};
ghost use Rattle.braid_text.specs.declared.accept.Accept.TheVariants.{New, Memory as NoMemory};
ghost use Rattle.braid_outbox.specs.Replicas.{IsSound, all_of, limits_with};
ghost use Rattle.braid_outbox.specs.Writes.{last_id, with_unsent};
ghost use Rattle.braid_outbox.specs.Learns.{confirm, has_first, acked};
ghost use Rattle.braid_outbox.specs.Made.{IsFine};

use crate::order::Order;
use braid_change::Update;
use braid_ids::{Agent, Id, Memory};
use braid_text::{Accept, REPLICA_LIMITS, Resource, Room};
use std::alloc::Global;
use std::marker::Model;

/// A width that no history within the other limits has.
pub const ANY_WIDTH: u64 = 1_000_000;

/// A replica of one text: an agent, the updates that are known to be taken, and the agent's own that are not yet.
///
/// All updates are a legal history, the confirmed ones before the unsent ones, and each unsent one after the first
/// names the one before it among its parents.
#[derive(Drop)]
pub struct Replica {
    pub(crate) agent: Agent,
    /// All updates, in the order in which they came.
    pub(crate) resource: Resource,
    /// Their arrival numbers, in the order of the two lists.
    pub(crate) order: Order,
    /// The greatest number of the agent's versions among all updates, 0 where there is none.
    pub(crate) greatest: u64,
}

impl Model for Replica {
    ghost use Rattle.braid_outbox.specs.Replicas.{ReplicaView};
    ghost use Rattle.braid_outbox.specs.Kept.{replica_in};
    ghost use Rattle.braid_outbox.specs.Heads.{IsWhole};

    ghost Value = { ReplicaView };

    ghost view = { λ r. replica_in r.agent r.resource r.order.numbers.items r.order.confirmed };

    ghost invariant = { λ r. IsWhole r.agent r.resource r.order.numbers.items r.order.confirmed r.order.flags.items
        r.order.heads.flags.items r.greatest };
}

impl Replica {
    /// The replica of an agent that has no updates. It takes no memory.
    pub fn new(alloc: Global, agent: Agent) -> Replica
        ensures none { result ≡ record { agent = agent; confirmed = []; unsent = [] } }
    {
        Replica {
            agent,
            resource: Resource::new(alloc),
            order: Order::new(alloc),
            greatest: 0,
        }
    }

    /// The agent. It takes no memory.
    pub fn agent(&self) -> &Agent
        ensures agent { result.now ≡ self.now.agent }
        ensures valid { IsAgent self.now.agent }
    {
        // An agent's bytes are read so that a proof learns what they are.
        let _bytes = self.agent.bytes();
        &self.agent
    }

    /// How many updates are confirmed. It takes no memory.
    pub fn confirmed(&self) -> u32
        ensures count { result ≡ length self.now.confirmed }
        ensures sound { IsSound self.now }
        ensures few { length (all_of self.now) ≤ 524288 }
        ensures fine { IsFine self.now.confirmed self.now.unsent }
    {
        self.order.confirmed
    }

    /// How many updates are unsent. It takes no memory.
    pub fn unsent(&self) -> u32
        ensures count { result ≡ length self.now.unsent }
    {
        self.order.numbers.len() as u32 - self.order.confirmed
    }

    /// The update with this number, counted from 0 through the confirmed and then the unsent ones. It takes no memory.
    pub fn entry(&self, n: u32) -> Option<&Update>
        ensures value { option_copied result ≡ slice_get (all_of self.now) n }
    {
        let Some(number) = self.order.numbers.get(n as usize) else {
            return None;
        };
        self.resource.entry(*number)
    }

    /// The first unsent update, which is the next to be sent. It takes no memory.
    pub fn next_out(&self) -> Option<&Update>
        ensures value { option_copied result ≡ slice_get self.now.unsent 0 }
    {
        self.entry(self.order.confirmed)
    }

    /// What there is room for beside all updates, within the limits of a replica and with this width.
    pub(crate) fn room(&self, width: u64) -> Room
        ensures room { result ≡ room_of (limits_with width) (all_of self.now) }
    {
        Room {
            versions: REPLICA_LIMITS.versions - self.resource.entries() as u64,
            elements: REPLICA_LIMITS.elements - self.resource.elements() as u64,
            deletions: REPLICA_LIMITS.deletions - self.resource.deletions() as u64,
            width,
        }
    }

    /// Takes an update to the end of the confirmed ones, or says why not. Its parents are confirmed.
    pub(crate) fn add_confirmed(&mut self, alloc: Global, update: Update, width: u64) -> Accept
        requires parents { HoldsAll (graph_of self.old.confirmed) update.parents }
        ensures answer { result ≢ NoMemory → result ≡ answer_to (room_of (limits_with width) (all_of self.old))
            (all_of self.old) update }
        ensures taken { result ≡ New → self.new ≡ record {
          agent = self.old.agent;
          confirmed = self.old.confirmed
              ++ update ∷ [];
          unsent = self.old.unsent;
        } }
        ensures kept { result ≢ New → self.new ≡ self.old }
    {
        read_parents(&update);
        let room = self.room(width);
        let number = self.number_of(update.id());
        let place = self.resource.entries();
        let Ok(()) = self.order.reserve() else {
            return Accept::Memory;
        };
        match self.resource.accept(alloc, update, &room) {
            Accept::New => {
                self.order.add_confirmed();
                self.order.heads.clear_parents(&self.resource, place);
                self.greatest = self.greatest.max(number);
                Accept::New
            }
            refusal => refusal,
        }
    }

    /// Takes an update to the end of the unsent ones, or says why not. It names the last unsent one, where there is one.
    pub(crate) fn add_unsent(&mut self, alloc: Global, update: Update, width: u64) -> Accept
        requires chained { (v : List ℕ) → last_id self.old.unsent ≡ Some v → Contains update.parents v }
        ensures answer { result ≢ NoMemory → result ≡ answer_to (room_of (limits_with width) (all_of self.old))
            (all_of self.old) update }
        ensures taken { result ≡ New → self.new ≡ with_unsent self.old (update ∷ []) }
        ensures kept { result ≢ New → self.new ≡ self.old }
    {
        read_parents(&update);
        let room = self.room(width);
        let number = self.number_of(update.id());
        let Ok(()) = self.order.reserve() else {
            return Accept::Memory;
        };
        match self.resource.accept(alloc, update, &room) {
            Accept::New => {
                self.order.add_unsent();
                self.greatest = self.greatest.max(number);
                Accept::New
            }
            refusal => refusal,
        }
    }

    /// Confirms the first unsent update. There is one. It takes no memory.
    pub(crate) fn confirm_first(&mut self)
        requires some { 0 < length self.old.unsent }
        ensures moved { self.new ≡ confirm self.old self.old.unsent }
    {
        let place = self.order.confirm_first();
        self.order.heads.clear_parents(&self.resource, place);
    }

    /// Confirms the first unsent update where it has this identifier, and says whether it has. It takes no memory: an
    /// update's place was made when it came.
    pub fn acked(&mut self, id: &Id) -> bool
        ensures moved { self.new ≡ acked id.now self.old }
        ensures told { result ≡ has_first id.now self.old.unsent }
    {
        let Some(first) = self.next_out() else {
            return false;
        };
        if first.id() != id {
            return false;
        }
        self.confirm_first();
        true
    }
}

/// Each update's parents rise: a proof learns it where they are read.
fn read_parents(update: &Update)
    ensures rising { IsRising update.now.parents }
{
    let _len = update.parents().len();
}
