//! A replica of two lists of updates.

ghost use Rattle.std.specs.Prelude.{◌≡◌, ◌<◌, ◌+◌, ◌-◌, ◌^◌, ◌++◌, ◌∷◌, ◌↔◌, [], ℕ, List, Some, IsTrue, Ok, IfOk, IfErr, OnOk, Contains, length, true, false};
ghost use Rattle.braid_outbox.specs.Made.{IsFine, IsFirstFault, IsBadReplica, MakesReplica};
ghost use Rattle.braid_outbox.specs.Writes.{last_id, with_unsent};

use crate::faults::BadReplica;
use crate::replica::{ANY_WIDTH, Replica};
use braid_change::Update;
use braid_ids::{Agent, Memory};
use braid_text::{Accept, REPLICA_LIMITS};
use std::alloc::Global;

impl Replica {
    /// The replica of these confirmed and unsent updates, which are fewer than 4,294,967,296 together.
    ///
    /// They are taken one after the other, and copied.
    ///
    /// Errors: `Entry` with the first entry that is not legal after those before it, passes a limit, or is unsent and
    /// does not name the unsent one before it; with the last entry where the frontier is too wide; or `Memory`.
    pub fn of(
        alloc: Global,
        agent: Agent,
        confirmed: Vec<Update>,
        unsent: Vec<Update>,
    ) -> Result<Replica, BadReplica>
        requires counted { length confirmed.items + length unsent.items < 2 ^ 32 }
        ensures ok { IfOk result (λ replica. replica ≡ record
            { agent = agent; confirmed = confirmed.items; unsent = unsent.items }) }
        ensures made { OnOk result (MakesReplica confirmed.items unsent.items) }
        ensures fault { IfErr result (λ fault. IsBadReplica confirmed.items unsent.items fault) }
    {
        let mut replica = Replica::new(alloc, agent);
        replica.load_confirmed(alloc, &confirmed)?;
        replica.load_unsent(alloc, &unsent)?;
        let entries = replica.confirmed() + replica.unsent();
        if replica.width() as u64 > REPLICA_LIMITS.width {
            return Err(BadReplica::Entry { n: entries - 1 });
        }
        Ok(replica)
    }

    /// Takes these updates as the confirmed ones.
    fn load_confirmed(&mut self, alloc: Global, updates: &[Update]) -> Result<(), BadReplica>
        requires none { self.old.confirmed ≡ [] }
        requires unsent { self.old.unsent ≡ [] }
        requires counted { length updates.now < 2 ^ 32 }
        ensures ok { OnOk result (self.new ≡ record { agent = self.old.agent; confirmed = updates.now; unsent = [] }) }
        ensures fault { IfErr result (λ fault. IsFirstFault updates.now [] fault) }
    {
        for (n, update) in updates.iter().enumerate() {
            match self.takes_confirmed(alloc, update) {
                Ok(true) => {}
                Ok(false) => return Err(BadReplica::Entry { n: n as u32 }),
                Err(_) => return Err(BadReplica::Memory),
            }
        }
        Ok(())
    }

    /// Takes these updates as the unsent ones.
    fn load_unsent(&mut self, alloc: Global, updates: &[Update]) -> Result<(), BadReplica>
        requires none { self.old.unsent ≡ [] }
        requires counted { length self.old.confirmed + length updates.now < 2 ^ 32 }
        ensures ok { OnOk result (self.new ≡ record
            { agent = self.old.agent; confirmed = self.old.confirmed; unsent = updates.now }) }
        ensures fault { IfErr result (λ fault. IsFirstFault self.old.confirmed updates.now fault) }
    {
        let base = self.confirmed();
        for (n, update) in updates.iter().enumerate() {
            match self.takes_unsent(alloc, update) {
                Ok(true) => {}
                Ok(false) => return Err(BadReplica::Entry { n: base + n as u32 }),
                Err(_) => return Err(BadReplica::Memory),
            }
        }
        Ok(())
    }

    /// Takes a copy of an update as the newest confirmed one, where that leaves a replica but for the width.
    ///
    /// Errors: `Memory` where there was none.
    fn takes_confirmed(&mut self, alloc: Global, update: &Update) -> Result<bool, Memory>
        requires none { self.old.unsent ≡ [] }
        ensures taken { result ≡ Ok true → self.new ≡ record
            { agent = self.old.agent; confirmed = self.old.confirmed ++ update.now ∷ []; unsent = [] } }
        ensures fine { IsFine self.old.confirmed [] }
        ensures refused { result ≡ Ok false → IsFine (self.old.confirmed ++ update.now ∷ []) [] → ⊥ }
    {
        // It gives the proof what every replica keeps.
        let _count = self.confirmed();
        if let Some(_) = self.least_unconfirmed(update.parents()) {
            return Ok(false);
        }
        let copy = update.copy(alloc)?;
        match self.add_confirmed(alloc, copy, ANY_WIDTH) {
            Accept::New => Ok(true),
            Accept::Memory => Err(Memory),
            _ => Ok(false),
        }
    }

    /// Takes a copy of an update as the newest unsent one, where that leaves a replica but for the width.
    ///
    /// Errors: `Memory` where there was none.
    fn takes_unsent(&mut self, alloc: Global, update: &Update) -> Result<bool, Memory>
        ensures taken { result ≡ Ok true → self.new ≡ with_unsent self.old (update.now ∷ []) }
        ensures fine { IsFine self.old.confirmed self.old.unsent }
        ensures refused { result ≡ Ok false → IsFine self.old.confirmed (self.old.unsent ++ update.now ∷ []) → ⊥ }
    {
        // It gives the proof what every replica keeps.
        let _count = self.confirmed();
        if !self.is_chained(update) {
            return Ok(false);
        }
        let copy = update.copy(alloc)?;
        match self.add_unsent(alloc, copy, ANY_WIDTH) {
            Accept::New => Ok(true),
            Accept::Memory => Err(Memory),
            _ => Ok(false),
        }
    }

    /// Whether an update names the last unsent one among its parents, where there is one.
    fn is_chained(&self, update: &Update) -> bool
        ensures chained { IsTrue result ↔ ((v : List ℕ) → last_id self.now.unsent ≡ Some v →
            Contains update.now.parents v) }
    {
        match self.last() {
            Some(last) => update.parents().holds(last),
            None => true,
        }
    }
}
