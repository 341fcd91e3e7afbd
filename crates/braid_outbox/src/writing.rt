//! What a replica writes of its own.

ghost use Rattle.std.specs.Prelude.{◌≡◌, ◌≢◌, ◌<◌, ◌+◌, ◌^◌, ◌∷◌, ℕ, [], true, IfOk, IfErr, OnOk, OnErr, IfSome, IfNone, IsSome, length, None};
ghost use Rattle.braid_ids.specs.Agents.{agent_name};
ghost use Rattle.braid_change.specs.Changes.{patches_of};
ghost use Rattle.braid_change.specs.Splices.{spliced};
ghost use Rattle.braid_text.specs.Histories.{text_of};
ghost use Rattle.braid_text.specs.Refusals.{first_full};
ghost use Rattle.braid_text.specs.Answers.{IsOver};
ghost use Rattle.braid_outbox.specs.Shapes.{is_change};
ghost use Rattle.braid_text.specs.Rooms.{replica_limits};
ghost use Rattle.braid_outbox.specs.Replicas.{all_of, log_of, frontier, greatest_number};
ghost use Rattle.braid_outbox.specs.Writes.{AddsMerges, IsWriteFault, is_written, last_number, merges_needed, next_in, with_unsent, write, write_needs};
ghost use Rattle.braid_outbox.specs.declared.faults.WriteFault.TheVariants.{Memory as NoMemory};

use crate::counting::{Counts, counts_of};
use crate::faults::WriteFault;
use crate::replica::{ANY_WIDTH, Replica};
use braid_change::{Change, SpliceFault, Update};
use braid_ids::{Frontier, Id, Memory};
use braid_text::{Accept, REPLICA_LIMITS, Room, Which};
use std::alloc::Global;

/// The numbers and the pure merges that a write takes.
#[derive(Drop)]
struct Plan {
    /// The number of its first update.
    number: u64,
    /// How many pure merges it makes before the change.
    merges: u64,
}

impl Replica {
    /// Writes a change as the newest unsent version, and answers its identifier.
    ///
    /// Its number is one more than the greatest of the agent's versions that the replica holds, and its parents are the
    /// frontier. While the frontier has more than 32 identifiers, a pure merge is added first: an update with no patches
    /// whose parents are the last unsent version, where there is one, and the least of the others, 32 together.
    ///
    /// It reads the text once and copies the change once.
    ///
    /// Errors: the first of `WriteFault` that holds. All but `Memory` are found before anything is added, and leave the
    /// replica as it was. At `Memory` the pure merges that were added already stay, and nothing else is changed.
    pub fn write(&mut self, alloc: Global, change: Change) -> Result<Id, WriteFault>
        requires counted { length (patches_of change) < 2 ^ 32 }
        ensures ok { IfOk result (λ id. id ≡ agent_name self.old.agent (last_number self.old)) }
        ensures due { OnOk result (is_written replica_limits self.old change ≡ true) }
        ensures written { OnOk result (self.new ≡ write replica_limits self.old change) }
        ensures fault { IfErr result (λ fault. IsWriteFault replica_limits self.old change fault) }
        ensures merged { OnErr result (AddsMerges replica_limits self.old change self.new) }
        ensures kept { IfErr result (λ fault. fault ≢ NoMemory → self.new ≡ self.old) }
    {
        // They give the proof what every replica keeps.
        let _agent = self.agent();
        let _confirmed = self.confirmed();
        let draft = self.draft(alloc, change)?;
        let plan = self.plan(alloc, draft.change())?;
        let Ok(()) = self.add_merges(alloc, plan.merges, plan.number) else {
            return Err(WriteFault::Memory);
        };
        let Ok(id) = self.add_change(alloc, draft.change(), plan.number + plan.merges) else {
            return Err(WriteFault::Memory);
        };
        Ok(id)
    }

    /// An update with this change and no parents, where the change has the shape that an update may have.
    fn draft(&self, alloc: Global, change: Change) -> Result<Update, WriteFault>
        requires counted { length (patches_of change) < 2 ^ 32 }
        ensures ok { IfOk result (λ draft. draft.change ≡ change) }
        ensures shaped { OnOk result (is_change change ≡ true) }
        ensures fault { IfErr result (λ fault. IsWriteFault replica_limits self.now change fault) }
    {
        let Ok(id) = self.agent.name(alloc, 1) else {
            return Err(WriteFault::Memory);
        };
        let Ok(parents) = Frontier::of(Vec::new(alloc)) else {
            return Err(WriteFault::Memory);
        };
        match Update::build(id, parents, change) {
            Ok(draft) => Ok(draft),
            Err(fault) => Err(WriteFault::Shape(fault)),
        }
    }

    /// The numbers and the pure merges that a change takes, where it is written.
    fn plan(&self, alloc: Global, change: &Change) -> Result<Plan, WriteFault>
        requires shaped { is_change change.now ≡ true }
        ensures merges { IfOk result (λ plan. plan.merges ≡ merges_needed (length (frontier (all_of self.now)))) }
        ensures number { IfOk result (λ plan. plan.number ≡ 1 + greatest_number self.now.agent (log_of self.now)) }
        ensures due { OnOk result (is_written replica_limits self.now change.now ≡ true) }
        ensures fault { IfErr result (λ fault. IsWriteFault replica_limits self.now change.now fault) }
    {
        let counts = self.counts(alloc, change)?;
        let merges = self.merges_needed();
        let greatest = self.greatest_number();
        let left = u64::MAX - greatest;
        if merges >= left {
            return Err(WriteFault::NumbersSpent);
        }
        let need = Room {
            versions: 1 + merges,
            elements: counts.inserted,
            deletions: counts.removed,
            width: 1,
        };
        let room = self.room(REPLICA_LIMITS.width);
        if let Some(which) = full(&need, &room) {
            return Err(WriteFault::Full {
                which,
                limit: REPLICA_LIMITS.of(which),
            });
        }
        Ok(Plan {
            number: greatest + 1,
            merges,
        })
    }

    /// How many characters a change inserts into the text and deletes from it.
    fn counts(&self, alloc: Global, change: &Change) -> Result<Counts, WriteFault>
        requires shaped { is_change change.now ≡ true }
        ensures elements { IfOk result (λ counts. counts.inserted ≡ (write_needs self.now change.now).elements) }
        ensures deletions { IfOk result (λ counts. counts.removed ≡ (write_needs self.now change.now).deletions) }
        ensures fits { OnOk result (IsSome (spliced (text_of (all_of self.now)) change.now)) }
        ensures fault { IfErr result (λ fault. IsWriteFault replica_limits self.now change.now fault) }
    {
        // It gives the proof what every replica keeps.
        let _confirmed = self.confirmed();
        let Ok(text) = self.body(alloc) else {
            return Err(WriteFault::Memory);
        };
        match counts_of(alloc, change, text.chars().len() as u32) {
            Ok(counts) => Ok(counts),
            Err(SpliceFault::OutOfRange { patch, len }) => {
                Err(WriteFault::OutOfRange { patch, len })
            }
            Err(SpliceFault::Memory) => Err(WriteFault::Memory),
        }
    }

    /// Adds a change at the frontier, with this number, and answers its identifier.
    ///
    /// Errors: `Memory` where there was none. Nothing is changed then.
    fn add_change(&mut self, alloc: Global, change: &Change, number: u64) -> Result<Id, Memory>
        requires shaped { is_change change.now ≡ true }
        requires number { number ≡ 1 + greatest_number self.old.agent (log_of self.old) }
        ensures ok { IfOk result (λ id. id ≡ agent_name self.old.agent number) }
        ensures added { OnOk result (self.new ≡ with_unsent self.old (next_in self.old.agent (log_of self.old)
            (frontier (log_of self.old)) change.now ∷ [])) }
        ensures err { OnErr result (self.new ≡ self.old) }
    {
        // It gives the proof what every replica keeps.
        let _confirmed = self.confirmed();
        let id = self.agent.name(alloc, number)?;
        let name = id.copy(alloc)?;
        let parents = self.frontier(alloc)?;
        let copy = change.copy(alloc)?;
        let Ok(update) = Update::build(id, parents, copy) else {
            // The frontier has at most 32 members by now, so it is built.
            return Err(Memory);
        };
        match self.add_unsent(alloc, update, ANY_WIDTH) {
            Accept::New => Ok(name),
            // It may follow, and its room was judged before: only memory can be wanting.
            _ => Err(Memory),
        }
    }
}

/// The first count, in the order of `Which`, of which more is needed than there is room.
fn full(need: &Room, room: &Room) -> Option<Which>
    ensures over { IfSome result (λ which. (n : ℕ) × (left : ℕ) × IsOver need.now room.now which n left) }
    ensures fits { IfNone result (first_full need.now room.now ≡ None) }
{
    if need.versions > room.versions {
        return Some(Which::Versions);
    }
    if need.elements > room.elements {
        return Some(Which::Elements);
    }
    if need.deletions > room.deletions {
        return Some(Which::Deletions);
    }
    if need.width > room.width {
        return Some(Which::Width);
    }
    None
}
