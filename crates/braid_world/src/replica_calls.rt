//! The calls of events on replicas: one function an event.

ghost use Rattle.std.specs.Prelude.{◌≡◌, ◌≢◌, ◌<◌, ◌⊎◌, IfOk, OnOk, OnErr, slice_get};
ghost use Rattle.std.specs.Option.{option_copied, option_map, option_and_then};
ghost use Rattle.std.specs.List.{AllByRecursion};
ghost use Rattle.braid_store.specs.Books.{of_path};
ghost use Rattle.braid_text.specs.Rooms.{replica_limits};
ghost use Rattle.braid_outbox.specs.Replicas.{ReplicaView, resume_of};
ghost use Rattle.braid_outbox.specs.Writes.{AddsMerges, write};
ghost use Rattle.braid_outbox.specs.declared.faults.WriteFault.TheVariants.{Memory as NoMemory};
ghost use Rattle.braid_outbox.specs.Learns.{learn};
ghost use Rattle.braid_outbox.specs.Worlds.{kept_of};
ghost use Rattle.braid_world.specs.Events.{KeepsReplica, HoldsReading, MergesAt, changed};
ghost use Rattle.braid_world.specs.ReplicaCalls.{carried, returned, acknowledged};

use crate::book_calls::nth_sent;
use braid_change::{Change, Update};
use braid_ids::{Bytes, Frontier, Memory};
use braid_outbox::laws::{Answered, Side};
use braid_outbox::{BadReplica, Learn, Replica, WriteFault};
use braid_store::Book;
use std::alloc::Global;

/// A replica, where there is one, writes a change.
pub(crate) fn write_at(
    alloc: Global,
    replicas: &mut [Replica],
    a: u32,
    change: Change,
) -> Result<(), Memory>
    ensures ok { OnOk result (replicas.new
        ≡ changed a (λ (r : ReplicaView). write replica_limits r change) replicas.old) }
    ensures err { OnErr result ((replicas.new ≡ replicas.old) ⊎ MergesAt a change replicas.old replicas.new) }
{
    let at = a as usize;
    if at >= replicas.len() {
        return Ok(());
    }
    write_one(alloc, &mut replicas[at], change)
}

/// A replica writes a change.
fn write_one(alloc: Global, replica: &mut Replica, change: Change) -> Result<(), Memory>
    ensures ok { OnOk result (replica.new ≡ write replica_limits replica.old change) }
    ensures err { OnErr result (AddsMerges replica_limits replica.old change replica.new) }
{
    if change.patches().len() > u32::MAX as usize {
        // So many are not counted, and no update has them.
        return Ok(());
    }
    match replica.write(alloc, change) {
        Ok(_) => Ok(()),
        Err(fault) => refused(fault),
    }
}

/// What a refused write is: nothing, unless there was no memory.
fn refused(fault: WriteFault) -> Result<(), Memory>
    ensures ok { OnOk result (fault ≢ NoMemory) }
{
    match fault {
        WriteFault::Memory => Err(Memory),
        _ => Ok(()),
    }
}

/// Where a replica, where there is one, resumes.
pub(crate) fn resume_at(
    alloc: Global,
    replicas: &[Replica],
    a: u32,
) -> Result<Option<Frontier>, Memory>
    ensures ok { IfOk result (λ from. from ≡ option_map resume_of (slice_get replicas.now a)) }
{
    let Some(replica) = replicas.get(a as usize) else {
        return Ok(None);
    };
    let from = replica.resume(alloc)?;
    Ok(Some(from))
}

/// The first unsent update of a replica, where there is one.
pub(crate) fn head_at(alloc: Global, replicas: &[Replica], a: u32) -> Result<Option<Update>, Memory>
    ensures ok { IfOk result (λ head. head
        ≡ option_and_then (λ (r : ReplicaView). slice_get r.unsent 0) (slice_get replicas.now a)) }
{
    let Some(replica) = replicas.get(a as usize) else {
        return Ok(None);
    };
    let Some(first) = replica.next_out() else {
        return Ok(None);
    };
    let head = first.copy(alloc)?;
    Ok(Some(head))
}

/// A replica learns the update that its side's subscription, where it has one, carries next.
pub(crate) fn carry_at(
    alloc: Global,
    book: &Book,
    path: &Bytes,
    replicas: &mut [Replica],
    sides: &[Side],
    a: u32,
) -> Result<(), Memory>
    requires readings { AllByRecursion (HoldsReading (of_path book.now path.now)) sides.now }
    ensures ok { OnOk result (replicas.new ≡ carried a (of_path book.now path.now) (slice_get sides.now a) replicas.old) }
    ensures err { OnErr result (replicas.new ≡ replicas.old) }
{
    let Some(side) = sides.get(a as usize) else {
        return Ok(());
    };
    let Some(reading) = &side.reading else {
        return Ok(());
    };
    let Some(update) = nth_sent(alloc, book, path, &reading.from, reading.position)? else {
        return Ok(());
    };
    learn_at(alloc, replicas, a, update)
}

/// A replica, where there is one, learns an update.
fn learn_at(alloc: Global, replicas: &mut [Replica], a: u32, update: Update) -> Result<(), Memory>
    ensures ok { OnOk result (replicas.new
        ≡ changed a (λ (r : ReplicaView). learn replica_limits r update) replicas.old) }
    ensures err { OnErr result (replicas.new ≡ replicas.old) }
{
    let at = a as usize;
    if at >= replicas.len() {
        return Ok(());
    }
    learn_one(alloc, &mut replicas[at], update)
}

/// A replica learns an update, or refuses it.
fn learn_one(alloc: Global, replica: &mut Replica, update: Update) -> Result<(), Memory>
    ensures ok { OnOk result (replica.new ≡ learn replica_limits replica.old update) }
    ensures err { OnErr result (replica.new ≡ replica.old) }
{
    match replica.learn(alloc, update) {
        Learn::Memory => Err(Memory),
        _ => Ok(()),
    }
}

/// A replica becomes the kept copy of its side.
pub(crate) fn go_back(
    alloc: Global,
    replicas: &mut [Replica],
    sides: &[Side],
    a: u32,
) -> Result<(), Memory>
    requires kept { AllByRecursion KeepsReplica sides.now }
    ensures ok { OnOk result (replicas.new ≡ returned a (slice_get sides.now a) replicas.old) }
    ensures err { OnErr result (replicas.new ≡ replicas.old) }
{
    let Some(side) = sides.get(a as usize) else {
        return Ok(());
    };
    let kept = kept_replica(alloc, side)?;
    let at = a as usize;
    if at < replicas.len() {
        replicas[at] = kept;
    }
    Ok(())
}

/// The kept copy of a side as a replica.
fn kept_replica(alloc: Global, side: &Side) -> Result<Replica, Memory>
    requires kept { KeepsReplica side.now }
    ensures ok { IfOk result (λ replica. replica ≡ kept_of side.now) }
{
    let agent = side.agent.copy(alloc)?;
    let confirmed = copies(alloc, side.kept_confirmed.get())?;
    let unsent = copies(alloc, side.kept_unsent.get())?;
    match Replica::of(alloc, agent, confirmed, unsent) {
        Ok(replica) => Ok(replica),
        Err(BadReplica::Memory) => Err(Memory),
        // The copy is a replica's.
        Err(BadReplica::Entry { .. }) => unreachable!(),
    }
}

/// The same updates once more.
pub(crate) fn copies(alloc: Global, updates: &[Update]) -> Result<Vec<Update>, Memory>
    ensures ok { IfOk result (λ copies. copies.items ≡ updates.now) }
{
    let mut copies = Vec::new(alloc);
    for update in updates {
        let copy = update.copy(alloc)?;
        copies.push(copy)?;
    }
    Ok(copies)
}

/// The reply with this number, where there is one.
pub(crate) fn reply_at(replies: &[Answered], k: u32) -> Option<&Answered>
    ensures found { option_copied result ≡ slice_get replies.now k }
{
    match replies.get(k as usize) {
        Some(reply) => Some(reply),
        None => None,
    }
}

/// The side that made a PUT is told of the reply to it, where there is one and its status is 200.
pub(crate) fn acknowledge(replicas: &mut [Replica], reply: Option<&Answered>)
    ensures told { replicas.new ≡ acknowledged (option_copied reply.entry) replicas.old }
{
    let Some(reply) = reply else {
        return;
    };
    if reply.status != 200 {
        return;
    }
    let at = reply.by as usize;
    if at < replicas.len() {
        let _moved = replicas[at].acked(&reply.id);
    }
}
