//! A book and replicas beside the world that they stand for, as the tests go from event to event.

ghost use Rattle.std.specs.Prelude.{◌≡◌, ◌≤◌, ◌+◌, ◌-◌, IfOk, OnOk, length, take, drop};
ghost use Rattle.std.specs.List.{AllByRecursion};
ghost use Rattle.braid_store.specs.Books.{of_path};
ghost use Rattle.braid_outbox.specs.Replicas.{all_of};
ghost use Rattle.braid_outbox.specs.Made.{MakesReplica};
ghost use Rattle.braid_outbox.specs.Worlds.{replica_of};
ghost use Rattle.braid_world.specs.Events.{replicas_of, KeepsReplica, HoldsFrom, HoldsReading};

use crate::replica_calls::copies;
use braid_change::{ListUpdate, Update};
use braid_ids::{Agent, Bytes, Frontier};
use braid_outbox::Replica;
use braid_outbox::laws::{
    Answered, ListAnswered, ListPosted, ListSide, Posted, Reading, Side, World,
};
use braid_store::Book;
use std::alloc::Global;
use std::test::Fail;

/// What a side has beside its replica: the kept copy, and the open subscription.
#[derive(Drop)]
pub(crate) struct Beside {
    pub(crate) confirmed: Vec<Update>,
    pub(crate) unsent: Vec<Update>,
    pub(crate) reading: Option<Reading>,
}

/// The updates of a replica from this number on, up to that one.
pub(crate) fn entries(
    alloc: Global,
    replica: &Replica,
    from: u32,
    to: u32,
) -> Result<Vec<Update>, Fail>
    requires rises { from ≤ to }
    ensures ok { IfOk result (λ us. us.items ≡ take (to - from) (drop from (all_of replica.now))) }
{
    let mut updates = Vec::new(alloc);
    for n in from..to {
        let Some(update) = replica.entry(n) else {
            return Err("no such update".into());
        };
        let copy = update.copy(alloc)?;
        updates.push(copy)?;
    }
    Ok(updates)
}

/// The confirmed and the unsent updates of a replica.
pub(crate) fn lists(alloc: Global, replica: &Replica) -> Result<(Vec<Update>, Vec<Update>), Fail>
    ensures ok { IfOk result (λ lists. (lists.0.items ≡ replica.now.confirmed) × (lists.1.items ≡ replica.now.unsent)) }
{
    let split = replica.confirmed();
    let end = split + replica.unsent();
    let confirmed = entries(alloc, replica, 0, split)?;
    let unsent = entries(alloc, replica, split, end)?;
    Ok((confirmed, unsent))
}

/// The updates of a path, in order of arrival.
fn history_of(alloc: Global, book: &Book, path: &Bytes) -> Result<Vec<Update>, Fail>
    ensures ok { IfOk result (λ us. us.items ≡ of_path book.now path.now) }
{
    let none = Frontier::of(Vec::new(alloc))?;
    let Ok(mut cursor) = book.open(alloc, path, &none) else {
        return Err("no cursor".into());
    };
    let mut updates = Vec::new(alloc);
    for _ in 0..=book.len() {
        let Some(update) = book.next_for(&mut cursor) else {
            return Ok(updates);
        };
        let copy = update.copy(alloc)?;
        updates.push(copy)?;
    }
    Err("more updates than entries".into())
}

/// A kept copy as two lists that make a replica.
fn kept_lists(
    alloc: Global,
    agent: Agent,
    beside: &Beside,
) -> Result<(Vec<Update>, Vec<Update>), Fail>
    ensures ok { IfOk result (λ lists. MakesReplica lists.0.items lists.1.items) }
{
    let confirmed = copies(alloc, &beside.confirmed)?;
    let unsent = copies(alloc, &beside.unsent)?;
    if confirmed.len() > 100 || unsent.len() > 100 {
        return Err("a long copy".into());
    }
    let replica = Replica::of(alloc, agent, confirmed, unsent)?;
    lists(alloc, &replica)
}

/// An open subscription whose frontier the path holds.
fn open_reading(
    alloc: Global,
    book: &Book,
    path: &Bytes,
    beside: &Beside,
) -> Result<Option<Reading>, Fail>
    ensures ok { IfOk result (λ reading. HoldsFrom (of_path book.now path.now) reading) }
{
    let Some(reading) = &beside.reading else {
        return Ok(None);
    };
    let Ok(_cursor) = book.open(alloc, path, &reading.from) else {
        return Err("a frontier that is not held".into());
    };
    let from = reading.from.copy(alloc)?;
    Ok(Some(Reading {
        from,
        position: reading.position,
    }))
}

/// The side of a replica.
fn side_of(
    alloc: Global,
    book: &Book,
    path: &Bytes,
    replica: &Replica,
    beside: &Beside,
) -> Result<Side, Fail>
    ensures same { IfOk result (λ side. replica_of side ≡ replica.now) }
    ensures kept { IfOk result (λ side. KeepsReplica side) }
    ensures reads { IfOk result (λ side. HoldsReading (of_path book.now path.now) side) }
{
    let agent = replica.agent().copy(alloc)?;
    let (confirmed, unsent) = lists(alloc, replica)?;
    let name = replica.agent().copy(alloc)?;
    let (kept_confirmed, kept_unsent) = kept_lists(alloc, name, beside)?;
    let reading = open_reading(alloc, book, path, beside)?;
    Ok(Side {
        agent,
        confirmed: ListUpdate::of(confirmed),
        unsent: ListUpdate::of(unsent),
        kept_confirmed: ListUpdate::of(kept_confirmed),
        kept_unsent: ListUpdate::of(kept_unsent),
        reading,
    })
}

/// The sides of replicas.
fn sides_of(
    alloc: Global,
    book: &Book,
    path: &Bytes,
    replicas: &[Replica],
    besides: &[Beside],
) -> Result<Vec<Side>, Fail>
    ensures same { IfOk result (λ sides. replicas_of sides.items ≡ replicas.now) }
    ensures kept { IfOk result (λ sides. AllByRecursion KeepsReplica sides.items) }
    ensures reads { IfOk result (λ sides. AllByRecursion (HoldsReading (of_path book.now path.now)) sides.items) }
{
    let mut sides = Vec::new(alloc);
    for (n, replica) in replicas.iter().enumerate() {
        let Some(beside) = besides.get(n) else {
            return Err("fewer sides than replicas".into());
        };
        let side = side_of(alloc, book, path, replica, beside)?;
        sides.push(side)?;
    }
    Ok(sides)
}

/// The world that a book's path and replicas stand for.
pub(crate) fn world_of(
    alloc: Global,
    book: &Book,
    path: &Bytes,
    replicas: &[Replica],
    besides: &[Beside],
    puts: &[Posted],
    replies: &[Answered],
) -> Result<World, Fail>
    ensures history { IfOk result (λ world. of_path book.now path.now ≡ world.history) }
    ensures replicas { IfOk result (λ world. replicas.now ≡ replicas_of world.sides) }
    ensures kept { IfOk result (λ world. AllByRecursion KeepsReplica world.sides) }
    ensures readings { IfOk result (λ world. AllByRecursion (HoldsReading world.history) world.sides) }
{
    let history = history_of(alloc, book, path)?;
    let sides = sides_of(alloc, book, path, replicas, besides)?;
    let mut posted = Vec::new(alloc);
    for put in puts {
        let update = put.update.copy(alloc)?;
        posted.push(Posted { by: put.by, update })?;
    }
    let mut answered = Vec::new(alloc);
    for reply in replies {
        let id = reply.id.copy(alloc)?;
        answered.push(Answered {
            by: reply.by,
            id,
            status: reply.status,
        })?;
    }
    Ok(World {
        history: ListUpdate::of(history),
        sides: ListSide::of(sides),
        puts: ListPosted::of(posted),
        replies: ListAnswered::of(answered),
    })
}
