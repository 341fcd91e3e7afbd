//! The calls that the program makes at an event of a world, on a book and on replicas that it is lent.

ghost use Rattle.std.specs.Prelude.{◌≡◌, ◌≤◌, IfOk, OnErr, OnOk, length, None};
ghost use Rattle.std.specs.List.{AllByRecursion};
ghost use Rattle.braid_store.specs.Books.{of_path};
ghost use Rattle.braid_world.specs.Events.{replicas_of, KeepsReplica, HoldsReading, Leaves, LeavesMerges, world_after};

use crate::book_calls::{join, land, put_at};
use crate::replica_calls::{
    acknowledge, carry_at, go_back, head_at, reply_at, resume_at, write_at,
};
use braid_change::Update;
use braid_ids::{Bytes, Frontier, Memory};
use braid_outbox::Replica;
use braid_outbox::laws::{Event, World};
use braid_store::Book;
use std::alloc::Global;

/// What the calls of an event told.
#[derive(Drop)]
pub struct Called {
    /// Where a subscription that was opened begins.
    pub from: Option<Frontier>,
    /// The first unsent update of a replica that was asked for it.
    pub head: Option<Update>,
    /// The status of the reply to a PUT that was put.
    pub status: Option<u16>,
}

impl Called {
    /// Nothing was told.
    fn nothing() -> Called
        ensures nothing { result ≡ record { from = None; head = None; status = None } }
    {
        Called {
            from: None,
            head: None,
            status: None,
        }
    }
}

/// Makes the calls of an event of a world on a book, whose path has the world's history, and on the replicas of its
/// sides, and says what they told. Afterwards book and replicas are those of the world that the event makes.
///
/// A Write calls `Replica::write`, an Open `resume`, a Carry `Book::next_for` and `learn`, a Back `Replica::of` on the
/// kept copy, a Post `next_out`, an Ack `acked`, and a Land and a Foreign call `Book::put`, as who has the number `by`. A
/// Cut and a Keep are no call's.
///
/// What a Land says of room is not looked at: the book decides. An update of another author for which the book has no
/// room is no event. An event that does not apply calls nothing.
///
/// Errors: `Memory` where there was none. The book is as before then, and so are the replicas, but for the pure merges of a
/// Write.
pub fn calls(
    alloc: Global,
    book: &mut Book,
    path: &Bytes,
    by: u32,
    replicas: &mut [Replica],
    world: &World,
    event: Event,
) -> Result<Called, Memory>
    requires short { length path.now ≤ 1024 }
    requires history { of_path book.old path.now ≡ world.now.history }
    requires replicas { replicas.old ≡ replicas_of world.now.sides }
    requires kept { AllByRecursion KeepsReplica world.now.sides }
    requires readings { AllByRecursion (HoldsReading world.now.history) world.now.sides }
    ensures ok { IfOk result (λ called. Leaves path.now by event world.now
        (world_after book.old path.now by world.now event) book.old book.new replicas.new called) }
    ensures goes_on { OnOk result (of_path book.new path.now
        ≡ (world_after book.old path.now by world.now event).history) }
    ensures err { OnErr result ((book.new ≡ book.old) × LeavesMerges event replicas.old replicas.new) }
{
    match event {
        Event::Write { a, change } => {
            write_at(alloc, replicas, a, change)?;
            Ok(Called::nothing())
        }
        Event::Open { a } => {
            let from = resume_at(alloc, replicas, a)?;
            Ok(Called {
                from,
                head: None,
                status: None,
            })
        }
        Event::Carry { a } => {
            carry_at(alloc, book, path, replicas, world.sides.get(), a)?;
            Ok(Called::nothing())
        }
        Event::Cut { a: _ } => Ok(Called::nothing()),
        Event::Keep { a: _ } => Ok(Called::nothing()),
        Event::Back { a } => {
            go_back(alloc, replicas, world.sides.get(), a)?;
            Ok(Called::nothing())
        }
        Event::Post { a } => {
            let head = head_at(alloc, replicas, a)?;
            Ok(Called {
                from: None,
                head,
                status: None,
            })
        }
        Event::Land { k, .. } => {
            let status = land(alloc, book, path, by, put_at(world.puts.get(), k))?;
            Ok(Called {
                from: None,
                head: None,
                status,
            })
        }
        Event::Ack { k } => {
            acknowledge(replicas, reply_at(world.replies.get(), k));
            Ok(Called::nothing())
        }
        Event::Foreign { update } => {
            join(alloc, book, path, by, world.sides.get(), update)?;
            Ok(Called::nothing())
        }
    }
}
