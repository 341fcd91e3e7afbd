//! The calls of events on a book.

ghost use Rattle.std.specs.Prelude.{◌≡◌, ◌≢◌, ◌≤◌, IfOk, OnErr, OnOk, drop, length, slice_get};
ghost use Rattle.std.specs.Option.{option_copied};
ghost use Rattle.braid_change.specs.Updates.{IsUpdate};
ghost use Rattle.braid_graph.specs.Entries.{HoldsAll};
ghost use Rattle.braid_text.specs.Histories.{graph_of};
ghost use Rattle.braid_text.specs.Sent.{sent};
ghost use Rattle.braid_store.specs.Books.{of_path};
ghost use Rattle.braid_store.specs.declared.put.Put.TheVariants.{Memory as NoMemory};
ghost use Rattle.braid_store.specs.Cursors.{IsFit, left_past};
ghost use Rattle.braid_outbox.specs.Worlds.{is_foreign};
ghost use Rattle.braid_world.specs.Events.{Lands, put_status};
ghost use Rattle.braid_world.specs.BookCalls.{Joins, IsTold};

use braid_change::Update;
use braid_ids::{Bytes, Frontier, Id, Memory};
use braid_outbox::laws::{Posted, Side};
use braid_store::{Book, Cursor, Put};
use std::alloc::Global;

/// The PUT with this number, where there is one.
pub(crate) fn put_at(puts: &[Posted], k: u32) -> Option<&Posted>
    ensures found { option_copied result ≡ slice_get puts.now k }
{
    match puts.get(k as usize) {
        Some(put) => Some(put),
        None => None,
    }
}

/// Puts the update of a PUT, where there is one, to a path, and says the status of the reply.
pub(crate) fn land(
    alloc: Global,
    book: &mut Book,
    path: &Bytes,
    by: u32,
    posted: Option<&Posted>,
) -> Result<Option<u16>, Memory>
    requires short { length path.now ≤ 1024 }
    ensures ok { IfOk result (λ status. Lands path.now by book.old book.new (option_copied posted.entry) status) }
    ensures err { OnErr result (book.new ≡ book.old) }
{
    let Some(posted) = posted else {
        return Ok(None);
    };
    let update = posted.update.copy(alloc)?;
    let status = put_one(alloc, book, path, by, update)?;
    Ok(Some(status))
}

/// Puts an update to a path, and says the status of the reply.
fn put_one(
    alloc: Global,
    book: &mut Book,
    path: &Bytes,
    by: u32,
    update: Update,
) -> Result<u16, Memory>
    requires short { length path.now ≤ 1024 }
    ensures ok { IfOk result (λ status. IsTold path.now by book.old book.new update status) }
    ensures err { OnErr result (book.new ≡ book.old) }
{
    // They give the proof that the book is legal, and that the update is one that the program can hold.
    let _entries = book.len();
    let _id = update.id();
    status_of(book.put(alloc, path, by, update))
}

/// The status of the reply to an answer.
fn status_of(answer: Put) -> Result<u16, Memory>
    ensures ok { IfOk result (λ status. status ≡ put_status answer) }
    ensures answered { OnOk result (answer ≢ NoMemory) }
    ensures err { OnErr result (answer ≡ NoMemory) }
{
    match answer {
        Put::New | Put::Known => Ok(200),
        Put::Clash { .. } | Put::UnknownParent { .. } => Ok(409),
        Put::OutOfRange { .. } => Ok(422),
        Put::Full { .. } => Ok(507),
        Put::Memory => Err(Memory),
    }
}

/// Puts an update of another author to a path, where its identifier is no name of a side's agent.
pub(crate) fn join(
    alloc: Global,
    book: &mut Book,
    path: &Bytes,
    by: u32,
    sides: &[Side],
    update: Update,
) -> Result<(), Memory>
    requires short { length path.now ≤ 1024 }
    ensures valid { IsUpdate update }
    ensures ok { OnOk result (Joins path.now by book.old book.new sides.now update) }
    ensures err { OnErr result (book.new ≡ book.old) }
{
    if !are_foreign(sides, update.id()) {
        return Ok(());
    }
    let _status = put_one(alloc, book, path, by, update)?;
    Ok(())
}

/// Whether an identifier is no name of a version of any side's agent.
fn are_foreign(sides: &[Side], id: &Id) -> bool
    ensures foreign { result ≡ is_foreign id.now sides.now }
{
    for side in sides {
        if let Some(_) = side.agent.number(id) {
            return false;
        }
    }
    true
}

/// The update with this number, from 0, of what a path has outside the ancestry of a frontier.
pub(crate) fn nth_sent(
    alloc: Global,
    book: &Book,
    path: &Bytes,
    from: &Frontier,
    position: u64,
) -> Result<Option<Update>, Memory>
    requires held { HoldsAll (graph_of (of_path book.now path.now)) from.now }
    ensures ok { IfOk result (λ update. update ≡ slice_get (sent (of_path book.now path.now) from.now) position) }
{
    let Ok(mut cursor) = book.open(alloc, path, from) else {
        // The frontier is held, so only memory can be wanting.
        return Err(Memory);
    };
    pass(book, &mut cursor, position);
    let Some(update) = book.next_for(&mut cursor) else {
        return Ok(None);
    };
    let copy = update.copy(alloc)?;
    Ok(Some(copy))
}

/// Passes so many updates, or all that are left where they are fewer.
fn pass(book: &Book, cursor: &mut Cursor, count: u64)
    requires fits { IsFit book.now cursor.old }
    ensures left { left_past (of_path book.now cursor.old.path) cursor.old.from cursor.new.passed
        ≡ drop count (left_past (of_path book.now cursor.old.path) cursor.old.from cursor.old.passed) }
    ensures kept { cursor.new ≡ record cursor.old { passed = cursor.new.passed } }
    ensures fits { IsFit book.now cursor.new }
{
    for _ in 0..count {
        let Some(_) = book.next_for(cursor) else {
            return;
        };
    }
}
