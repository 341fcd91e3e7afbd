//! A subscription: its turns, and what they write.

ghost use Rattle.std.specs.Prelude.{◌≡◌, false, IfOk, IfErr, OnOk, OnErr, length};
ghost use Rattle.braid_graph.specs.Ancestries.{IsUnknown};
ghost use Rattle.braid_text.specs.Histories.{graph_of};
ghost use Rattle.braid_store.specs.Books.{of_path};
ghost use Rattle.braid_store.specs.Cursors.{IsFit, left_past};
ghost use Rattle.braid_fields.specs.Chunks.{last_chunk};
ghost use Rattle.braid_stream.specs.Chunked.{chunks};
ghost use Rattle.braid_io.specs.Outside.{WritesAll, WritesPart};
ghost use Rattle.braid_session.specs.Sessions.{chunks_or_beat};
ghost use Rattle.braid_session.specs.WatchSteps.{BeginsAt, StandsBehind, TookFirst, TookFurther, TookNothing, GoesOn, WatchesOn};

use crate::session::SessionEnd;
use crate::turn::{NoReply, Room};
use braid_change::ListUpdate;
use braid_hall::{Pass, Turn};
use braid_ids::{Bytes, Frontier, Id, Memory, Unknown};
use braid_io::{Bell, Link, Rang, WriteEnd};
use braid_store::{Book, Cursor};
use braid_stream::StreamWriter;
use std::alloc::Global;
use std::sync::Wait;

/// What the first turn of a subscription finds.
#[derive(Drop)]
pub enum First {
    /// It is served.
    Begins(Begun),
    /// It begins at an identifier that the path does not hold: the least of these.
    Unheld { id: Id },
}

/// What the first turn of a subscription that is served gives.
#[derive(Drop)]
pub struct Begun {
    /// The path's frontier.
    pub current: Frontier,
    /// The updates that are there, outside the ancestry of where it begins.
    pub updates: ListUpdate,
    /// The place behind them.
    pub cursor: Cursor,
}

/// How a subscription that is served is answered at first.
#[derive(Drop)]
pub struct Opening {
    /// The head, as it is spelled.
    pub head: Bytes,
    /// The updates behind it, those that are there.
    pub updates: ListUpdate,
    /// The place behind them.
    pub cursor: Cursor,
}

/// Copies the updates that a cursor has not passed, and passes them.
fn gather(alloc: Global, book: &Book, cursor: &mut Cursor) -> Result<ListUpdate, Memory>
    requires fits { IsFit book.now cursor.old }
    ensures ok { IfOk result (λ updates. updates ≡ left_past (of_path book.now cursor.old.path) cursor.old.from
        cursor.old.passed) }
    ensures passed { OnOk result (cursor.new.passed ≡ length (of_path book.now cursor.old.path)) }
    ensures kept { cursor.new ≡ record cursor.old { passed = cursor.new.passed } }
    ensures fits { IsFit book.now cursor.new }
{
    let mut updates = Vec::new(alloc);
    'gathering: while let Some(update) = book.next_for(cursor) {
        updates.push(update.copy(alloc)?)?;
    }
    Ok(ListUpdate::of(updates))
}

/// Begins a subscription to a path, in a turn.
fn begin(alloc: Global, book: &Book, path: &Bytes, from: &Frontier) -> Result<Begun, Unknown>
    ensures ok { IfOk result (λ begun. BeginsAt book.now path.now from.now begun) }
    ensures err { IfErr result (λ unknown. IsUnknown (graph_of (of_path book.now path.now)) from.now unknown) }
{
    let mut cursor = book.open(alloc, path, from)?;
    let Ok(current) = book.frontier(alloc, path) else {
        return Err(Unknown::Memory);
    };
    match gather(alloc, book, &mut cursor) {
        Ok(updates) => Ok(Begun {
            current,
            updates,
            cursor,
        }),
        Err(_) => Err(Unknown::Memory),
    }
}

/// Takes the first turn of a subscription, and notes its mark. Room for the mark is made before.
pub(crate) fn first_turn<R: Wait>(
    room: &Room<R>,
    pass: &mut Pass<Book>,
    marks: &mut Vec<u64>,
    path: &Bytes,
    from: &Frontier,
) -> Result<First, NoReply>
    requires hall { pass.old.hall ≡ room.now.hall.now }
    requires idle { pass.old.held ≡ false }
    ensures ok { IfOk result (λ first. TookFirst path.now from.now first pass.old pass.new
        marks.old.items marks.new.items) }
    ensures err { IfErr result (λ no. TookNothing no pass.old pass.new marks.old.items marks.new.items) }
{
    pass.reserve(1)?;
    let Ok(()) = marks.reserve(1) else {
        return Err(NoReply::Memory);
    };
    let Turn::Held(book) = room.hall.enter(room.rt, pass) else {
        return Err(NoReply::Worn);
    };
    let mark = book.len();
    let begun = begin(room.alloc, &book, path, from);
    room.hall.leave(pass, book);
    let kept = marks.push(mark);
    prove!(kept.is_ok());
    match begun {
        Ok(begun) => Ok(First::Begins(begun)),
        Err(Unknown::Id { id }) => Ok(First::Unheld { id }),
        Err(Unknown::Memory) => Err(NoReply::Memory),
    }
}

/// Takes a further turn of a subscription, and notes its mark. Room for the mark is made before.
fn further_turn<R: Wait>(
    room: &Room<R>,
    pass: &mut Pass<Book>,
    marks: &mut Vec<u64>,
    cursor: &mut Cursor,
) -> Result<ListUpdate, NoReply>
    requires hall { pass.old.hall ≡ room.now.hall.now }
    requires idle { pass.old.held ≡ false }
    requires fits { IsFit pass.old.seen cursor.old }
    ensures ok { IfOk result (λ updates. TookFurther updates cursor.old cursor.new pass.old pass.new
        marks.old.items marks.new.items) }
    ensures err { IfErr result (λ no. TookNothing no pass.old pass.new marks.old.items marks.new.items) }
{
    pass.reserve(1)?;
    let Ok(()) = marks.reserve(1) else {
        return Err(NoReply::Memory);
    };
    let Turn::Held(book) = room.hall.enter(room.rt, pass) else {
        return Err(NoReply::Worn);
    };
    let mark = book.len();
    let updates = gather(room.alloc, &book, cursor);
    room.hall.leave(pass, book);
    let kept = marks.push(mark);
    prove!(kept.is_ok());
    match updates {
        Ok(updates) => Ok(updates),
        Err(_) => Err(NoReply::Memory),
    }
}

/// Writes what the first turn gave behind the head: each update as one chunk.
fn write_first<K: Link>(link: &mut K, updates: &ListUpdate) -> Result<(), WriteEnd>
    ensures ok { OnOk result (WritesAll (chunks updates.now) (K.outflow link.old) (K.outflow link.new)) }
    ensures err { OnErr result (WritesPart (chunks updates.now) (K.outflow link.old) (K.outflow link.new)) }
    ensures kept { K.intake link.new ≡ K.intake link.old }
{
    let mut writer = StreamWriter::new(link);
    writer.put_all(updates.get())
}

/// Writes what a further turn gave: each update as one chunk, or a beat where there is none.
fn write_further<K: Link>(link: &mut K, updates: &ListUpdate) -> Result<(), WriteEnd>
    ensures ok { OnOk result (WritesAll (chunks_or_beat updates.now) (K.outflow link.old) (K.outflow link.new)) }
    ensures err { OnErr result (WritesPart (chunks_or_beat updates.now) (K.outflow link.old) (K.outflow link.new)) }
    ensures kept { K.intake link.new ≡ K.intake link.old }
{
    let mut writer = StreamWriter::new(link);
    if updates.get().is_empty() {
        writer.beat()
    } else {
        writer.put_all(updates.get())
    }
}

/// Writes the last chunk.
fn write_last<K: Link>(link: &mut K) -> Result<(), WriteEnd>
    ensures ok { OnOk result (WritesAll last_chunk (K.outflow link.old) (K.outflow link.new)) }
    ensures err { OnErr result (WritesPart last_chunk (K.outflow link.old) (K.outflow link.new)) }
    ensures kept { K.intake link.new ≡ K.intake link.old }
{
    let mut writer = StreamWriter::new(link);
    writer.finish()
}

/// Waits for the bell, and does what it asks for: one further turn and what it gives, or the last chunk. All memory
/// of a turn is taken before its first byte is written.
///
/// Answers how the subscription ends, where it ends.
fn go_on<R: Wait, K: Link, L: Bell>(
    room: &Room<R>,
    pass: &mut Pass<Book>,
    marks: &mut Vec<u64>,
    link: &mut K,
    bell: &mut L,
    cursor: &mut Cursor,
) -> Option<SessionEnd>
    requires hall { pass.old.hall ≡ room.now.hall.now }
    requires idle { pass.old.held ≡ false }
    requires fits { IsFit pass.old.seen cursor.old }
    ensures goes_on { GoesOn result cursor.old cursor.new pass.old pass.new marks.old.items marks.new.items
        (L.ringing bell.old) (L.ringing bell.new) (K.outflow link.old) (K.outflow link.new) }
    ensures kept { K.intake link.new ≡ K.intake link.old }
{
    match bell.wait() {
        Rang::Again => match further_turn(room, pass, marks, cursor) {
            Ok(updates) => match write_further(link, &updates) {
                Ok(()) => None,
                Err(_) => Some(SessionEnd::WriteFault),
            },
            Err(NoReply::Worn) => Some(SessionEnd::Worn),
            Err(NoReply::Memory) => Some(SessionEnd::Memory),
        },
        Rang::End => match write_last(link) {
            Ok(()) => Some(SessionEnd::Stopped),
            Err(_) => Some(SessionEnd::WriteFault),
        },
    }
}

/// Writes what the first turn of a subscription gave behind its head, and goes on until it ends.
pub(crate) fn watch<R: Wait, K: Link, L: Bell>(
    room: &Room<R>,
    pass: &mut Pass<Book>,
    marks: &mut Vec<u64>,
    link: &mut K,
    bell: &mut L,
    updates: ListUpdate,
    cursor: Cursor,
) -> SessionEnd
    requires hall { pass.old.hall ≡ room.now.hall.now }
    requires idle { pass.old.held ≡ false }
    requires stands { StandsBehind pass.old.seen cursor.path cursor.from updates cursor }
    ensures watches { WatchesOn result cursor.path cursor.from updates pass.old pass.new marks.old.items marks.new.items
        (L.ringing bell.old) (L.ringing bell.new) (K.outflow link.old) (K.outflow link.new) }
    ensures kept { K.intake link.new ≡ K.intake link.old }
{
    let mut cursor = cursor;
    let Ok(()) = write_first(link, &updates) else {
        return SessionEnd::WriteFault;
    };
    for _ in room.rt.forever() {
        match go_on(room, pass, marks, link, bell, &mut cursor) {
            Some(end) => return end,
            None => {}
        }
    }
    unreachable!()
}
