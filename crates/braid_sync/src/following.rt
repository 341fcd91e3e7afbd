ghost use Rattle.std.specs.Prelude.{◌≡◌, ◌≤◌, ◌++◌, ℕ, List, IfOk, codes};
ghost use Rattle.braid_sync.specs.Opening.{IsPlace};
ghost use Rattle.braid_sync.specs.Follows.{Follows};
ghost use Rattle.braid_sync.specs.Laws.{GoesOnFrom};
ghost use Rattle.braid_ids.specs.Identifiers.{spelled_id};
ghost use Rattle.braid_sync.specs.Steps.{Does, said_on, failing_in, taken_word};
ghost use Rattle.braid_sync.specs.Links.{FollowsOver, FollowsOn, PrintsOne, LearnsAndPrints, HeardInFollow};

use crate::end::SyncEnd;
use crate::hear::{Heard, Stream};
use crate::learn::{Taken, take};
use crate::opening::open;
use crate::place::Place;
use crate::syncing::dial;
use braid_change::Update;
use braid_http::Refusal;
use braid_ids::{Bytes, Id, Memory};
use braid_io::{Dialer, Link, Sink, write_all};
use braid_outbox::Replica;
use std::alloc::Global;

/// How a follow ended.
#[derive(Debug, Drop)]
pub struct Followed {
    /// How many lines were written whole.
    pub lines: u32,
    /// Why it ended.
    pub end: SyncEnd,
}

/// Learns `count` updates of a text from a server, or fewer where the server ends the subscription, and prints a line for each
/// as it comes: `New`, `Known` or `Confirmed`, a space, the identifier as a String, and LF. Nothing is sent but the request.
///
/// One link is dialled, and hung up at every end.
///
/// `Done` where so many were learnt, or where the reply's body is whole and its data is a stream. `Cut` where the source ended
/// before the head or the body was whole, or the data ends within an update. `OutFault` where a line could not be written
/// whole: its update was learnt.
pub fn follow<D: Dialer, O: Sink>(
    alloc: Global,
    replica: &mut Replica,
    place: &Place,
    dialer: &mut D,
    count: u32,
    out: &mut O,
) -> Followed
    requires place { IsPlace place.now }
    ensures text { Follows place.now count replica.old replica.new result (D.dialing dialer.old)
        (D.dialing dialer.new) (O.outflow out.old) (O.outflow out.new) }
    ensures hung_up { (D.dialing dialer.new).servers ≡ (D.dialing dialer.old).servers }
    ensures few { result.lines ≤ count }
    ensures sound { GoesOnFrom replica.old replica.new }
    ensures kept { O.beside_writes out.new ≡ O.beside_writes out.old }
{
    let mut lines = 0;
    let followed = follow_over(alloc, replica, place, dialer, count, out, &mut lines);
    // Each replica is sound: its count is read so that a proof learns it.
    let _confirmed = replica.confirmed();
    match followed {
        Ok(()) => Followed {
            lines,
            end: SyncEnd::Done,
        },
        Err(end) => Followed { lines, end },
    }
}

/// Follows over a link of its own, and counts the lines.
fn follow_over<D: Dialer, O: Sink>(
    alloc: Global,
    replica: &mut Replica,
    place: &Place,
    dialer: &mut D,
    count: u32,
    out: &mut O,
    lines: &mut u32,
) -> Result<(), SyncEnd>
    requires place { IsPlace place.now }
    requires none { lines.old ≡ 0 }
    ensures text { FollowsOver place.now count replica.old replica.new result lines.new (D.dialing dialer.old)
        (D.dialing dialer.new) (O.outflow out.old) (O.outflow out.new) }
    ensures few { lines.new ≤ count }
    ensures kept { O.beside_writes out.new ≡ O.beside_writes out.old }
{
    let mut link = dial(alloc, place, dialer)?;
    let followed = follow_on(alloc, replica, place, &mut link, count, out, lines);
    dialer.hang_up(link);
    followed
}

/// Follows on a new link, and counts the lines.
fn follow_on<K: Link, O: Sink>(
    alloc: Global,
    replica: &mut Replica,
    place: &Place,
    link: &mut K,
    count: u32,
    out: &mut O,
    lines: &mut u32,
) -> Result<(), SyncEnd>
    requires none { lines.old ≡ 0 }
    ensures text { (sent : List ℕ) × (given : List ℕ) × Does sent given (failing_in result) (K.intake link.old)
        (K.intake link.new) (K.outflow link.old) (K.outflow link.new)
        × FollowsOn place.now count replica.old (said_on place.now sent given
        (K.intake link.new)) result lines.new replica.new (O.outflow out.old) (O.outflow out.new) }
    ensures few { lines.new ≤ count }
    ensures kept { O.beside_writes out.new ≡ O.beside_writes out.old }
{
    let mut subscription = open(alloc, replica, place, link)?;
    while *lines < count {
        let Some(update) = update_of(subscription.stream.next(link))? else {
            return Ok(());
        };
        learn_and_print(alloc, replica, update, out)?;
        *lines += 1;
    }
    Ok(())
}

/// Learns an update and prints its line. What the line says of the update is made before, so that no memory is wanting behind.
fn learn_and_print<O: Sink>(
    alloc: Global,
    replica: &mut Replica,
    update: Update,
    out: &mut O,
) -> Result<(), SyncEnd>
    ensures learns { LearnsAndPrints result replica.old update replica.new (O.outflow out.old) (O.outflow out.new) }
    ensures kept { O.beside_writes out.new ≡ O.beside_writes out.old }
{
    let rest = line_rest(alloc, update.id())?;
    let taken = take(alloc, replica, update)?;
    print(taken, &rest, out)
}

/// What a line has behind its word: a space, the identifier as a String, and LF.
fn line_rest(alloc: Global, id: &Id) -> Result<Bytes, Memory>
    ensures ok { IfOk result (λ rest. rest ≡ codes " " ++ (spelled_id id.now ++ codes "\n")) }
{
    let spelled = id.spell(alloc)?;
    let mut rest = Bytes::of(alloc, b" ")?;
    rest.push(spelled.get())?;
    rest.push(b"\n")?;
    Ok(rest)
}

/// Prints a line.
fn print<O: Sink>(taken: Taken, rest: &Bytes, out: &mut O) -> Result<(), SyncEnd>
    ensures prints { PrintsOne result (taken_word taken ++ rest.now) (O.outflow out.old) (O.outflow out.new) }
    ensures kept { O.beside_writes out.new ≡ O.beside_writes out.old }
{
    let Ok(()) = write_all(taken.name().as_bytes(), out) else {
        return Err(SyncEnd::OutFault);
    };
    let Ok(()) = write_all(rest.get(), out) else {
        return Err(SyncEnd::OutFault);
    };
    Ok(())
}

/// The update that was heard; `None` where the body is whole and its data is a stream; or the end of a follow.
fn update_of(heard: Heard) -> Result<Option<Update>, SyncEnd>
    ensures heard { HeardInFollow result heard }
{
    match heard {
        Heard::Update(update) => Ok(Some(update)),
        Heard::Whole => Ok(None),
        Heard::Cut => Err(SyncEnd::Cut),
        Heard::BadChunk => Err(SyncEnd::BadHead(Refusal::BadChunk)),
        Heard::Fault(fault) => Err(SyncEnd::BadStream(fault)),
        Heard::ReadFault => Err(SyncEnd::ReadFault),
        Heard::Spent => Err(SyncEnd::Spent),
        Heard::Memory => Err(SyncEnd::Memory),
    }
}
