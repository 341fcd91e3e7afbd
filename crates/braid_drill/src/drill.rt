//! What a drill does: its rounds, and what has become of it.

ghost use Rattle.std.specs.Prelude.{◌≡◌, ◌<◌, ◌≤◌, ◌^◌, IfOk, length, vec_len};
ghost use Rattle.braid_change.specs.Changes.{patches_of};
ghost use Rattle.braid_sync.specs.Opening.{IsPlace};
ghost use Rattle.braid_drill.specs.Told.{IsFree};

use crate::digest::digest_of;
use crate::draws::Draws;
use crate::local_dialer::{Cut, LocalDialer};
use crate::report::Summary;
use crate::words::Asked;
use braid_change::{Change, ListPatch, Patch, Text};
use braid_ids::{Agent, Bytes, Memory};
use braid_outbox::{Replica, WriteFault};
use braid_sync::{Place, SyncEnd, sync};
use std::alloc::Global;
use std::marker::Sync;
use std::sync::Wait;

/// Four replicas without updates, of the agents `w1` to `w4`.
///
/// Errors: `Memory` where there was none.
pub(crate) fn replicas_of(alloc: Global) -> Result<Vec<Replica>, Memory>
    ensures four { IfOk result (λ replicas. vec_len replicas ≡ 4) }
{
    let mut replicas = Vec::new(alloc);
    replicas.push(replica_of(alloc, b"w1")?)?;
    replicas.push(replica_of(alloc, b"w2")?)?;
    replicas.push(replica_of(alloc, b"w3")?)?;
    replicas.push(replica_of(alloc, b"w4")?)?;
    Ok(replicas)
}

/// A replica without updates. The names given here are agents', so only memory can be wanting.
fn replica_of(alloc: Global, name: &[u8]) -> Result<Replica, Memory> {
    match Agent::read(alloc, name) {
        Ok(agent) => Ok(Replica::new(alloc, agent)),
        Err(_) => Err(Memory),
    }
}

/// Where the text of a drill is.
///
/// Errors: `Memory` where there was none.
pub(crate) fn place_of(alloc: Global) -> Result<Place, Memory>
    ensures ok { IfOk result IsPlace }
{
    Ok(Place {
        server: Bytes::of(alloc, b"drill")?,
        path: Bytes::of(alloc, b"/drill")?,
    })
}

/// Plays the rounds that are asked for, and lets all replicas sync twice. What has become of them and of the server.
///
/// Errors: `Memory` where there was none.
pub(crate) fn play<R: Wait + Sync>(
    alloc: Global,
    asked: Asked,
    replicas: &mut [Replica],
    place: &Place,
    dialer: LocalDialer<'_, R>,
) -> Result<Summary, Memory>
    requires four { length replicas.old ≡ 4 }
    requires place { IsPlace place.now }
    requires free { IsFree dialer.line }
    ensures few { IfOk result (λ summary. summary.equal ≤ 4) }
{
    let mut dialer = dialer;
    play_rounds(alloc, asked, replicas, place, &mut dialer)?;
    sync_all(alloc, replicas, place, &mut dialer)?;
    sync_all(alloc, replicas, place, &mut dialer)?;
    summary_of(alloc, replicas, place, dialer)
}

/// Plays the rounds that are asked for. No link is up before them and behind them.
fn play_rounds<R: Wait + Sync>(
    alloc: Global,
    asked: Asked,
    replicas: &mut [Replica],
    place: &Place,
    dialer: &mut LocalDialer<'_, R>,
) -> Result<(), Memory>
    requires four { length replicas.old ≡ 4 }
    requires place { IsPlace place.now }
    requires free { IsFree dialer.old.line }
    ensures free { IsFree dialer.new.line }
{
    let mut draws = Draws::new(asked.seed);
    for _round in 0..asked.rounds {
        play_round(alloc, &mut draws, replicas, place, dialer)?;
    }
    Ok(())
}

/// One round: draws a replica and what it does. No link is up before it and behind it.
fn play_round<R: Wait + Sync>(
    alloc: Global,
    draws: &mut Draws,
    replicas: &mut [Replica],
    place: &Place,
    dialer: &mut LocalDialer<'_, R>,
) -> Result<(), Memory>
    requires four { length replicas.old ≡ 4 }
    requires place { IsPlace place.now }
    requires free { IsFree dialer.old.line }
    ensures free { IsFree dialer.new.line }
{
    let n = draws.draw(4) as usize;
    let cut = match draws.draw(8) {
        0..=4 => return edit(alloc, draws, &mut replicas[n]),
        5 => Cut::Nothing,
        6 => Cut::Subscription {
            after: draws.draw(600) as usize,
        },
        _ => Cut::Puts,
    };
    sync_once(alloc, &mut replicas[n], place, dialer, cut)
}

/// A replica writes a change that is drawn.
fn edit(alloc: Global, draws: &mut Draws, replica: &mut Replica) -> Result<(), Memory> {
    let len = len_of(alloc, replica)?;
    let change = draw_change(alloc, draws, len)?;
    match replica.write(alloc, change) {
        Err(WriteFault::Memory) => Err(Memory),
        // The change is within the text. Where a limit is met, the round changes nothing.
        _ => Ok(()),
    }
}

/// How many characters a replica's text has.
fn len_of(alloc: Global, replica: &Replica) -> Result<usize, Memory>
    ensures fits { IfOk result (λ len. len < 2 ^ 63) }
{
    let text = replica.body(alloc)?;
    Ok(text.chars().len())
}

/// Draws a change of a text of so many characters: a range of at most two becomes one letter.
fn draw_change(alloc: Global, draws: &mut Draws, len: usize) -> Result<Change, Memory>
    requires fits { len < 2 ^ 63 }
    ensures counted { IfOk result (λ change. length (patches_of change) < 2 ^ 32) }
{
    let start = draws.draw(len as u64 + 1);
    let end = (start as usize + draws.draw(3) as usize).min(len);
    let letter = b'a' + draws.draw(26) as u8;
    let text = Text::of(vec![in alloc; letter as char]?);
    let patch = Patch {
        start,
        end: end as u32,
        text,
    };
    Ok(Change::Patches(ListPatch::of(vec![in alloc; patch]?)))
}

/// A replica syncs. Any end but want of memory is as good as another: its next sync goes on from there.
fn sync_once<R: Wait + Sync>(
    alloc: Global,
    replica: &mut Replica,
    place: &Place,
    dialer: &mut LocalDialer<'_, R>,
    cut: Cut,
) -> Result<(), Memory>
    requires place { IsPlace place.now }
    requires free { IsFree dialer.old.line }
    ensures free { IsFree dialer.new.line }
{
    dialer.begin(cut);
    match sync(alloc, replica, place, dialer) {
        SyncEnd::Memory => Err(Memory),
        _ if dialer.lacks_memory() => Err(Memory),
        _ => Ok(()),
    }
}

/// All replicas sync in order, and nothing is cut. No link is up before it and behind it.
fn sync_all<R: Wait + Sync>(
    alloc: Global,
    replicas: &mut [Replica],
    place: &Place,
    dialer: &mut LocalDialer<'_, R>,
) -> Result<(), Memory>
    requires four { length replicas.old ≡ 4 }
    requires place { IsPlace place.now }
    requires free { IsFree dialer.old.line }
    ensures free { IsFree dialer.new.line }
{
    for n in 0..4usize {
        sync_once(alloc, &mut replicas[n], place, dialer, Cut::Nothing)?;
    }
    Ok(())
}

/// What has become of the replicas and of the server.
fn summary_of<R>(
    alloc: Global,
    replicas: &[Replica],
    place: &Place,
    dialer: LocalDialer<'_, R>,
) -> Result<Summary, Memory>
    requires four { length replicas.now ≡ 4 }
    requires free { IsFree dialer.line }
    ensures few { IfOk result (λ summary. summary.equal ≤ 4) }
{
    let book = dialer.into_server().close();
    let digest = digest_of(alloc, &book, &place.path)?;
    Ok(Summary {
        versions: book.len(),
        unsent: unsent_of(replicas),
        equal: equal_to(alloc, replicas, &digest)?,
        digest,
    })
}

/// How many updates of all replicas are unsent.
fn unsent_of(replicas: &[Replica]) -> u64
    requires four { length replicas.now ≡ 4 }
{
    let [first, second, third, fourth] = replicas else {
        unreachable!()
    };
    first.unsent() as u64 + second.unsent() as u64 + third.unsent() as u64 + fourth.unsent() as u64
}

/// How many replicas have this digest.
fn equal_to(alloc: Global, replicas: &[Replica], digest: &[u8; 32]) -> Result<u32, Memory>
    requires four { length replicas.now ≡ 4 }
    ensures few { IfOk result (λ n. n ≤ 4) }
{
    let [first, second, third, fourth] = replicas else {
        unreachable!()
    };
    let of_first = has_digest(alloc, first, digest)?;
    let of_second = has_digest(alloc, second, digest)?;
    let of_third = has_digest(alloc, third, digest)?;
    let of_fourth = has_digest(alloc, fourth, digest)?;
    Ok(of_first + of_second + of_third + of_fourth)
}

/// 1 where a replica has this digest, and 0 where it has another.
fn has_digest(alloc: Global, replica: &Replica, digest: &[u8; 32]) -> Result<u32, Memory>
    ensures few { IfOk result (λ n. n ≤ 1) }
{
    Ok((replica.digest(alloc)? == *digest) as u32)
}
