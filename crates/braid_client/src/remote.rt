//! The commands that talk to a server.

ghost use Rattle.std.specs.Prelude.{◌≡◌, ◌↔◌, IfOk, IsTrue};
ghost use Rattle.braid_client.specs.Texts.{synced_text, followed_text};
ghost use Rattle.braid_client.specs.Runs.{RunsSync, RunsFollow, ended_with};

use crate::ending::end_report;
use crate::fault::Fault;
use crate::keeping::{Kept, keep, load_kept};
use crate::lines::{followed_text, synced_text};
use crate::report::Report;
use braid_ids::{Memory, Word};
use braid_io::{Dialer, Keeper, Sink, Status};
use braid_outbox::Replica;
use braid_sync::{Followed, SyncEnd, follow, sync};
use std::alloc::Global;

/// `sync`: learns and sends by the state that is kept under the name, and keeps what that left, at every end but for
/// want of memory.
pub(crate) fn sync_kept<K: Keeper, D: Dialer>(
    alloc: Global,
    name: &Word,
    keeper: &mut K,
    dialer: &mut D,
) -> Result<Report, Fault>
    ensures runs { RunsSync name.now (K.keeping keeper.old) (K.keeping keeper.new)
        (D.dialing dialer.old) (D.dialing dialer.new) result }
{
    let Kept { place, mut replica } = load_kept(alloc, name, keeper)?;
    let end = sync(alloc, &mut replica, &place, dialer);
    if let SyncEnd::Memory = end {
        return Err(Fault::Memory);
    }
    let report = sync_report(alloc, &replica, &end)?;
    keep(alloc, name, &place, &replica, keeper)?;
    Ok(report)
}

/// What a sync has to report, which left this replica.
fn sync_report(alloc: Global, replica: &Replica, end: &SyncEnd) -> Result<Report, Memory>
    ensures ok { IfOk result (λ report. report ≡ ended_with (synced_text replica.now) end.now) }
{
    match end {
        SyncEnd::Done => Ok(Report {
            text: synced_text(alloc, replica)?,
            status: Status::Done,
        }),
        _ => end_report(alloc, end),
    }
}

/// `follow`: learns updates as they come by the state that is kept under the name, prints a line for each, and keeps
/// what that left, at every end but for want of memory: also where a line could not be printed.
pub(crate) fn follow_kept<K: Keeper, D: Dialer, O: Sink>(
    alloc: Global,
    name: &Word,
    count: u32,
    keeper: &mut K,
    dialer: &mut D,
    out: &mut O,
) -> Result<Report, Fault>
    ensures runs { RunsFollow name.now count (K.keeping keeper.old) (K.keeping keeper.new)
        (D.dialing dialer.old) (D.dialing dialer.new) (O.outflow out.old) (O.outflow out.new) result }
    ensures kept { O.beside_writes out.new ≡ O.beside_writes out.old }
{
    let Kept { place, mut replica } = load_kept(alloc, name, keeper)?;
    let followed = follow(alloc, &mut replica, &place, dialer, count, out);
    if let SyncEnd::Memory = followed.end {
        return Err(Fault::Memory);
    }
    let report = follow_report(alloc, &followed)?;
    match keep(alloc, name, &place, &replica, keeper) {
        Ok(()) => Ok(report),
        Err(fault) => {
            if is_passed_over(&fault, &followed.end) {
                Ok(report)
            } else {
                Err(fault)
            }
        }
    }
}

/// What a follow has to report.
fn follow_report(alloc: Global, followed: &Followed) -> Result<Report, Memory>
    ensures ok { IfOk result (λ report. report ≡ ended_with (followed_text followed.now.lines) followed.now.end) }
{
    match &followed.end {
        SyncEnd::Done => Ok(Report {
            text: followed_text(alloc, followed.lines)?,
            status: Status::Done,
        }),
        end => end_report(alloc, end),
    }
}

/// Whether nothing is said of a state that could not be kept: nothing more is printed behind a line that could not be
/// written.
fn is_passed_over(fault: &Fault, end: &SyncEnd) -> bool
    ensures value { IsTrue result ↔ ((fault.now ≡ Fault.SaveFault) × (end.now ≡ SyncEnd.OutFault)) }
{
    match fault {
        Fault::SaveFault => is_unprinted(end),
        _ => false,
    }
}

/// Whether an end is that a line could not be printed.
fn is_unprinted(end: &SyncEnd) -> bool
    ensures value { IsTrue result ↔ (end.now ≡ SyncEnd.OutFault) }
{
    match end {
        SyncEnd::OutFault => true,
        _ => false,
    }
}
