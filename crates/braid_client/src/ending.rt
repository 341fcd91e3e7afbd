//! What is printed at the end of a sync or a follow.

ghost use Rattle.std.specs.Prelude.{◌≡◌, [], IfOk};
ghost use Rattle.braid_client.specs.Texts.{end_text, end_status};
ghost use Rattle.braid_client.specs.Steps.{single_name};
ghost use Rattle.braid_client.specs.Runs.{ended_with};

use crate::report::Report;
use braid_ids::{Bytes, Memory};
use braid_io::Status;
use braid_lines::{fault_line, full_line, id_line, numbered_line, range_line, stream_line};
use braid_sync::SyncEnd;
use std::alloc::Global;

/// What an end has to print, and its status. At Done it prints nothing of its own.
pub(crate) fn end_report(alloc: Global, end: &SyncEnd) -> Result<Report, Memory>
    ensures ok { IfOk result (λ report. report ≡ ended_with [] end.now) }
{
    Ok(Report {
        text: end_text(alloc, end)?,
        status: end_status(end),
    })
}

/// The text of an end, which is empty at Done.
fn end_text(alloc: Global, end: &SyncEnd) -> Result<Bytes, Memory>
    ensures ok { IfOk result (λ text. text ≡ end_text [] end.now) }
{
    match end {
        SyncEnd::Done | SyncEnd::OutFault | SyncEnd::Memory => Bytes::of(alloc, b""),
        SyncEnd::Peer { status } => numbered_line(alloc, b"Peer ", *status as u64),
        SyncEnd::BadHead(refusal) => fault_line(alloc, refusal.name()),
        SyncEnd::BadStream(fault) => stream_line(alloc, fault),
        SyncEnd::Clash { id } => id_line(alloc, b"Clash ", id),
        SyncEnd::UnknownParent { id } => id_line(alloc, b"UnknownParent ", id),
        SyncEnd::OutOfRange { patch, len } => range_line(alloc, *patch, *len),
        SyncEnd::Full { which, limit } => full_line(alloc, *which, *limit),
        SyncEnd::Cut
        | SyncEnd::NoCurrent
        | SyncEnd::BadCurrent
        | SyncEnd::OtherMergeType
        | SyncEnd::DialFault
        | SyncEnd::ReadFault
        | SyncEnd::WriteFault
        | SyncEnd::Spent => fault_line(alloc, single_name(end)),
    }
}

/// The name of an end that is one word, and nothing of any other.
fn single_name(end: &SyncEnd) -> &'static [u8]
    ensures value { result.now ≡ single_name end.now }
{
    match end {
        SyncEnd::Cut => b"Cut",
        SyncEnd::NoCurrent => b"NoCurrent",
        SyncEnd::BadCurrent => b"BadCurrent",
        SyncEnd::OtherMergeType => b"OtherMergeType",
        SyncEnd::DialFault => b"DialFault",
        SyncEnd::ReadFault => b"ReadFault",
        SyncEnd::WriteFault => b"WriteFault",
        SyncEnd::Spent => b"Spent",
        _ => b"",
    }
}

/// The status of a run whose sync or follow ends so, where its text was written.
fn end_status(end: &SyncEnd) -> Status
    ensures value { result ≡ end_status end.now }
{
    match end {
        SyncEnd::Done => Status::Done,
        SyncEnd::Cut | SyncEnd::Peer { .. } | SyncEnd::Spent => Status::Cut,
        SyncEnd::DialFault | SyncEnd::ReadFault | SyncEnd::WriteFault | SyncEnd::OutFault => {
            Status::Outside
        }
        SyncEnd::Memory => Status::Memory,
        SyncEnd::BadHead(_)
        | SyncEnd::NoCurrent
        | SyncEnd::BadCurrent
        | SyncEnd::OtherMergeType
        | SyncEnd::BadStream(_)
        | SyncEnd::Clash { .. }
        | SyncEnd::UnknownParent { .. }
        | SyncEnd::OutOfRange { .. }
        | SyncEnd::Full { .. } => Status::Bad,
    }
}
