//! The lines that commands print.

ghost use Rattle.std.specs.Prelude.{◌≡◌, ◌++◌, ◌≤◌, Some, None, codes, drop, length, IfOk, OnOk, MatchOption};
ghost use Rattle.braid_ids.specs.Identifiers.{spelled_id};
ghost use Rattle.braid_outbox.specs.Replicas.{all_of};
ghost use Rattle.braid_lines.specs.Lines.{line_with, fault_line};
ghost use Rattle.braid_client.specs.Texts.{fault_name, write_name, build_name, new_text, wrote_text, show_text};
ghost use Rattle.braid_client.specs.Texts.{content_text, synced_text, followed_text};
ghost use Rattle.braid_client.specs.Steps.{plain_line, HasDetail};

use crate::fault::Fault;
use braid_change::BuildFault;
use braid_ids::{Agent, Bytes, Id, Memory};
use braid_lines::{
    fault_line, full_line, line_with, numbered_line, push_content, push_count, push_frontier,
    push_line, range_line,
};
use braid_outbox::{Replica, WriteFault};
use std::alloc::Global;

/// What `new` prints.
pub(crate) fn new_text(alloc: Global, agent: &Agent) -> Result<Bytes, Memory>
    ensures ok { IfOk result (λ text. text ≡ new_text agent.now) }
{
    line_with(alloc, b"agent: ", agent.bytes())
}

/// What `follow` prints where it is done.
pub(crate) fn followed_text(alloc: Global, lines: u32) -> Result<Bytes, Memory>
    ensures ok { IfOk result (λ text. text ≡ followed_text lines) }
{
    let mut text = Bytes::of(alloc, b"followed: ")?;
    text.push_number(lines as u64)?;
    text.push(b"\n")?;
    Ok(text)
}

/// What `sync` prints where it is done.
pub(crate) fn synced_text(alloc: Global, replica: &Replica) -> Result<Bytes, Memory>
    ensures ok { IfOk result (λ text. text ≡ synced_text replica.now) }
{
    let mut text = Bytes::of(alloc, b"synced: confirmed ")?;
    text.push_number(replica.confirmed() as u64)?;
    text.push(b" unsent ")?;
    text.push_number(replica.unsent() as u64)?;
    text.push(b"\n")?;
    Ok(text)
}

/// What `edit` and `set` print: a line for each update of the replica from this number on.
pub(crate) fn wrote_text(alloc: Global, replica: &Replica, from: u32) -> Result<Bytes, Memory>
    requires within { from ≤ length (all_of replica.now) }
    ensures ok { IfOk result (λ text. text ≡ wrote_text (drop from (all_of replica.now))) }
{
    let end = replica.confirmed() + replica.unsent();
    let mut text = Bytes::of(alloc, b"")?;
    for n in from..end {
        let Some(update) = replica.entry(n) else {
            unreachable!()
        };
        push_wrote(alloc, &mut text, update.id())?;
    }
    Ok(text)
}

/// Puts the line of an update that was added at the end.
fn push_wrote(alloc: Global, text: &mut Bytes, id: &Id) -> Result<(), Memory>
    ensures ok { OnOk result (text.new ≡ text.old ++ line_with (codes "wrote: ") (spelled_id id.now)) }
{
    let spelled = id.spell(alloc)?;
    push_line(text, b"wrote: ", spelled.get())
}

/// What `show` prints of a replica of a text at this path.
pub(crate) fn show_text(alloc: Global, path: &[u8], replica: &Replica) -> Result<Bytes, Memory>
    ensures ok { IfOk result (λ text. text ≡ show_text path.now replica.now) }
{
    let mut text = Bytes::of(alloc, b"")?;
    push_line(&mut text, b"agent: ", replica.agent().bytes())?;
    push_line(&mut text, b"path: ", path)?;
    push_frontier(alloc, &mut text, &replica.frontier(alloc)?)?;
    push_count(&mut text, b"confirmed: ", replica.confirmed() as u64)?;
    push_count(&mut text, b"unsent: ", replica.unsent() as u64)?;
    push_text(alloc, &mut text, replica)?;
    Ok(text)
}

/// Puts the lines on a replica's text at the end: its length, the digest, and the text itself.
fn push_text(alloc: Global, out: &mut Bytes, replica: &Replica) -> Result<(), Memory>
    ensures ok { OnOk result (out.new ≡ out.old ++ content_text replica.now) }
{
    let text = replica.body(alloc)?;
    let digest = replica.digest(alloc)?;
    push_content(alloc, out, &text, &digest)
}

/// The line of a fault that has no number and no name in it. It takes no memory.
pub(crate) fn plain_line(fault: &Fault) -> Option<&'static [u8]>
    ensures plain { MatchOption result (plain_line fault.now ≡ None) (λ line. plain_line fault.now ≡ Some line.now) }
{
    match fault {
        Fault::Usage => Some(b"fault: Usage\n".as_slice()),
        Fault::NoState => Some(b"fault: NoState\n".as_slice()),
        Fault::Exists => Some(b"fault: Exists\n".as_slice()),
        Fault::LoadFault => Some(b"fault: LoadFault\n".as_slice()),
        Fault::SaveFault => Some(b"fault: SaveFault\n".as_slice()),
        Fault::BadState { .. } | Fault::BadEntry { .. } | Fault::Write(_) | Fault::Memory => None,
    }
}

/// The line of a fault that has a number or a name in it.
///
/// Errors: `Memory` where there was none for it, and of a fault that has neither.
pub(crate) fn detailed_line(alloc: Global, fault: &Fault) -> Result<Bytes, Memory>
    ensures ok { IfOk result (λ line. line ≡ fault_line (fault_name fault.now)) }
    ensures detailed { OnOk result (HasDetail fault.now) }
{
    match fault {
        Fault::BadState { at } => numbered_line(alloc, b"BadState at ", *at),
        Fault::BadEntry { n } => numbered_line(alloc, b"BadEntry ", *n as u64),
        Fault::Write(fault) => write_line(alloc, fault),
        _ => Err(Memory),
    }
}

/// The line for a change that is not written.
fn write_line(alloc: Global, fault: &WriteFault) -> Result<Bytes, Memory>
    ensures ok { IfOk result (λ line. line ≡ fault_line (write_name fault.now)) }
{
    match fault {
        WriteFault::Shape(shape) => fault_line(alloc, build_name(*shape)),
        WriteFault::OutOfRange { patch, len } => range_line(alloc, *patch, *len),
        WriteFault::NumbersSpent => fault_line(alloc, b"NumbersSpent"),
        WriteFault::Full { which, limit } => full_line(alloc, *which, *limit),
        WriteFault::Memory => fault_line(alloc, b""),
    }
}

/// The name of a fault of a change's shape.
fn build_name(fault: BuildFault) -> &'static [u8]
    ensures value { result.now ≡ build_name fault }
{
    match fault {
        BuildFault::TooManyParents { .. } => b"TooManyParents",
        BuildFault::TooManyPatches { .. } => b"TooManyPatches",
        BuildFault::Backwards { .. } => b"Backwards",
        BuildFault::Overlap { .. } => b"Overlap",
        BuildFault::TooLong { .. } => b"TooLong",
    }
}
