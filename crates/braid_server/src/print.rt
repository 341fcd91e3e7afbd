//! What `serve` prints.

ghost use Rattle.std.specs.Prelude.{◌≡◌, ◌++◌, IfOk, OnOk, decimal};
ghost use Rattle.braid_server.specs.Texts.{serving_line, last_lines};
ghost use Rattle.braid_server.specs.Workers.{sessions_of};
ghost use Rattle.braid_server.specs.Runs.{status_of, with_end};

use braid_ids::{Bytes, Memory};
use braid_io::Status;
use braid_session::{WorkerEnd, WorkerNote};
use itoa::Buffer;
use std::alloc::Global;

/// The line once the port is open.
pub(crate) fn serving_line(alloc: Global, server: &[u8]) -> Result<Bytes, Memory>
    ensures ok { IfOk result (λ line. line ≡ serving_line server.now) }
{
    let mut line = Bytes::of(alloc, b"serving: ")?;
    line.push(server)?;
    line.push(b"\n")?;
    Ok(line)
}

/// The last lines of a run.
pub(crate) fn last_lines(alloc: Global, versions: u64, sessions: u128) -> Result<Bytes, Memory>
    ensures ok { IfOk result (λ lines. lines ≡ last_lines versions sessions) }
{
    let mut buffer = Buffer::new();
    let mut lines = Bytes::of(alloc, b"versions: ")?;
    lines.push(buffer.format(versions).as_bytes())?;
    lines.push(b"\nsessions: ")?;
    lines.push(buffer.format(sessions).as_bytes())?;
    lines.push(b"\n")?;
    Ok(lines)
}

/// How many sessions the notes of workers have. The sum of fewer than 2^64 lengths fits.
pub(crate) fn sessions_of(notes: &[WorkerNote]) -> u128
    ensures value { result ≡ sessions_of notes.now }
{
    let mut count: u128 = 0;
    for note in notes {
        count += note.sessions.get().len() as u128;
    }
    count
}

/// The status that the end of one worker asks for, where this one is due.
fn with_end(end: WorkerEnd, status: Status) -> Status
    ensures value { result ≡ with_end end status }
{
    match (end, status) {
        (WorkerEnd::DoorFault, _) => Status::Outside,
        (WorkerEnd::Memory, Status::Done) => Status::Memory,
        _ => status,
    }
}

/// The status that the ends of workers ask for.
pub(crate) fn status_of(notes: &[WorkerNote]) -> Status
    ensures value { result ≡ status_of notes.now }
{
    let mut status = Status::Done;
    for note in notes {
        status = with_end(note.end, status);
    }
    status
}
