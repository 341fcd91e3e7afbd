//! The connections of a door, one after another.

ghost use Rattle.std.specs.Prelude.{◌≡◌, false, []};
ghost use Rattle.braid_session.specs.Doors.{ServesDoor};
ghost use Rattle.braid_session.specs.DoorSteps.{HasEnded, Accepted};
ghost use Rattle.braid_session.specs.Orders.{serving_now};

use crate::list_session_note::ListSessionNote;
use crate::serve::serve_session;
use crate::session::{SessionEnd, SessionNote};
use crate::turn::Room;
use crate::worker::{WorkerEnd, WorkerNote};
use braid_hall::{Hall, Pass};
use braid_io::{Bell, Came, Door};
use braid_store::Book;
use std::alloc::Global;
use std::sync::Wait;

/// Accepts the next link, serves it, and puts it back. Answers how the worker ends, where it ends.
fn serve_next<R: Wait, D: Door, L: Bell>(
    room: &Room<R>,
    pass: &mut Pass<Book>,
    door: &mut D,
    bell: &mut L,
    notes: &mut Vec<SessionNote>,
) -> Option<WorkerEnd>
    requires hall { pass.old.hall ≡ room.now.hall.now }
    requires idle { pass.old.held ≡ false }
    ensures accepted { Accepted serving_now result pass.old pass.new notes.old.items notes.new.items
        (D.doorway door.old) (D.doorway door.new) (L.ringing bell.old) (L.ringing bell.new) }
{
    let Ok(()) = notes.reserve(1) else {
        return Some(WorkerEnd::Memory);
    };
    let mut link = match door.accept() {
        Came::Up(link) => link,
        Came::End => return Some(WorkerEnd::DoorEnd),
        Came::Failed => return Some(WorkerEnd::DoorFault),
    };
    let note = serve_session(room.alloc, room.rt, room.hall, pass, &mut link, bell);
    door.put_back(link);
    let end = note.end;
    let kept = notes.push(note);
    prove!(kept.is_ok());
    match end {
        SessionEnd::Worn => Some(WorkerEnd::Worn),
        _ => None,
    }
}

/// Serves the links of a door, one after another, until the worker ends.
fn serve_links<R: Wait, D: Door, L: Bell>(
    room: &Room<R>,
    pass: &mut Pass<Book>,
    door: &mut D,
    bell: &mut L,
    notes: &mut Vec<SessionNote>,
) -> WorkerEnd
    requires hall { pass.old.hall ≡ room.now.hall.now }
    requires idle { pass.old.held ≡ false }
    requires none { notes.old.items ≡ [] }
    ensures ended { HasEnded serving_now result notes.new.items pass.old pass.new
        (D.doorway door.old) (D.doorway door.new) (L.ringing bell.old) (L.ringing bell.new) }
{
    for _ in room.rt.forever() {
        match serve_next(room, pass, door, bell, notes) {
            Some(end) => return end,
            None => {}
        }
    }
    unreachable!()
}

/// Serves the connections of a door, one after another, on the book behind a hall. It goes on until the door ends or
/// fails, a session ends `Worn`, or there is no memory for another note. A session that ends otherwise ends no worker.
///
/// Each link that comes is put back into the door and has its note, in order. Room for the note is made before the door
/// is asked for a link.
///
/// The note has the number of the pass, the notes of the sessions and the end.
pub fn serve_door<R: Wait, D: Door, L: Bell>(
    alloc: Global,
    rt: &R,
    hall: &Hall<Book>,
    pass: &mut Pass<Book>,
    door: &mut D,
    bell: &mut L,
) -> WorkerNote
    requires hall { pass.old.hall ≡ hall.now }
    requires idle { pass.old.held ≡ false }
    ensures serves { ServesDoor serving_now result pass.old pass.new
        (D.doorway door.old) (D.doorway door.new) (L.ringing bell.old) (L.ringing bell.new) }
{
    let room = Room { alloc, rt, hall };
    let pass_number = pass.number();
    let mut notes = Vec::new(alloc);
    let end = serve_links(&room, pass, door, bell, &mut notes);
    WorkerNote {
        pass: pass_number,
        sessions: ListSessionNote::of(notes),
        end,
    }
}
