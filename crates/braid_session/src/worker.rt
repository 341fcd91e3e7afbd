ghost use Rattle.std.specs.Prelude.{◌≡◌};

use crate::list_session_note::ListSessionNote;
use std::marker::Model;

/// How a worker ended.
#[derive(Clone, Copy, Debug, PartialEq, Eq)]
pub enum WorkerEnd {
    /// Its door ended.
    DoorEnd,
    /// Its door failed.
    DoorFault,
    /// The hall gives no more turns, and a session ended so.
    Worn,
    /// There was no memory for another note.
    Memory,
}

/// What a worker leaves.
#[derive(Debug, Drop)]
pub struct WorkerNote {
    /// The number of its pass.
    pub pass: u32,
    /// The notes of its sessions: the k-th is that of the k-th link put back into its door.
    pub sessions: ListSessionNote,
    /// How it ended.
    pub end: WorkerEnd,
}

/// A list of worker notes, in their order.
#[derive(Debug, Drop)]
pub struct ListWorkerNote {
    items: Vec<WorkerNote>,
}

impl Model for ListWorkerNote {
    ghost use Rattle.std.specs.Prelude.{List};
    ghost use Rattle.braid_session.specs.declared.worker.WorkerNote.{WorkerNote};

    ghost Value = { List WorkerNote };

    ghost view = { λ list. list.items.items };
}

impl ListWorkerNote {
    /// The list of these notes. It takes no memory.
    pub fn of(items: Vec<WorkerNote>) -> ListWorkerNote
        ensures value { result ≡ items.items }
    {
        ListWorkerNote { items }
    }

    /// The notes, lent as a slice. It takes no memory.
    pub fn get(&self) -> &[WorkerNote]
        ensures value { result.now ≡ self.now }
    {
        self.items.as_slice()
    }
}
