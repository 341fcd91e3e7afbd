//! All workers of a run: they are made, run beside one another, and taken apart again.

ghost use Rattle.std.specs.Prelude.{◌≡◌, ◌≤◌, [], IfOk, OnOk, vec_len, vec_capacity};
ghost use Rattle.std.specs.List.{AllZip};
ghost use Rattle.braid_hall.specs.Many.{AreAway, SplitsAll};
ghost use Rattle.braid_hall.specs.Passes.{first_pass};
ghost use Rattle.braid_server.specs.Workers.{RanDoor, pairs_of, passes_of, worker_notes, HasRoom, LeavesWork};

use crate::worker::{Worker, run_all};
use braid_hall::{Hall, Pass, close_all, split_all};
use braid_ids::Memory;
use braid_io::{Bell, Door};
use braid_session::{ListSessionNote, ListWorkerNote, WorkerEnd, WorkerNote};
use braid_store::Book;
use std::alloc::Global;
use std::collections::VecDeque;
use std::sync::Wait;
use std::thread::Threads;

/// Lists without items, which have room for what workers work with and leave.
#[derive(Drop)]
struct Lists<D, L> {
    workers: Vec<Worker<D, L>>,
    doors: Vec<(D, L)>,
    passes: Vec<Pass<Book>>,
    notes: Vec<WorkerNote>,
}

/// Lists with room for so many.
fn lists_of<D: Door, L: Bell>(alloc: Global, count: usize) -> Result<Lists<D, L>, Memory>
    ensures lists { IfOk result (λ l. HasRoom count l) }
{
    Ok(Lists {
        workers: Vec::with_capacity(alloc, count)?,
        doors: Vec::with_capacity(alloc, count)?,
        passes: Vec::with_capacity(alloc, count)?,
        notes: Vec::with_capacity(alloc, count)?,
    })
}

/// A worker that has not worked yet.
fn worker_of<D: Door, L: Bell>(alloc: Global, pair: (D, L), pass: Pass<Book>) -> Worker<D, L>
    ensures pair { (result.door, result.bell) ≡ pair }
    ensures pass { result.pass ≡ pass }
{
    let (door, bell) = pair;
    let note = WorkerNote {
        pass: pass.number(),
        sessions: ListSessionNote::of(Vec::new(alloc)),
        end: WorkerEnd::DoorEnd,
    };
    Worker {
        alloc,
        door,
        bell,
        pass,
        note,
    }
}

/// Gives each pair of a door and a bell to a worker, with the pass of its place, into an empty list that has room.
fn make_workers<D: Door, L: Bell>(
    alloc: Global,
    pairs: Vec<(D, L)>,
    passes: Vec<Pass<Book>>,
    workers: &mut Vec<Worker<D, L>>,
)
    requires same { vec_len pairs ≡ vec_len passes }
    requires empty { workers.old.items ≡ [] }
    requires room { vec_len pairs ≤ vec_capacity workers.old }
    ensures pairs { pairs_of workers.new.items ≡ pairs.items }
    ensures passes { passes_of workers.new.items ≡ passes.items }
{
    let count = pairs.len();
    let mut pairs_left = VecDeque::from(pairs);
    let mut passes_left = VecDeque::from(passes);
    for _n in 0..count {
        let Some(pair) = pairs_left.pop_front() else {
            unreachable!()
        };
        let Some(pass) = passes_left.pop_front() else {
            unreachable!()
        };
        workers.push_reserved(worker_of(alloc, pair, pass));
    }
}

/// Takes doors, bells, passes and notes back from workers, in their order, into empty lists that have room.
fn take_apart<D: Door, L: Bell>(
    workers: Vec<Worker<D, L>>,
    doors: &mut Vec<(D, L)>,
    passes: &mut Vec<Pass<Book>>,
    notes: &mut Vec<WorkerNote>,
)
    requires empty { (doors.old.items ≡ []) × (passes.old.items ≡ []) × (notes.old.items ≡ []) }
    requires doors { vec_len workers ≤ vec_capacity doors.old }
    requires passes { vec_len workers ≤ vec_capacity passes.old }
    requires notes { vec_len workers ≤ vec_capacity notes.old }
    ensures doors { doors.new.items ≡ pairs_of workers.items }
    ensures passes { passes.new.items ≡ passes_of workers.items }
    ensures notes { notes.new.items ≡ worker_notes workers.items }
{
    let count = workers.len();
    let mut workers_left = VecDeque::from(workers);
    for _n in 0..count {
        let Some(worker) = workers_left.pop_front() else {
            unreachable!()
        };
        let Worker {
            alloc: _,
            door,
            bell,
            pass,
            note,
        } = worker;
        doors.push_reserved((door, bell));
        passes.push_reserved(pass);
        notes.push_reserved(note);
    }
}

/// Runs workers whose passes are away, beside one another. The passes are then away still.
fn run_workers<D: Door, L: Bell, R: Threads + Wait + Sync>(
    rt: &R,
    hall: &Hall<Book>,
    root: &Pass<Book>,
    workers: &mut Vec<Worker<D, L>>,
)
    requires away { AreAway hall.now root.now (passes_of workers.old.items) }
    ensures ran { AllZip (RanDoor D.doorway L.ringing) workers.old.items workers.new.items }
    ensures away { AreAway hall.now root.now (passes_of workers.new.items) }
{
    run_all(rt, hall, workers.as_mut_slice());
}

/// What workers leave: the book that was closed; where its workers ran, their notes; and the doors with their bells.
#[derive(Drop)]
pub(crate) struct Worked<D, L> {
    pub book: Book,
    pub notes: Option<ListWorkerNote>,
    pub doors: Vec<(D, L)>,
}

/// Splits off so many passes, into an empty list, and makes the lists for their workers.
fn prepare<D: Door, L: Bell>(
    hall: &Hall<Book>,
    alloc: Global,
    root: &mut Pass<Book>,
    passes: &mut Vec<Pass<Book>>,
    count: u32,
) -> Result<Lists<D, L>, Memory>
    requires fresh { root.old ≡ first_pass hall.now 0 [] }
    requires empty { passes.old.items ≡ [] }
    ensures made { SplitsAll hall.now root.old (vec_len passes.new) root.new passes.new.items }
    ensures ok { OnOk result (vec_len passes.new ≡ count) }
    ensures lists { IfOk result (λ l. HasRoom count l) }
{
    split_all(hall, alloc, root, passes, count)?;
    lists_of(alloc, count as usize)
}

/// Splits off a pass for each pair, runs the workers, joins the passes and closes the hall.
///
/// Where there is no memory for passes or workers, no worker runs, and the pairs come back as they are.
pub(crate) fn run_hall<D: Door, L: Bell, R: Threads + Wait + Sync>(
    rt: &R,
    alloc: Global,
    hall: Hall<Book>,
    root: Pass<Book>,
    pairs: Vec<(D, L)>,
    count: u32,
) -> Worked<D, L>
    requires fresh { root ≡ first_pass hall 0 [] }
    requires many { vec_len pairs ≡ count }
    ensures worked { LeavesWork D.doorway L.ringing pairs.items result.doors.items result.notes result.book }
{
    let mut root = root;
    let mut passes = Vec::new(alloc);
    let Ok(lists) = prepare(&hall, alloc, &mut root, &mut passes, count) else {
        return Worked {
            book: close_all(hall, root, passes),
            notes: None,
            doors: pairs,
        };
    };
    let Lists {
        mut workers,
        mut doors,
        passes: mut passes_back,
        mut notes,
    } = lists;
    make_workers(alloc, pairs, passes, &mut workers);
    run_workers(rt, &hall, &root, &mut workers);
    take_apart(workers, &mut doors, &mut passes_back, &mut notes);
    Worked {
        book: close_all(hall, root, passes_back),
        notes: Some(ListWorkerNote::of(notes)),
        doors,
    }
}
