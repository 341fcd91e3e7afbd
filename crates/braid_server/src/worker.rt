//! Workers, each in a thread of its own.

ghost use Rattle.std.specs.Prelude.{All};
ghost use Rattle.std.specs.List.{AllZip};
ghost use Rattle.braid_server.specs.Workers.{IsReady, RanDoor};

use braid_hall::{Hall, Pass};
use braid_io::{Bell, Door};
use braid_session::{WorkerNote, serve_door};
use braid_store::Book;
use std::alloc::Global;
use std::sync::Wait;
use std::thread::{Threads, for_each_mut};

/// What one worker works with, and what it leaves: its door, its bell, its pass and its note.
#[derive(Drop)]
pub(crate) struct Worker<D, L> {
    pub alloc: Global,
    pub door: D,
    pub bell: L,
    pub pass: Pass<Book>,
    pub note: WorkerNote,
}

/// Runs one worker: it serves its door.
fn run_one<R: Wait, D: Door, L: Bell>(rt: &R, hall: &Hall<Book>, worker: &mut Worker<D, L>)
    requires ready { IsReady hall.now worker.old }
    ensures ran { RanDoor D.doorway L.ringing worker.old worker.new }
{
    worker.note = serve_door(
        worker.alloc,
        rt,
        hall,
        &mut worker.pass,
        &mut worker.door,
        &mut worker.bell,
    );
}

/// Runs all workers beside one another: their list is halved again and again, and each half has a thread of its own,
/// until one worker is left. No clause says that two threads ran.
pub(crate) fn run_all<D: Door, L: Bell, R: Threads + Wait + Sync>(
    rt: &R,
    hall: &Hall<Book>,
    workers: &mut [Worker<D, L>],
)
    requires ready { All (λ w. IsReady hall.now w) workers.old }
    ensures ran { AllZip (RanDoor D.doorway L.ringing) workers.old workers.new }
{
    let threads = workers.len().max(1);
    let work = |_place: usize, worker: &mut Worker<D, L>|
        requires { IsReady hall.now worker.old }
        ensures { RanDoor D.doorway L.ringing worker.old worker.new }
    { run_one(rt, hall, worker) };
    for_each_mut(rt, workers, threads, &work);
}
