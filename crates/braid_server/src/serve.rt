//! A run of `serve`, from its words to its last lines.

ghost use Rattle.std.specs.Prelude.{◌≡◌, [], vec_len};
ghost use Rattle.braid_store.specs.Books.{IsLegalBook};
ghost use Rattle.braid_server.specs.Runs.{HasNone, ServeRuns, ServesPairs, Finishes, PrintsLast};

use crate::command::FormFault;
use crate::form::read_form;
use crate::print::{last_lines, serving_line, sessions_of, status_of};
use crate::workers::{Worked, run_hall};
use braid_hall::Hall;
use braid_ids::Word;
use braid_io::{Asked, Bell, Door, Opened, Port, Sink, Status, write_all};
use braid_lines::{print, refuse_words};
use braid_session::ListWorkerNote;
use braid_store::Book;
use std::alloc::Global;
use std::sync::Wait;
use std::thread::Threads;

/// What a run of `serve` leaves.
#[derive(Drop)]
pub struct Served<D, L> {
    /// How it ended.
    pub status: Status,
    /// The closed book; `None` where the run ended before the hall was opened.
    pub book: Option<Book>,
    /// One note for each worker, in the order of the doors; none where the run ended before the workers began.
    pub workers: ListWorkerNote,
    /// The doors that the port gave, each with its bell, in the port's order.
    pub doors: Vec<(D, L)>,
}

/// A run that ended before the port was open.
fn none_served<D: Door, L: Bell>(alloc: Global, status: Status) -> Served<D, L>
    ensures none { HasNone result }
    ensures status { result.status ≡ status }
{
    Served {
        status,
        book: None,
        workers: ListWorkerNote::of(Vec::new(alloc)),
        doors: Vec::new(alloc),
    }
}

/// A run that ended before its workers began.
fn not_begun<D: Door, L: Bell>(
    alloc: Global,
    status: Status,
    book: Option<Book>,
    doors: Vec<(D, L)>,
) -> Served<D, L>
    ensures status { result.status ≡ status }
    ensures book { result.book ≡ book }
    ensures workers { result.workers ≡ [] }
    ensures doors { result.doors.items ≡ doors.items }
{
    Served {
        status,
        book,
        workers: ListWorkerNote::of(Vec::new(alloc)),
        doors,
    }
}

/// Writes the last lines of a run, and answers its status.
fn print_last<O: Sink>(alloc: Global, book: &Book, notes: &ListWorkerNote, out: &mut O) -> Status
    ensures legal { IsLegalBook book.now }
    ensures prints { PrintsLast book.now notes.now result (O.outflow out.old) (O.outflow out.new) }
    ensures kept { O.beside_writes out.new ≡ O.beside_writes out.old }
{
    let versions = book.len();
    let sessions = sessions_of(notes.get());
    match last_lines(alloc, versions, sessions) {
        Ok(lines) => print(out, lines.get(), status_of(notes.get())),
        Err(_) => Status::Memory,
    }
}

/// What a run leaves, by what its workers left.
fn finish<D: Door, L: Bell, O: Sink>(
    alloc: Global,
    worked: Worked<D, L>,
    out: &mut O,
) -> Served<D, L>
    ensures finishes { Finishes worked result (O.outflow out.old) (O.outflow out.new) }
    ensures kept { O.beside_writes out.new ≡ O.beside_writes out.old }
{
    let Worked { book, notes, doors } = worked;
    let Some(workers) = notes else {
        return not_begun(alloc, Status::Memory, Some(book), doors);
    };
    Served {
        status: print_last(alloc, &book, &workers, out),
        book: Some(book),
        workers,
        doors,
    }
}

/// Serves at the doors that a port gave.
fn serve_pairs<R: Threads + Wait + Sync, D: Door, L: Bell, O: Sink>(
    alloc: Global,
    rt: &R,
    asked: &Asked,
    pairs: Vec<(D, L)>,
    out: &mut O,
) -> Served<D, L>
    requires many { vec_len pairs ≡ asked.now.workers }
    ensures serves { ServesPairs D.doorway L.ringing asked.now pairs.items result
        (O.outflow out.old) (O.outflow out.new) }
    ensures kept { O.beside_writes out.new ≡ O.beside_writes out.old }
{
    let Ok(line) = serving_line(alloc, asked.server.get()) else {
        return not_begun(alloc, Status::Memory, None, pairs);
    };
    let Ok(()) = write_all(line.get(), out) else {
        return not_begun(alloc, Status::Outside, None, pairs);
    };
    let Ok((hall, root)) = Hall::open(alloc, Book::new(alloc)) else {
        return not_begun(alloc, Status::Memory, None, pairs);
    };
    let worked = run_hall(rt, alloc, hall, root, pairs, asked.workers);
    finish(alloc, worked, out)
}

/// Carries out `serve`: opens a port at the server's address, prints `serving: SERVER`, and answers the connections of
/// its doors, each door by one worker, with one history for all of them. It may run until it is stopped from outside.
///
/// The words are `serve`, the address, and the options `--workers` (1 to 32, or 4) and `--take` (1 to 1,000,000, or
/// that many): the number of connections that all doors take together. At the end it prints `versions: N`, the length
/// of the book, and `sessions: N`, the number of sessions. Other words print `fault: Usage`, and a port that cannot be
/// opened `fault: PortFault`.
///
/// The status: Done where all was printed and no door failed; Usage for other words; Outside where the port, a door or
/// a write failed; Memory where there was none. How a session ends does not change it.
pub fn serve_run<R: Threads + Wait + Sync, P: Port, O: Sink>(
    alloc: Global,
    rt: &R,
    words: &[Word],
    port: &mut P,
    out: &mut O,
) -> Served<P::Door, P::Bell>
    ensures runs { ServeRuns P.Door.doorway P.Bell.ringing words.now result (P.porting port.old) (P.porting port.new)
        (O.outflow out.old) (O.outflow out.new) }
    ensures kept { O.beside_writes out.new ≡ O.beside_writes out.old }
{
    let asked = match read_form(alloc, words) {
        Ok(asked) => asked,
        Err(FormFault::NoForm) => return none_served(alloc, refuse_words(out)),
        Err(FormFault::Memory) => return none_served(alloc, Status::Memory),
    };
    match port.open(alloc, &asked.server, asked.workers, asked.take) {
        Opened::Up(pairs) => serve_pairs(alloc, rt, &asked, pairs, out),
        Opened::Failed => none_served(alloc, print(out, b"fault: PortFault\n", Status::Outside)),
        Opened::Memory => none_served(alloc, Status::Memory),
    }
}
