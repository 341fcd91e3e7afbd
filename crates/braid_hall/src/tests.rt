ghost use Rattle.std.specs.Prelude.{◌≡◌, ℕ, ◌<◌, false};
ghost use Rattle.braid_hall.specs.Many.{AreAway, KeepsPass};

use crate::{Annals, Hall, Pass, Turn, close_all, split_all};
use braid_ids::Memory;
use std::alloc::Global;
use std::sync::Wait;
use std::thread::{Threads, for_each_mut};

/// How many turns each thread takes.
const TURNS: u32 = 2_000;

#[derive(Clone, Copy)]
struct Note {
    by: u32,
    turn: u32,
}

#[derive(Drop)]
struct Notes {
    items: Vec<Note>,
}

impl Annals for Notes {
    type Entry = Note;

    ghost entries = { λ b. b.items.items };

    ghost by = { λ e. e.by };

    fn count(&self) -> u64 {
        self.items.len() as u64
    }
}

fn no_notes(alloc: Global) -> Notes {
    Notes {
        items: Vec::new(alloc),
    }
}

/// One turn that adds a note, where there is memory for it. Whether it was added.
fn note_turn<R: Wait>(rt: &R, hall: &Hall<Notes>, pass: &mut Pass<Notes>, turn: u32) -> bool
    requires { (pass.old.hall ≡ hall.now) × (pass.old.held ≡ false) × (0 < pass.old.spare) }
    ensures { KeepsPass pass.old pass.new }
{
    let Turn::Held(mut book) = hall.enter(rt, pass) else {
        return false;
    };
    let by = pass.number();
    let added = book.items.push(Note { by, turn }).is_ok();
    hall.leave(pass, book);
    added
}

/// The turns of one thread: each adds a note, as long as there is memory for its mark.
fn take_turns<R: Wait>(rt: &R, hall: &Hall<Notes>, pass: &mut Pass<Notes>)
    requires idle { (pass.old.hall ≡ hall.now) × (pass.old.held ≡ false) }
    ensures keeps { KeepsPass pass.old pass.new }
{
    for turn in 0..TURNS {
        if pass.reserve(1).is_err() {
            return;
        }
        note_turn(rt, hall, pass, turn);
    }
}

fn run_threads<R: Threads + Wait + Sync>(
    rt: &R,
    hall: &Hall<Notes>,
    root: &Pass<Notes>,
    passes: &mut [Pass<Notes>],
)
    requires away { AreAway hall.now root.now passes.old }
    ensures away { AreAway hall.now root.now passes.new }
{
    let threads = passes.len().max(1);
    let turns = |_place: usize, pass: &mut Pass<Notes>|
        requires { (pass.old.hall ≡ hall.now) × (pass.old.held ≡ false) }
        ensures { KeepsPass pass.old pass.new }
    { take_turns(rt, hall, pass) };
    for_each_mut(rt, passes, threads, &turns);
}

/// Whether the notes of one pass are those of its turns, in order.
fn has_each_turn(notes: &[Note], by: u32) -> bool {
    let mut next = 0u32;
    for note in notes {
        if note.by == by {
            if note.turn != next {
                return false;
            }
            next = next.wrapping_add(1);
        }
    }
    next == TURNS
}

#[test]
fn four_threads_add_each_entry_once_and_in_order(rt: HostRuntime) -> Result<(), Memory> {
    let (hall, mut root) = Hall::open(rt.alloc(), no_notes(rt.alloc()))?;
    let mut passes = Vec::new(rt.alloc());
    split_all(&hall, rt.alloc(), &mut root, &mut passes, 4)?;
    run_threads(&rt, &hall, &root, passes.as_mut_slice());
    let book = close_all(hall, root, passes);
    assert!(rt; book.items.len() == 4 * TURNS as usize);
    for by in 1..5 {
        assert!(rt; has_each_turn(&book.items, by));
    }
    Ok(())
}

#[test]
fn the_last_ticket_is_held_and_the_next_is_worn(rt: HostRuntime) -> Result<(), Memory> {
    let (hall, mut root) = Hall::open_at(rt.alloc(), no_notes(rt.alloc()), 0x7fff_ffff_ffff_ffff)?;
    root.reserve(1)?;
    assert!(rt; note_turn(&rt, &hall, &mut root, 0));
    root.reserve(1)?;
    let Turn::Worn = hall.enter(&rt, &mut root) else {
        panic!(rt; "a turn past the last ticket")
    };
    let book = hall.close(root);
    assert!(rt; book.items.len() == 1);
    Ok(())
}

#[test]
fn a_pass_finds_what_another_left(rt: HostRuntime) -> Result<(), Memory> {
    let (hall, mut root) = Hall::open(rt.alloc(), no_notes(rt.alloc()))?;
    let mut other = hall.split(rt.alloc(), &mut root)?;
    assert!(rt; root.number() == 0);
    assert!(rt; other.number() == 1);
    other.reserve(1)?;
    assert!(rt; note_turn(&rt, &hall, &mut other, 7));
    root.reserve(1)?;
    let Turn::Held(book) = hall.enter(&rt, &mut root) else {
        panic!(rt; "no turn")
    };
    assert!(rt; book.items.len() == 1);
    assert!(rt; book.items[0].by == 1);
    assert!(rt; book.items[0].turn == 7);
    hall.leave(&mut root, book);
    hall.join(&mut root, other);
    let book = hall.close(root);
    assert!(rt; book.items.len() == 1);
    Ok(())
}
