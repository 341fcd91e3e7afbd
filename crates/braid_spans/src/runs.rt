ghost use Rattle.std.specs.Prelude.{◌≡◌, ℕ, ◌+◌, ◌<◌, ◌≤◌, ◌^◌, [], List, Some, IfSome, IfNone, OnOk, length, map, slice_get, slice_set};
ghost use Rattle.std.specs.List.{insert, remove};
ghost use Rattle.braid_spans.specs.Kept.{IsHeldAt, size_in, undeleted_in};
ghost use Rattle.braid_spans.specs.Blocks.{flat, sum_of};

use crate::block::Block;
use crate::blocks::{begin_blocks, insert_at, make_room, remove_at, reserve_blocks, set_at};
use crate::homes::Homes;
use crate::run::Run;
use crate::sum::{Sum, count_runs, gap_of, spot_of};
use braid_ids::Memory;
use braid_tree::At;
use std::alloc::Global;
use std::marker::Model;

/// The runs of a document in reading order, in blocks of at most 256.
///
/// A full block is cut in two. `sums` has of each block how many runs it holds and how many of their elements nothing
/// deletes, so a run is found by its number by a pass over them. `last` is the block of the last change, and `homes` has
/// the blocks where runs were put last: a look-up begins there, and nothing rests on them.
#[derive(Drop)]
pub struct Runs {
    blocks: Vec<Block>,
    sums: Vec<Sum>,
    count: usize,
    undeleted: u32,
    room: usize,
    last: usize,
    homes: Homes,
}

impl Model for Runs {
    ghost use Rattle.std.specs.Prelude.{vec_capacity};
    ghost use Rattle.braid_spans.specs.Kept.{RunsView};
    ghost use Rattle.braid_spans.specs.Blocks.{flat, AreBlocks};

    ghost Value = { RunsView };

    ghost view = { λ r. record { list = flat r.blocks.items; blocks = r.blocks.items; room = r.room } };

    ghost invariant = { λ r. AreBlocks r.blocks.items r.sums.items r.count r.undeleted r.room
        (vec_capacity r.blocks) (vec_capacity r.sums) };
}

impl Runs {
    /// No runs. It takes no memory.
    pub fn new(alloc: Global) -> Runs
        ensures none { result.list ≡ [] }
        ensures room { result.room ≡ 0 }
    {
        Runs {
            blocks: Vec::new(alloc),
            sums: Vec::new(alloc),
            count: 0,
            undeleted: 0,
            room: 0,
            last: 0,
            homes: Homes::new(alloc),
        }
    }

    /// Makes room for this many more runs.
    ///
    /// Errors: `Memory` where there was none; the runs are as before, and the room is at least what it was.
    pub fn reserve(&mut self, more: usize) -> Result<(), Memory>
        requires few { more < 2 ^ 40 }
        ensures ok { OnOk result (more ≤ self.new.room) }
        ensures room { self.old.room ≤ self.new.room }
        ensures list { self.new.list ≡ self.old.list }
    {
        if more <= self.room {
            return Ok(());
        }
        let spare = self.blocks.len() + more / 128 + 2;
        reserve_blocks(&mut self.blocks, &mut self.sums, spare)?;
        begin_blocks(&mut self.blocks, &mut self.sums);
        self.room = more;
        Ok(())
    }

    /// How many runs there are.
    pub fn len(&self) -> usize
        ensures count { result ≡ length self.now.list }
        ensures few { length self.now.list < 2 ^ 32 }
    {
        self.count
    }

    /// Run number `i`.
    pub fn get(&self, i: usize) -> Run
        requires within { i < length self.now.list }
        ensures value { slice_get self.now.list i ≡ Some result }
        ensures size { size_in self.now.list < 2 ^ 32 }
        ensures few { length self.now.list < 2 ^ 32 }
    {
        let spot = spot_of(&self.sums, i);
        self.blocks[spot.block].get(spot.index)
    }

    /// How many elements nothing deletes.
    pub fn undeleted(&self) -> u32
        ensures count { result ≡ undeleted_in self.now.list }
    {
        self.undeleted
    }

    /// Puts a run in the place of number `i`.
    pub fn set(&mut self, i: usize, run: Run)
        requires within { i < length self.old.list }
        requires some { 0 < run.len }
        requires few { size_in (slice_set self.old.list i run) < 2 ^ 32 }
        ensures list { self.new.list ≡ slice_set self.old.list i run }
        ensures room { self.old.room ≤ self.new.room }
    {
        let spot = spot_of(&self.sums, i);
        let old = set_at(&mut self.blocks, &mut self.sums, spot, run);
        let out = old.undeleted();
        let added = run.undeleted();
        self.undeleted = self.undeleted - out + added;
        self.last = spot.block;
    }

    /// Puts a run before number `i`, or at the end.
    pub fn insert(&mut self, i: usize, run: Run)
        requires within { i ≤ length self.old.list }
        requires some { 0 < run.len }
        requires few { size_in self.old.list + run.len < 2 ^ 32 }
        requires roomy { 0 < self.old.room }
        ensures list { self.new.list ≡ insert self.old.list i run }
        ensures room { self.old.room ≤ self.new.room + 1 }
    {
        let gap = gap_of(&self.sums, i);
        let count = self.blocks.len();
        let spot = make_room(&mut self.blocks, &mut self.sums, gap);
        insert_at(&mut self.blocks, &mut self.sums, spot, run);
        let added = run.undeleted();
        self.count += 1;
        self.undeleted += added;
        self.room -= 1;
        self.last = spot.block;
        self.homes.follow_cut(&self.blocks, count, gap.block);
        self.homes.note(&run, spot.block);
    }

    /// Takes run number `i` out.
    pub fn remove(&mut self, i: usize)
        requires within { i < length self.old.list }
        ensures list { self.new.list ≡ remove self.old.list i }
        ensures room { self.old.room ≤ self.new.room }
    {
        let spot = spot_of(&self.sums, i);
        let old = remove_at(&mut self.blocks, &mut self.sums, spot);
        let out = old.undeleted();
        self.count -= 1;
        self.undeleted -= out;
        self.last = spot.block;
    }

    /// Makes room to note the places of runs of so many versions and characters in all.
    ///
    /// Errors: `Memory` where there was none.
    pub fn reserve_homes(&mut self, versions: usize, chars: usize) -> Result<(), Memory>
        ensures kept { self.new ≡ self.old }
    {
        self.homes.reserve(versions, chars)?;
        Ok(())
    }

    /// The number of the run that holds the element at a place. It looks into the blocks where it may stand, then into all.
    pub fn find(&self, at: At) -> usize
        requires there { (i : ℕ) × IsHeldAt self.now.list at i }
        ensures found { IsHeldAt self.now.list at result }
    {
        let near = self.nearest(at);
        let last = near.min(self.blocks.len());
        if let Some(index) = find_in(&self.blocks[last..], at) {
            return count_runs(&self.sums[..last]) + index;
        }
        match find_in(&self.blocks[..last], at) {
            Some(index) => index,
            None => unreachable!(),
        }
    }

    /// The block that holds the element at a place, where it is one of those in which a look-up begins: where a run of its
    /// version or of its characters was put last, and where the last change was, each with the blocks beside it. Else the
    /// first.
    fn nearest(&self, at: At) -> usize {
        let [home, part] = self.homes.guesses(at);
        for guess in [home, part, self.last] {
            for block in [guess, guess.wrapping_sub(1), guess.wrapping_add(1)] {
                if is_in_block(&self.blocks, block, at) {
                    return block;
                }
            }
        }
        0
    }

    /// The blocks that the runs stand in.
    pub fn blocks(&self) -> &[Block]
        ensures value { result.now ≡ self.now.blocks }
        ensures list { self.now.list ≡ flat self.now.blocks }
    {
        &self.blocks
    }

    /// What is kept of each block.
    pub fn sums(&self) -> &[Sum]
        ensures value { result.now ≡ map sum_of self.now.blocks }
    {
        &self.sums
    }
}

/// Whether a block with this number holds the element at a place.
fn is_in_block(blocks: &[Block], block: usize, at: At) -> bool {
    match blocks.get(block) {
        Some(runs) => index_in(runs.runs(), at).is_some(),
        None => false,
    }
}

/// The number of the run of these blocks that holds the element at a place, if one does.
fn find_in(blocks: &[Block], at: At) -> Option<usize>
    requires few { length (flat blocks.now) < 2 ^ 32 }
    ensures found { IfSome result (IsHeldAt (flat blocks.now) at) }
    ensures none { IfNone result ((i : ℕ) → ¬ (IsHeldAt (flat blocks.now) at i)) }
{
    let mut before = 0;
    for block in blocks {
        let runs = block.runs();
        match index_in(runs, at) {
            Some(index) => return Some(before + index),
            None => before += runs.len(),
        }
    }
    None
}

/// The number of the run that holds the element at a place, if one does.
fn index_in(runs: &[Run], at: At) -> Option<usize>
    ensures found { IfSome result (IsHeldAt runs.now at) }
    ensures none { IfNone result ((i : ℕ) → ¬ (IsHeldAt runs.now at i)) }
{
    for (i, run) in runs.iter().enumerate() {
        if run.holds(at) {
            return Some(i);
        }
    }
    None
}
