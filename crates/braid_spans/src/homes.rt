//! Where runs were put last: hints, on which nothing rests.

use crate::block::Block;
use crate::run::Run;
use braid_ids::Memory;
use braid_tree::At;
use std::alloc::Global;

/// How many neighbouring characters have one hint.
const PART: usize = 64;

/// Numbers of blocks where a look-up begins, as far as there is room to note them.
///
/// For each version it is the block where a run of it was put last. A version's run that was cut often stands in many
/// blocks, so beside it there is, for each 64 characters in order of arrival, the block where a run of some of them was
/// put last; `starts` says of each version where its ordinals begin among the characters.
#[derive(Drop)]
pub struct Homes {
    blocks: Vec<u32>,
    starts: Vec<u32>,
    parts: Vec<u32>,
}

impl Homes {
    /// Nothing is noted. It takes no memory.
    pub fn new(alloc: Global) -> Homes {
        Homes {
            blocks: Vec::new(alloc),
            starts: Vec::new(alloc),
            parts: Vec::new(alloc),
        }
    }

    /// Makes room for so many versions and characters in all.
    pub fn reserve(&mut self, versions: usize, chars: usize) -> Result<(), Memory> {
        make_room(&mut self.blocks, versions)?;
        make_room(&mut self.starts, versions)?;
        make_room(&mut self.parts, chars / PART + 1)
    }

    /// Where a run with the element at a place may stand: the block of its version, and that of its part.
    pub fn guesses(&self, at: At) -> [usize; 2] {
        let start = hint(&self.starts, at.version as usize);
        let part = start.wrapping_add(at.ordinal) as usize / PART;
        [
            hint(&self.blocks, at.version as usize) as usize,
            hint(&self.parts, part) as usize,
        ]
    }

    /// Notes where a run was put. It takes no memory: without room for it, nothing is noted.
    pub fn note(&mut self, run: &Run, block: usize) {
        let number = small(block);
        let version = run.first.version as usize;
        note_at(&mut self.blocks, version, number);
        let start = run.start.wrapping_sub(run.first.ordinal);
        note_at(&mut self.starts, version, start);
        let end = run.start as usize + run.len as usize;
        for part in run.start as usize / PART..end / PART + 1 {
            note_at(&mut self.parts, part, number);
        }
    }

    /// Follows a cut of block number `block`, where there are more blocks now than `count`.
    pub fn follow_cut(&mut self, blocks: &[Block], count: usize, block: usize) {
        if blocks.len() <= count {
            return;
        }
        shift(&mut self.blocks, small(block));
        shift(&mut self.parts, small(block));
        if let Some(rest) = blocks.get(block.saturating_add(1)) {
            for run in rest.runs() {
                self.note(run, block.saturating_add(1));
            }
        }
    }
}

/// Makes room for so many numbers in all.
fn make_room(numbers: &mut Vec<u32>, all: usize) -> Result<(), Memory> {
    numbers.reserve(all.saturating_sub(numbers.len()))?;
    Ok(())
}

/// What is noted at a place, or 0.
fn hint(numbers: &[u32], place: usize) -> u32 {
    match numbers.get(place) {
        Some(number) => *number,
        None => 0,
    }
}

/// Notes a number at a place, if there is room for it: it takes no memory. Places before it at which nothing was noted
/// have the number too.
fn note_at(numbers: &mut Vec<u32>, place: usize, number: u32) {
    if place < numbers.len() {
        numbers[place] = number;
    } else if place < numbers.capacity() {
        let _ = numbers.resize(place + 1, number);
    }
}

/// Raises the numbers above that of a block.
fn shift(numbers: &mut Vec<u32>, block: u32) {
    for number in numbers {
        if *number > block {
            *number = number.saturating_add(1);
        }
    }
}

/// A block's number in 32 bits. There are never so many blocks that one is left out.
fn small(block: usize) -> u32 {
    block.min(u32::MAX as usize) as u32
}
