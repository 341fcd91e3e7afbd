//! Changes in one block, with its sum.

ghost use Rattle.std.specs.Prelude.{◌≡◌, ℕ, ◌+◌, ◌-◌, ◌*◌, ◌<◌, ◌≤◌, ◌^◌, List, Some, All, IsSomeAnd, OnOk, map, take, drop, length, slice_get, slice_set, vec_len, vec_capacity};
ghost use Rattle.std.specs.List.{insert, remove};
ghost use Rattle.braid_spans.specs.Kept.{undeleted_in};
ghost use Rattle.braid_spans.specs.Blocks.{flat, sum_of, weight, before, IsSpot, IsFilled};
ghost use Rattle.braid_spans.specs.declared.run.Run.{Run};

use crate::block::Block;
use crate::run::Run;
use crate::sum::{Spot, Sum, sum_up};
use braid_ids::Memory;

/// Puts a run in the place of another, which it gives back.
pub fn set_at(blocks: &mut Vec<Block>, sums: &mut Vec<Sum>, spot: Spot, run: Run) -> Run
    requires there { IsSpot blocks.old.items spot (λ b. spot.index < length b) }
    requires sums { sums.old.items ≡ map sum_of blocks.old.items }
    requires few { undeleted_in
        (slice_set (flat blocks.old.items) (before blocks.old.items spot.block + spot.index) run) < 2 ^ 32 }
    ensures list { flat blocks.new.items
        ≡ slice_set (flat blocks.old.items) (before blocks.old.items spot.block + spot.index) run }
    ensures old { slice_get (flat blocks.old.items) (before blocks.old.items spot.block + spot.index) ≡ Some result }
    ensures sums { sums.new.items ≡ map sum_of blocks.new.items }
    ensures small { All IsFilled blocks.old.items → All IsFilled blocks.new.items }
    ensures weight { weight blocks.new.items ≡ weight blocks.old.items }
    ensures len { length blocks.new.items ≡ length blocks.old.items }
    ensures capacity { vec_capacity blocks.new ≡ vec_capacity blocks.old }
    ensures sums_capacity { vec_capacity sums.new ≡ vec_capacity sums.old }
{
    let old = blocks[spot.block].set(spot.index, run);
    let out = old.undeleted();
    let added = run.undeleted();
    let sum = &mut sums[spot.block];
    sum.undeleted = sum.undeleted - out + added;
    old
}

/// Puts a run between others, in a block with room.
pub fn insert_at(blocks: &mut Vec<Block>, sums: &mut Vec<Sum>, spot: Spot, run: Run)
    requires there { IsSpot blocks.old.items spot (λ b. spot.index ≤ length b) }
    requires roomy { IsSpot blocks.old.items spot (λ b. length b < 256) }
    requires sums { sums.old.items ≡ map sum_of blocks.old.items }
    requires few { undeleted_in (flat blocks.old.items) + run.len < 2 ^ 32 }
    ensures list { flat blocks.new.items
        ≡ insert (flat blocks.old.items) (before blocks.old.items spot.block + spot.index) run }
    ensures sums { sums.new.items ≡ map sum_of blocks.new.items }
    ensures small { All IsFilled blocks.old.items → All IsFilled blocks.new.items }
    ensures weight { weight blocks.new.items ≤ weight blocks.old.items + 1 }
    ensures len { length blocks.new.items ≡ length blocks.old.items }
    ensures capacity { vec_capacity blocks.new ≡ vec_capacity blocks.old }
    ensures sums_capacity { vec_capacity sums.new ≡ vec_capacity sums.old }
{
    blocks[spot.block].insert(spot.index, run);
    let added = run.undeleted();
    let sum = &mut sums[spot.block];
    sum.runs += 1;
    sum.undeleted += added;
}

/// Takes a run out, and gives it back.
pub fn remove_at(blocks: &mut Vec<Block>, sums: &mut Vec<Sum>, spot: Spot) -> Run
    requires there { IsSpot blocks.old.items spot (λ b. spot.index < length b) }
    requires sums { sums.old.items ≡ map sum_of blocks.old.items }
    ensures list { flat blocks.new.items ≡ remove (flat blocks.old.items)
        (before blocks.old.items spot.block + spot.index) }
    ensures old { slice_get (flat blocks.old.items) (before blocks.old.items spot.block + spot.index) ≡ Some result }
    ensures sums { sums.new.items ≡ map sum_of blocks.new.items }
    ensures small { All IsFilled blocks.old.items → All IsFilled blocks.new.items }
    ensures weight { weight blocks.new.items ≤ weight blocks.old.items }
    ensures len { length blocks.new.items ≡ length blocks.old.items }
    ensures capacity { vec_capacity blocks.new ≡ vec_capacity blocks.old }
    ensures sums_capacity { vec_capacity sums.new ≡ vec_capacity sums.old }
{
    let old = blocks[spot.block].remove(spot.index);
    let out = old.undeleted();
    let sum = &mut sums[spot.block];
    sum.runs -= 1;
    sum.undeleted -= out;
    old
}

/// Puts a block before number `i`, or at the end.
fn put_block(blocks: &mut Vec<Block>, i: usize, block: Block)
    requires within { i ≤ length blocks.old.items }
    requires spare { vec_len blocks.old < vec_capacity blocks.old }
    ensures list { blocks.new.items ≡ insert blocks.old.items i block }
    ensures capacity { vec_capacity blocks.new ≡ vec_capacity blocks.old }
{
    let _ = blocks.insert(i, block);
}

/// Puts what is kept of a block before number `i`, or at the end.
fn put_sum(sums: &mut Vec<Sum>, i: usize, sum: Sum)
    requires within { i ≤ length sums.old.items }
    requires spare { vec_len sums.old < vec_capacity sums.old }
    ensures list { sums.new.items ≡ insert sums.old.items i sum }
    ensures capacity { vec_capacity sums.new ≡ vec_capacity sums.old }
{
    let _ = sums.insert(i, sum);
}

/// Cuts a full block in two.
fn cut_block(blocks: &mut Vec<Block>, sums: &mut Vec<Sum>, block: usize)
    requires full { IsSomeAnd (slice_get blocks.old.items block) (λ b. length b ≡ 256) }
    requires sums { sums.old.items ≡ map sum_of blocks.old.items }
    requires few { undeleted_in (flat blocks.old.items) < 2 ^ 32 }
    requires spare { vec_len blocks.old < vec_capacity blocks.old }
    requires spare_sums { vec_len sums.old < vec_capacity sums.old }
    ensures list { IsSomeAnd (slice_get blocks.old.items block) (λ b. blocks.new.items
        ≡ insert (slice_set blocks.old.items block (take 128 b)) (block + 1) (drop 128 b)) }
    ensures sums { sums.new.items ≡ map sum_of blocks.new.items }
    ensures capacity { vec_capacity blocks.new ≡ vec_capacity blocks.old }
    ensures sums_capacity { vec_capacity sums.new ≡ vec_capacity sums.old }
{
    let rest = blocks[block].cut();
    let front_sum = sum_up(blocks[block].runs());
    let rest_sum = sum_up(rest.runs());
    sums[block] = front_sum;
    put_sum(sums, block + 1, rest_sum);
    put_block(blocks, block + 1, rest);
}

/// Cuts a full block in two: where the spot is then.
fn split(blocks: &mut Vec<Block>, sums: &mut Vec<Sum>, spot: Spot) -> Spot
    requires there { IsSpot blocks.old.items spot (λ b. spot.index ≤ length b) }
    requires full { IsSpot blocks.old.items spot (λ b. length b ≡ 256) }
    requires small { All IsFilled blocks.old.items }
    requires sums { sums.old.items ≡ map sum_of blocks.old.items }
    requires few { undeleted_in (flat blocks.old.items) < 2 ^ 32 }
    requires spare { length blocks.old.items < vec_capacity blocks.old }
    requires spare_sums { length sums.old.items < vec_capacity sums.old }
    ensures list { flat blocks.new.items ≡ flat blocks.old.items }
    ensures spot { before blocks.new.items result.block + result.index
        ≡ before blocks.old.items spot.block + spot.index }
    ensures there { IsSpot blocks.new.items result (λ b. result.index ≤ length b) }
    ensures roomy { IsSpot blocks.new.items result (λ b. length b < 256) }
    ensures sums { sums.new.items ≡ map sum_of blocks.new.items }
    ensures small { All IsFilled blocks.new.items }
    ensures weight { weight blocks.new.items + 128 ≡ weight blocks.old.items }
    ensures len { length blocks.new.items ≡ length blocks.old.items + 1 }
    ensures capacity { vec_capacity blocks.new ≡ vec_capacity blocks.old }
    ensures sums_capacity { vec_capacity sums.new ≡ vec_capacity sums.old }
{
    cut_block(blocks, sums, spot.block);
    if spot.index <= 128 {
        return spot;
    }
    Spot {
        block: spot.block + 1,
        index: spot.index - 128,
    }
}

/// Sees to it that a spot's block has room for another run: where the spot is then.
pub fn make_room(blocks: &mut Vec<Block>, sums: &mut Vec<Sum>, spot: Spot) -> Spot
    requires there { IsSpot blocks.old.items spot (λ b. spot.index ≤ length b) }
    requires small { All IsFilled blocks.old.items }
    requires sums { sums.old.items ≡ map sum_of blocks.old.items }
    requires few { undeleted_in (flat blocks.old.items) < 2 ^ 32 }
    requires spare { weight blocks.old.items + 128 * length blocks.old.items < 128 * vec_capacity blocks.old }
    requires spare_sums { weight blocks.old.items + 128 * length blocks.old.items < 128 * vec_capacity sums.old }
    ensures list { flat blocks.new.items ≡ flat blocks.old.items }
    ensures spot { before blocks.new.items result.block + result.index
        ≡ before blocks.old.items spot.block + spot.index }
    ensures there { IsSpot blocks.new.items result (λ b. result.index ≤ length b) }
    ensures roomy { IsSpot blocks.new.items result (λ b. length b < 256) }
    ensures sums { sums.new.items ≡ map sum_of blocks.new.items }
    ensures small { All IsFilled blocks.new.items }
    ensures weight { weight blocks.new.items + 128 * length blocks.new.items
        ≡ weight blocks.old.items + 128 * length blocks.old.items }
    ensures capacity { vec_capacity blocks.new ≡ vec_capacity blocks.old }
    ensures sums_capacity { vec_capacity sums.new ≡ vec_capacity sums.old }
{
    if blocks[spot.block].is_full() {
        return split(blocks, sums, spot);
    }
    spot
}

/// Makes room for this many more blocks.
pub fn reserve_blocks(
    blocks: &mut Vec<Block>,
    sums: &mut Vec<Sum>,
    spare: usize,
) -> Result<(), Memory>
    ensures list { blocks.new.items ≡ blocks.old.items }
    ensures sums { sums.new.items ≡ sums.old.items }
    ensures ok { OnOk result (spare + length blocks.new.items ≤ vec_capacity blocks.new) }
    ensures ok_sums { OnOk result (spare + length sums.new.items ≤ vec_capacity sums.new) }
    ensures capacity { vec_capacity blocks.old ≤ vec_capacity blocks.new }
    ensures sums_capacity { vec_capacity sums.old ≤ vec_capacity sums.new }
{
    blocks.reserve(spare)?;
    sums.reserve(spare)?;
    Ok(())
}

/// Sees to it that there is a block.
pub fn begin_blocks(blocks: &mut Vec<Block>, sums: &mut Vec<Sum>)
    requires sums { sums.old.items ≡ map sum_of blocks.old.items }
    requires spare { length blocks.old.items < vec_capacity blocks.old }
    requires spare_sums { length sums.old.items < vec_capacity sums.old }
    ensures list { flat blocks.new.items ≡ flat blocks.old.items }
    ensures some { 0 < length blocks.new.items }
    ensures sums { sums.new.items ≡ map sum_of blocks.new.items }
    ensures small { All IsFilled blocks.old.items → All IsFilled blocks.new.items }
    ensures weight { weight blocks.new.items ≡ weight blocks.old.items }
    ensures len { length blocks.new.items ≤ length blocks.old.items + 1 }
    ensures capacity { vec_capacity blocks.new ≡ vec_capacity blocks.old }
    ensures sums_capacity { vec_capacity sums.new ≡ vec_capacity sums.old }
{
    if !blocks.is_empty() {
        return;
    }
    blocks.push_reserved(Block::new());
    sums.push_reserved(Sum {
        runs: 0,
        undeleted: 0,
    });
}
