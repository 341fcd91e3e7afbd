//! What is kept of each block beside it, so that a walk over the blocks reads these numbers alone.

ghost use Rattle.std.specs.Prelude.{◌≡◌, ℕ, ◌+◌, ◌<◌, ◌≤◌, ◌^◌, List, IsSomeAnd, length, map, slice_get};
ghost use Rattle.braid_spans.specs.Blocks.{flat, sum_of, runs_in, before, IsSpot};
ghost use Rattle.braid_spans.specs.Kept.{undeleted_in};
ghost use Rattle.braid_spans.specs.declared.run.Run.{Run};
ghost use Rattle.braid_spans.specs.declared.sum.Sum.{Sum};

use crate::run::Run;

/// What is kept of a block.
#[derive(Clone, Copy)]
pub struct Sum {
    /// How many runs the block has.
    pub runs: usize,
    /// How many of their elements nothing deletes.
    pub undeleted: u32,
}

/// Where a run stands: the number of its block, and its number there.
#[derive(Clone, Copy)]
pub struct Spot {
    pub block: usize,
    pub index: usize,
}

/// What is to be kept of a block of these runs.
pub fn sum_up(runs: &[Run]) -> Sum
    requires few { undeleted_in runs.now < 2 ^ 32 }
    ensures value { result ≡ sum_of runs.now }
{
    let mut undeleted = 0;
    for run in runs {
        undeleted += run.undeleted();
    }
    Sum {
        runs: runs.len(),
        undeleted,
    }
}

/// How many runs some blocks have.
pub fn count_runs(sums: &[Sum]) -> usize
    requires few { runs_in sums.now < 2 ^ 32 }
    ensures count { result ≡ runs_in sums.now }
{
    let mut count = 0;
    for sum in sums {
        count += sum.runs;
    }
    count
}

/// Where run number `i` of all stands.
pub fn spot_of(sums: &[Sum], i: usize) -> Spot
    requires within { i < runs_in sums.now }
    ensures few { result.index ≤ i }
    ensures spot { (bs : List (List Run)) → sums.now ≡ map sum_of bs → IsSpot bs result (λ b. result.index < length b) }
    ensures number { (bs : List (List Run)) → sums.now ≡ map sum_of bs → before bs result.block + result.index ≡ i }
{
    let mut index = i;
    for (block, sum) in sums.iter().enumerate() {
        if index < sum.runs {
            return Spot { block, index };
        }
        index -= sum.runs;
    }
    unreachable!()
}

/// Where a run may be put before number `i` of all, or at the end: behind the run before it, in its block.
pub fn gap_of(sums: &[Sum], i: usize) -> Spot
    requires some { 0 < length sums.now }
    requires within { i ≤ runs_in sums.now }
    ensures spot { (bs : List (List Run)) → sums.now ≡ map sum_of bs → IsSpot bs result (λ b. result.index ≤ length b) }
    ensures number { (bs : List (List Run)) → sums.now ≡ map sum_of bs → before bs result.block + result.index ≡ i }
{
    if i == 0 {
        return Spot { block: 0, index: 0 };
    }
    let last = spot_of(sums, i - 1);
    Spot {
        block: last.block,
        index: last.index + 1,
    }
}
