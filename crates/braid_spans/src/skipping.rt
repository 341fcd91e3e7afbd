//! Blocks that are passed by their counts.

ghost use Rattle.std.specs.Prelude.{◌≡◌, ℕ, ◌+◌, ◌<◌, ◌≤◌, List, All, length, map, take};
ghost use Rattle.braid_spans.specs.Blocks.{flat, sum_of, undeleted_by};
ghost use Rattle.braid_spans.specs.Kept.{chains_of, AreFitting, AreLinked};
ghost use Rattle.braid_spans.specs.SeenRuns.{seen_count};
ghost use Rattle.braid_spans.specs.declared.link.Link.{Link};
ghost use Rattle.braid_spans.specs.declared.run.Run.{Run};

use crate::link::Link;
use crate::sum::Sum;
use braid_ids::Marks;

/// How many blocks were passed, and how many visible elements are to be passed behind them.
#[derive(Clone, Copy)]
pub struct Passed {
    pub blocks: usize,
    pub left: u32,
}

/// Passes the blocks before element number `n` of those that nothing deletes.
fn pass_undeleted(sums: &[Sum], n: u32) -> Passed
    ensures within { result.blocks ≤ length sums.now }
    ensures passed { undeleted_by (take result.blocks sums.now) + result.left ≡ n }
{
    let mut left = n;
    for (block, sum) in sums.iter().enumerate() {
        if left < sum.undeleted {
            return Passed {
                blocks: block,
                left,
            };
        }
        left -= sum.undeleted;
    }
    Passed {
        blocks: sums.len(),
        left,
    }
}

/// Passes blocks before element number `n` of those that marked versions see: by the blocks' counts where each of so many
/// versions is marked, else none.
pub fn pass_blocks(versions: usize, marks: &Marks, links: &[Link], sums: &[Sum], n: u32) -> Passed
    requires linked { AreLinked links.now }
    requires made { All (λ (x : Link). x.by < versions) links.now }
    ensures within { result.blocks ≤ length sums.now }
    ensures passed { (bs : List (List Run)) → sums.now ≡ map sum_of bs
        → (chars : List ℕ) → AreFitting versions chars (chains_of links.now) (flat bs)
        → seen_count marks.now (chains_of links.now) (flat (take result.blocks bs)) + result.left ≡ n }
{
    if marks.is_full() && marks.size() as usize >= versions {
        return pass_undeleted(sums, n);
    }
    Passed { blocks: 0, left: n }
}
