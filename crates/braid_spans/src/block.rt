ghost use Rattle.std.specs.Prelude.{◌≡◌, ◌+◌, ◌-◌, ◌<◌, ◌≤◌, [], false, IsTrue, Some, length, take, drop, slice_get, slice_set};
ghost use Rattle.std.specs.List.{insert, remove};

use crate::run::Run;
use arrayvec::ArrayVec;
use std::marker::Model;

/// At most 256 runs that stand together.
#[derive(Drop)]
pub struct Block {
    runs: ArrayVec<Run, 256>,
}

impl Model for Block {
    ghost use Rattle.std.specs.Prelude.{List};
    ghost use Rattle.braid_spans.specs.declared.run.Run.{Run};

    ghost Value = { List Run };

    ghost view = { λ b. b.runs.items };
}

impl Block {
    /// The block without runs.
    pub fn new() -> Block
        ensures none { result ≡ [] }
    {
        Block {
            runs: ArrayVec::new(),
        }
    }

    /// Its runs.
    pub fn runs(&self) -> &[Run]
        ensures value { result.now ≡ self.now }
        ensures few { length self.now ≤ 256 }
    {
        self.runs.as_slice()
    }

    /// Run number `k`.
    pub fn get(&self, k: usize) -> Run
        requires within { k < length self.now }
        ensures value { slice_get self.now k ≡ Some result }
    {
        run_at(self.runs.as_slice(), k)
    }

    /// Whether there is no room for another run.
    pub fn is_full(&self) -> bool
        ensures full { IsTrue result → 256 ≤ length self.now }
        ensures roomy { result ≡ false → length self.now < 256 }
    {
        self.runs.is_full()
    }

    /// Puts a run in the place of number `k`, which it gives back.
    pub fn set(&mut self, k: usize, run: Run) -> Run
        requires within { k < length self.old }
        ensures list { self.new ≡ slice_set self.old k run }
        ensures old { slice_get self.old k ≡ Some result }
    {
        let old = run_at(self.runs.as_slice(), k);
        self.runs[k] = run;
        old
    }

    /// Puts a run before number `k`, or at the end.
    pub fn insert(&mut self, k: usize, run: Run)
        requires within { k ≤ length self.old }
        requires roomy { length self.old < 256 }
        ensures list { self.new ≡ insert self.old k run }
    {
        self.runs.insert(k, run);
    }

    /// Takes run number `k` out.
    pub fn remove(&mut self, k: usize) -> Run
        requires within { k < length self.old }
        ensures list { self.new ≡ remove self.old k }
        ensures old { slice_get self.old k ≡ Some result }
    {
        let old = run_at(self.runs.as_slice(), k);
        self.runs.remove(k);
        old
    }

    /// Leaves the first 128 runs, and gives a block of the others.
    pub fn cut(&mut self) -> Block
        requires long { 128 ≤ length self.old }
        ensures front { self.new ≡ take 128 self.old }
        ensures rest { result ≡ drop 128 self.old }
    {
        let rest = block_of(&self.runs.as_slice()[128..]);
        self.runs.truncate(128);
        rest
    }
}

/// A block of these runs.
fn block_of(runs: &[Run]) -> Block
    requires few { length runs.now ≤ 256 }
    ensures list { result ≡ runs.now }
{
    let mut items = ArrayVec::new();
    let Ok(()) = items.try_extend_from_slice(runs) else {
        unreachable!()
    };
    Block { runs: items }
}

/// Run number `k` of a list.
fn run_at(runs: &[Run], k: usize) -> Run
    requires within { k < length runs.now }
    ensures value { slice_get runs.now k ≡ Some result }
{
    runs[k]
}
