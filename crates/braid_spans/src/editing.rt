//! Cuts of runs, which change no element, and the change of one element's run.

ghost use Rattle.std.specs.Prelude.{◌≡◌, ℕ, ◌+◌, ◌-◌, ◌<◌, ◌≤◌, Some, All, IsSomeAnd, length, slice_get};
ghost use Rattle.braid_spans.specs.Kept.{IsHeldAt, front_of, rest_of, IsSmall, IsEndAt, IsPartAt, IsNext, SpellsAlike, PassesFirst};

use crate::runs::Runs;
use braid_tree::At;

/// Cuts run number `index` before its element number `k`.
pub fn cut(runs: &mut Runs, index: usize, k: u32)
    requires some { 0 < k }
    requires inner { IsSomeAnd (slice_get runs.old.list index) (λ r. (k < r.len) × IsSmall r) }
    requires roomy { 0 < runs.old.room }
    ensures alike { SpellsAlike runs.old.list runs.new.list }
    ensures front { IsSomeAnd (slice_get runs.old.list index)
        (λ r. slice_get runs.new.list index ≡ Some (front_of r k)) }
    ensures rest { IsSomeAnd (slice_get runs.old.list index)
        (λ r. slice_get runs.new.list (index + 1) ≡ Some (rest_of r k)) }
    ensures count { length runs.new.list ≡ length runs.old.list + 1 }
    ensures room { runs.old.room ≤ runs.new.room + 1 }
{
    let run = runs.get(index);
    runs.set(index, run.front(k));
    runs.insert(index + 1, run.rest(k));
}

/// Where a run may be put behind the element at `at`: the number of a run that begins there, or the end. The run that
/// goes on behind it is cut.
pub fn open_behind(runs: &mut Runs, at: At) -> usize
    requires there { (i : ℕ) × IsHeldAt runs.old.list at i }
    requires small { All IsSmall runs.old.list }
    requires roomy { 0 < runs.old.room }
    ensures alike { SpellsAlike runs.old.list runs.new.list }
    ensures behind { 0 < result }
    ensures end { IsEndAt runs.new.list at (result - 1) }
    ensures count { length runs.new.list ≤ length runs.old.list + 1 }
    ensures room { runs.old.room ≤ runs.new.room + 1 }
{
    let index = runs.find(at);
    let run = runs.get(index);
    let k = at.ordinal - run.first.ordinal + 1;
    if k < run.len {
        cut(runs, index, k);
    }
    index + 1
}

/// Leaves at most so many of the first elements in run number `index`; the others come to be a run behind it.
fn keep_front(runs: &mut Runs, index: usize, most: u32)
    requires there { IsSomeAnd (slice_get runs.old.list index) IsSmall }
    requires some { 0 < most }
    requires roomy { 0 < runs.old.room }
    ensures alike { SpellsAlike runs.old.list runs.new.list }
    ensures part { IsSomeAnd (slice_get runs.old.list index) (λ r. IsPartAt runs.new.list r.first most index) }
    ensures count { length runs.new.list ≤ length runs.old.list + 1 }
    ensures room { runs.old.room ≤ runs.new.room + 1 }
{
    let run = runs.get(index);
    if run.len > most {
        cut(runs, index, most);
    }
}

/// Makes the elements from the one at `at` on, which run number `index` holds, a run of their own, as far as the run has
/// them and at most `most`: the number of that run.
pub fn set_apart(runs: &mut Runs, index: usize, at: At, most: u32) -> usize
    requires there { IsHeldAt runs.old.list at index }
    requires small { All IsSmall runs.old.list }
    requires some { 0 < most }
    requires roomy { 1 < runs.old.room }
    ensures alike { SpellsAlike runs.old.list runs.new.list }
    ensures part { IsPartAt runs.new.list at most result }
    ensures count { length runs.new.list ≤ length runs.old.list + 2 }
    ensures room { runs.old.room ≤ runs.new.room + 2 }
{
    let run = runs.get(index);
    let k = at.ordinal - run.first.ordinal;
    if k == 0 {
        keep_front(runs, index, most);
        return index;
    }
    cut(runs, index, k);
    keep_front(runs, index + 1, most);
    index + 1
}

/// Passes the first element of run number `index` to the run before it, at whose end it goes on.
pub fn pass_first(runs: &mut Runs, index: usize)
    requires behind { 0 < index }
    requires next { IsSomeAnd (slice_get runs.old.list (index - 1))
        (λ l. IsSomeAnd (slice_get runs.old.list index) (IsNext l)) }
    requires small { All IsSmall runs.old.list }
    ensures passed { PassesFirst runs.old.list runs.new.list index }
    ensures count { length runs.new.list ≤ length runs.old.list }
    ensures room { runs.old.room ≤ runs.new.room }
{
    let left = runs.get(index - 1);
    let run = runs.get(index);
    if run.len == 1 {
        runs.remove(index);
    } else {
        runs.set(index, run.rest(1));
    }
    runs.set(index - 1, left.front(left.len + 1));
}
