//! A run that is put in its place.

ghost use Rattle.std.specs.Prelude.{◌≡◌, ℕ, ◌+◌, ◌-◌, ◌<◌, ◌≤◌, ◌^◌, ◌++◌, List, All, MatchOption, length, vec_len, vec_capacity};
ghost use Rattle.braid_spans.specs.Spans.{spelled};
ghost use Rattle.braid_spans.specs.Kept.{IsHeldAt, IsSmall, IsEndAt, SpellsAlike, AreFitting, IsPut, IsRunPassed, IsRunNotPassed, size_in, spans_of, stamps_in};
ghost use Rattle.braid_spans.specs.declared.run.Run.{Run};

use crate::editing::open_behind;
use crate::run::Run;
use crate::runs::Runs;
use crate::version::{SpanVersion, has_greater_key};
use braid_tree::At;

/// Passes over the runs whose first elements have greater keys than `first`: the number of the next run, or the end.
///
/// The keys of a run rise from its first element on, so all of them are greater where the first is; and what comes
/// next in reading order behind the last run that is passed is the first element of the run where it stops.
pub fn landing(versions: &[SpanVersion], runs: &Runs, start: usize, first: At) -> usize
    requires start_in { start ≤ length runs.now.list }
    requires first_known { first.version < length versions.now }
    requires known { All (λ (r : Run). r.first.version < length versions.now) runs.now.list }
    ensures from { start ≤ result }
    ensures within { result ≤ length runs.now.list }
    ensures passed { (i : ℕ) → start ≤ i → i < result → IsRunPassed (stamps_in versions.now) runs.now.list first i }
    ensures stop { result < length runs.now.list → IsRunNotPassed (stamps_in versions.now) runs.now.list first result }
{
    let mut index = start;
    while index < runs.len() && has_greater_key(versions, runs.get(index).first, first) {
        index += 1;
    }
    index
}

/// Where a run with this origin may be put first: at the front, or behind the origin, where a run is cut if need be.
fn open_at(runs: &mut Runs, after: Option<At>) -> usize
    requires there { MatchOption after (Unit {0}) (λ at. (i : ℕ) × IsHeldAt runs.old.list at i) }
    requires small { All IsSmall runs.old.list }
    requires roomy { 0 < runs.old.room }
    ensures alike { SpellsAlike runs.old.list runs.new.list }
    ensures start { MatchOption after (result ≡ 0) (λ at. (0 < result) × IsEndAt runs.new.list at (result - 1)) }
    ensures within { result ≤ length runs.new.list }
    ensures count { length runs.new.list ≤ length runs.old.list + 1 }
    ensures room { runs.old.room ≤ runs.new.room + 1 }
{
    match after {
        None => 0,
        Some(at) => open_behind(runs, at),
    }
}

/// Puts a run of the version begun last in its place, and its characters behind those that came.
pub fn put_run(
    versions: &[SpanVersion],
    chars: &mut Vec<char>,
    runs: &mut Runs,
    first: At,
    after: Option<At>,
    text: &[char],
)
    requires begun { first.version + 1 ≡ length versions.now }
    requires there { MatchOption after (Unit {0}) (λ at. (i : ℕ) × IsHeldAt runs.old.list at i) }
    requires some { 0 < length text.now }
    requires ordinals { first.ordinal + length text.now < 2 ^ 32 }
    requires small { All IsSmall runs.old.list }
    requires fitting { (chains : List (List ℕ))
        × AreFitting (length versions.now) chars.old.items chains runs.old.list }
    requires few { vec_len chars.old + length text.now < 2 ^ 32 }
    requires size { size_in runs.old.list ≡ vec_len chars.old }
    requires chars_fit { vec_len chars.old + length text.now ≤ vec_capacity chars.old }
    requires roomy { 1 < runs.old.room }
    ensures put { (chains : List (List ℕ)) → AreFitting (length versions.now) chars.old.items chains runs.old.list
        → AreFitting (length versions.now) chars.new.items chains runs.new.list
        × IsPut (stamps_in versions.now) (spelled (spans_of chars.old.items chains runs.old.list))
        (spelled (spans_of chars.new.items chains runs.new.list)) first after text.now }
    ensures chars { chars.new.items ≡ chars.old.items ++ text.now }
    ensures capacity { vec_capacity chars.old ≤ vec_capacity chars.new }
    ensures count { length runs.new.list ≤ length runs.old.list + 2 }
    ensures room { runs.old.room ≤ runs.new.room + 2 }
{
    let start = open_at(runs, after);
    let index = landing(versions, runs, start, first);
    let run = Run {
        first,
        start: chars.len() as u32,
        len: text.len() as u32,
        origin: after,
        newest: None,
    };
    runs.insert(index, run);
    let _ = chars.extend_from_slice(text);
}
