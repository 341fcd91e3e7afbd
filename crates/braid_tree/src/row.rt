ghost use Rattle.std.specs.Prelude.{◌≡◌, ℕ, ◌+◌, ◌<◌, ◌≤◌, ◌++◌, ◌^◌, IfSome, IfNone, length, take, drop, vec_len, vec_capacity};
ghost use Rattle.braid_tree.specs.Rows.{HasPlace, AreKnown};
ghost use Rattle.braid_tree.specs.Inside.{stamps_in, rows_in, new_rows, IsPlaceOf, IsBefore, IsPassed, IsNotPassed};

use crate::at::At;
use crate::version::{PlainVersion, has_greater_key};

/// An element as it is kept.
#[derive(Clone, Copy)]
pub struct PlainRow {
    pub at: At,
    pub character: char,
    pub origin: Option<At>,
    /// The number of the last deletion of this element.
    pub newest: Option<u32>,
}

/// Where an element stands. It is looked for from row `near` on, and then from there back to the front: so what stands
/// at `near` or soon behind it is found at once.
pub fn index_of(rows: &[PlainRow], near: usize, at: At) -> usize
    requires there { HasPlace (rows_in rows.now) at }
    ensures found { IsPlaceOf (rows_in rows.now) at result }
{
    let near = near.min(rows.len());
    match index_from(rows, near, at) {
        Some(index) => index,
        None => index_before(rows, near, at),
    }
}

/// Where an element stands among the rows from `start` on.
fn index_from(rows: &[PlainRow], start: usize, at: At) -> Option<usize>
    ensures found { IfSome result (IsPlaceOf (rows_in rows.now) at) }
    ensures none { IfNone result (IsBefore (rows_in rows.now) at start) }
{
    for i in start..rows.len() {
        if rows[i].at == at {
            return Some(i);
        }
    }
    None
}

/// Where an element stands that is before row `end`.
fn index_before(rows: &[PlainRow], end: usize, at: At) -> usize
    requires there { HasPlace (rows_in rows.now) at }
    requires within { end ≤ length rows.now }
    requires before { IsBefore (rows_in rows.now) at end }
    ensures found { IsPlaceOf (rows_in rows.now) at result }
{
    for i in (0..end).rev() {
        if rows[i].at == at {
            return i;
        }
    }
    unreachable!()
}

/// Passes over the neighbours with greater keys than `first`: the index of the next element, or the end.
///
/// ```text
/// a  Q  P  b  c    Q, P and b hang below a, by falling keys; c hangs below the root
///    ^             start: behind the origin a
///       ^          a new element below a, with a key between those of Q and P, goes here
/// ```
///
/// What hangs below a passed neighbour has a greater key than that neighbour, so it is passed too. The first element
/// that does not hang below the origin has a smaller key than one on the origin's path, and so than the new one. So
/// the keys alone decide.
pub fn landing(versions: &[PlainVersion], rows: &[PlainRow], start: usize, first: At) -> usize
    requires start_in { start ≤ length rows.now }
    requires first_known { first.version < length versions.now }
    requires known { AreKnown (stamps_in versions.now) (rows_in rows.now) }
    ensures from { start ≤ result }
    ensures within { result ≤ length rows.now }
    ensures passed { (k : ℕ) → start ≤ k → k < result → IsPassed (stamps_in versions.now) (rows_in rows.now) first k }
    ensures stop { result < length rows.now → IsNotPassed (stamps_in versions.now) (rows_in rows.now) first result }
{
    let mut index = start;
    while index < rows.len() && has_greater_key(versions, rows[index].at, first) {
        index += 1;
    }
    index
}

/// Puts the rows of a run, from `index` on, where there is room for them: at the end first, then by one move of the
/// tail.
pub fn put_run(rows: &mut Vec<PlainRow>, index: usize, first: At, origin: Option<At>, text: &[char])
    requires within { index ≤ vec_len rows.old }
    requires roomy { vec_len rows.old + length text.now ≤ vec_capacity rows.old }
    requires fits { first.ordinal + length text.now < 2 ^ 32 }
    ensures len { vec_len rows.new ≡ vec_len rows.old + length text.now }
    ensures in_place { vec_capacity rows.new ≡ vec_capacity rows.old }
    ensures put { rows.new.items ≡ take index rows.old.items
        ++ (new_rows first.version origin first.ordinal text.now ++ drop index rows.old.items) }
{
    let mut at = first;
    let mut origin = origin;
    for character in text {
        rows.push_reserved(PlainRow {
            at,
            character: *character,
            origin,
            newest: None,
        });
        origin = Some(at);
        at.ordinal += 1;
    }
    let tail = &mut rows[index..];
    tail.rotate_right(text.len());
}
