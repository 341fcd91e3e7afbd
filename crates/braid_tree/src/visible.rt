ghost use Rattle.std.specs.Prelude.{◌≡◌, ◌-◌, ◌<◌, ◌^◌, All, IfOk, length, map, take, drop, slice_get};
ghost use Rattle.std.specs.Option.{option_map};
ghost use Rattle.braid_tree.specs.Seen.{seen_rows, place_in, char_in};
ghost use Rattle.braid_tree.specs.Inside.{rows_in, deletions_in, AreLinked, IsNewest};

use crate::at::At;
use crate::deletion::{PlainDeletion, is_visible};
use crate::row::PlainRow;
use braid_ids::{Marks, Memory};
use std::alloc::Global;

/// How many elements marked versions see.
pub fn count_visible(marks: &Marks, deletions: &[PlainDeletion], rows: &[PlainRow]) -> u32
    requires linked { AreLinked deletions.now }
    requires newest { All (IsNewest deletions.now) rows.now }
    requires few { length rows.now < 2 ^ 32 }
    ensures count { result ≡ length (seen_rows marks.now (deletions_in deletions.now) (rows_in rows.now)) }
{
    let mut count = 0;
    for row in rows {
        if is_visible(marks, deletions, row) {
            count += 1;
        }
    }
    count
}

/// The place of element number `n` among those that marked versions see.
pub fn nth_visible(
    marks: &Marks,
    deletions: &[PlainDeletion],
    rows: &[PlainRow],
    n: u32,
) -> Option<At>
    requires linked { AreLinked deletions.now }
    requires newest { All (IsNewest deletions.now) rows.now }
    ensures value { result ≡ option_map place_in
        (slice_get (seen_rows marks.now (deletions_in deletions.now) (rows_in rows.now)) n) }
{
    let mut left = n;
    for row in rows {
        if is_visible(marks, deletions, row) {
            if left == 0 {
                return Some(row.at);
            }
            left -= 1;
        }
    }
    None
}

/// The places of the elements from number `from` up to and without number `to` of those that marked versions see.
pub fn visible_places(
    alloc: Global,
    marks: &Marks,
    deletions: &[PlainDeletion],
    rows: &[PlainRow],
    from: u32,
    to: u32,
) -> Result<Vec<At>, Memory>
    requires linked { AreLinked deletions.now }
    requires newest { All (IsNewest deletions.now) rows.now }
    requires few { length rows.now < 2 ^ 32 }
    ensures ok { IfOk result (λ places. places.items ≡ take (to - from) (drop from
        (map place_in (seen_rows marks.now (deletions_in deletions.now) (rows_in rows.now))))) }
{
    let mut places = Vec::new(alloc);
    let mut number = 0;
    for row in rows {
        if number >= to {
            break;
        }
        if is_visible(marks, deletions, row) {
            if number >= from {
                places.push(row.at)?;
            }
            number += 1;
        }
    }
    Ok(places)
}

/// The characters of the elements that marked versions see.
pub fn visible_text(
    alloc: Global,
    marks: &Marks,
    deletions: &[PlainDeletion],
    rows: &[PlainRow],
) -> Result<Vec<char>, Memory>
    requires linked { AreLinked deletions.now }
    requires newest { All (IsNewest deletions.now) rows.now }
    ensures ok { IfOk result
        (λ text. text.items ≡ map char_in (seen_rows marks.now (deletions_in deletions.now) (rows_in rows.now))) }
{
    let mut text = Vec::new(alloc);
    for row in rows {
        if is_visible(marks, deletions, row) {
            text.push(row.character)?;
        }
    }
    Ok(text)
}
