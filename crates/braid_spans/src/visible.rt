//! What marked versions see of runs: whole runs at once.

ghost use Rattle.std.specs.Prelude.{◌≡◌, ◌+◌, ◌-◌, ◌<◌, ◌≤◌, ◌++◌, ◌^◌, [], Some, All, IfOk, IfErr, OnOk, length, take, drop, slice_get};
ghost use Rattle.braid_spans.specs.Kept.{chains_of, size_in, reach, AreLinked, IsFitting};
ghost use Rattle.braid_spans.specs.SeenRuns.{is_seen_run, places_from, seen_count, seen_places, seen_chars};
ghost use Rattle.braid_spans.specs.declared.run.Run.{Run};

use crate::link::{Link, is_deleted};
use crate::run::Run;
use braid_ids::{Marks, Memory};
use braid_tree::At;
use std::alloc::Global;

/// Whether marked versions see the elements of a run.
pub fn is_visible(marks: &Marks, links: &[Link], run: &Run) -> bool
    requires linked { AreLinked links.now }
    requires within { reach run.now.newest ≤ length links.now }
    ensures seen { result ≡ is_seen_run marks.now (chains_of links.now) run.now }
{
    marks.has(run.first.version) && !is_deleted(marks, links, run.newest)
}

/// How many elements of these runs marked versions see.
pub fn count_visible(marks: &Marks, links: &[Link], runs: &[Run]) -> u32
    requires linked { AreLinked links.now }
    requires within { All (λ (r : Run). reach r.newest ≤ length links.now) runs.now }
    requires few { size_in runs.now < 2 ^ 32 }
    ensures count { result ≡ seen_count marks.now (chains_of links.now) runs.now }
{
    let mut count = 0;
    for run in runs {
        if is_visible(marks, links, run) {
            count += run.len;
        }
    }
    count
}

/// The place of element number `n` of those that marked versions see of these runs, or how many more are to be passed
/// behind them.
pub fn nth_visible(marks: &Marks, links: &[Link], runs: &[Run], n: u32) -> Result<At, u32>
    requires linked { AreLinked links.now }
    requires within { All (λ (r : Run). reach r.newest ≤ length links.now) runs.now }
    requires ordinals { All (λ (r : Run). r.first.ordinal + r.len < 2 ^ 32) runs.now }
    ensures ok { IfOk result (λ at. slice_get (seen_places marks.now (chains_of links.now) runs.now) n ≡ Some at) }
    ensures err { IfErr result (λ left. seen_count marks.now (chains_of links.now) runs.now + left ≡ n) }
{
    let mut left = n;
    for run in runs {
        if is_visible(marks, links, run) {
            if left < run.len {
                return Ok(run.place(left));
            }
            left -= run.len;
        }
    }
    Err(left)
}

/// A piece of a list: how many items are still to be passed, and how many to be taken then.
#[derive(Clone, Copy)]
pub struct Piece {
    pub skip: u32,
    pub take: u32,
}

/// No places so far, with room for so many of the elements that are there.
pub fn room_for(alloc: Global, count: u32, elements: u32) -> Result<Vec<At>, Memory>
    ensures ok { IfOk result (λ places. places.items ≡ []) }
{
    let places = Vec::with_capacity(alloc, count.min(elements) as usize)?;
    Ok(places)
}

/// Puts the places of a run's piece at the end of a list, and leaves what is to be passed and taken behind the run.
pub fn push_piece(places: &mut Vec<At>, run: &Run, piece: &mut Piece) -> Result<(), Memory>
    requires ordinals { run.now.first.ordinal + run.now.len < 2 ^ 32 }
    ensures ok { OnOk result (places.new.items ≡ places.old.items
        ++ take piece.old.take
        (drop piece.old.skip (places_from run.now.first.version run.now.first.ordinal run.now.len))) }
    ensures skip { piece.new.skip ≡ piece.old.skip - run.now.len }
    ensures take { OnOk result (piece.new.take ≡ piece.old.take - (run.now.len - piece.old.skip)) }
{
    let from = piece.skip.min(run.len);
    piece.skip -= from;
    let to = from + piece.take.min(run.len - from);
    piece.take -= to - from;
    places.reserve((to - from) as usize)?;
    for k in from..to {
        places.push_reserved(run.place(k));
    }
    Ok(())
}

/// Puts the places of a piece of what marked versions see of these runs at the end of a list, and leaves what is to be
/// passed and taken behind these runs.
pub fn push_visible(
    places: &mut Vec<At>,
    marks: &Marks,
    links: &[Link],
    runs: &[Run],
    piece: &mut Piece,
) -> Result<(), Memory>
    requires linked { AreLinked links.now }
    requires within { All (λ (r : Run). reach r.newest ≤ length links.now) runs.now }
    requires ordinals { All (λ (r : Run). r.first.ordinal + r.len < 2 ^ 32) runs.now }
    ensures ok { OnOk result (places.new.items ≡ places.old.items
        ++ take piece.old.take (drop piece.old.skip (seen_places marks.now (chains_of links.now) runs.now))) }
    ensures skip { OnOk result (0 < piece.new.take
        → piece.new.skip ≡ piece.old.skip - seen_count marks.now (chains_of links.now) runs.now) }
    ensures take { OnOk result (piece.new.take
        ≡ piece.old.take - (seen_count marks.now (chains_of links.now) runs.now - piece.old.skip)) }
{
    for run in runs {
        if piece.take == 0 {
            break;
        }
        if is_visible(marks, links, run) {
            push_piece(places, run, piece)?;
        }
    }
    Ok(())
}

/// Puts the characters that marked versions see of these runs at the end of a text.
pub fn push_text(
    text: &mut Vec<char>,
    marks: &Marks,
    links: &[Link],
    chars: &[char],
    runs: &[Run],
) -> Result<(), Memory>
    requires linked { AreLinked links.now }
    requires within { All (λ (r : Run). reach r.newest ≤ length links.now) runs.now }
    requires chars { All (λ (r : Run). r.start + r.len ≤ length chars.now) runs.now }
    ensures ok { OnOk result
        (text.new.items ≡ text.old.items ++ seen_chars marks.now chars.now (chains_of links.now) runs.now) }
{
    for run in runs {
        if is_visible(marks, links, run) {
            let start = run.start as usize;
            text.extend_from_slice(&chars[start..start + run.len as usize])?;
        }
    }
    Ok(())
}
