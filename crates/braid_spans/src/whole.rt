//! What marked versions see of blocks, one block after the other.

ghost use Rattle.std.specs.Prelude.{◌≡◌, ◌+◌, ◌-◌, ◌<◌, ◌≤◌, ◌++◌, ◌^◌, All, IfOk, OnOk, length, take, drop, slice_get};
ghost use Rattle.braid_spans.specs.Blocks.{flat};
ghost use Rattle.braid_spans.specs.Kept.{chains_of, size_in, reach, AreLinked};
ghost use Rattle.braid_spans.specs.SeenRuns.{seen_count, seen_places, seen_chars};
ghost use Rattle.braid_spans.specs.declared.run.Run.{Run};

use crate::block::Block;
use crate::link::Link;
use crate::visible::{Piece, count_visible, nth_visible, push_text, push_visible};
use braid_ids::{Marks, Memory};
use braid_tree::At;

/// How many elements of these blocks marked versions see.
pub fn count_all(marks: &Marks, links: &[Link], blocks: &[Block]) -> u32
    requires linked { AreLinked links.now }
    requires within { All (λ (r : Run). reach r.newest ≤ length links.now) (flat blocks.now) }
    requires few { size_in (flat blocks.now) < 2 ^ 32 }
    ensures count { result ≡ seen_count marks.now (chains_of links.now) (flat blocks.now) }
{
    let mut count = 0;
    for block in blocks {
        count += count_visible(marks, links, block.runs());
    }
    count
}

/// The place of element number `n` of those that marked versions see of these blocks.
pub fn nth_of_all(marks: &Marks, links: &[Link], blocks: &[Block], n: u32) -> Option<At>
    requires linked { AreLinked links.now }
    requires within { All (λ (r : Run). reach r.newest ≤ length links.now) (flat blocks.now) }
    requires ordinals { All (λ (r : Run). r.first.ordinal + r.len < 2 ^ 32) (flat blocks.now) }
    ensures value { result ≡ slice_get (seen_places marks.now (chains_of links.now) (flat blocks.now)) n }
{
    let mut left = n;
    for block in blocks {
        match nth_visible(marks, links, block.runs(), left) {
            Ok(at) => return Some(at),
            Err(rest) => left = rest,
        }
    }
    None
}

/// Puts the places of a piece of what marked versions see of these blocks at the end of a list.
pub fn push_places(
    places: &mut Vec<At>,
    marks: &Marks,
    links: &[Link],
    blocks: &[Block],
    from: u32,
    count: u32,
) -> Result<(), Memory>
    requires linked { AreLinked links.now }
    requires within { All (λ (r : Run). reach r.newest ≤ length links.now) (flat blocks.now) }
    requires ordinals { All (λ (r : Run). r.first.ordinal + r.len < 2 ^ 32) (flat blocks.now) }
    ensures ok { OnOk result (places.new.items ≡ places.old.items
        ++ take count (drop from (seen_places marks.now (chains_of links.now) (flat blocks.now)))) }
{
    let mut piece = Piece {
        skip: from,
        take: count,
    };
    for block in blocks {
        if piece.take == 0 {
            break;
        }
        push_visible(places, marks, links, block.runs(), &mut piece)?;
    }
    Ok(())
}

/// Puts the characters that marked versions see of these blocks at the end of a text.
pub fn push_chars(
    text: &mut Vec<char>,
    marks: &Marks,
    links: &[Link],
    chars: &[char],
    blocks: &[Block],
) -> Result<(), Memory>
    requires linked { AreLinked links.now }
    requires within { All (λ (r : Run). reach r.newest ≤ length links.now) (flat blocks.now) }
    requires chars { All (λ (r : Run). r.start + r.len ≤ length chars.now) (flat blocks.now) }
    ensures ok { OnOk result (text.new.items ≡ text.old.items
        ++ seen_chars marks.now chars.now (chains_of links.now) (flat blocks.now)) }
{
    for block in blocks {
        push_text(text, marks, links, chars, block.runs())?;
    }
    Ok(())
}
