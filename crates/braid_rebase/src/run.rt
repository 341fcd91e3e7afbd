ghost use Rattle.std.specs.Prelude.{◌≡◌, ◌+◌, ◌<◌, ◌^◌, IfOk, IsTrue, length};
ghost use Rattle.braid_change.specs.Splices.{AreRanges, inserted};
ghost use Rattle.braid_rebase.specs.Pieces.{moved};
ghost use Rattle.braid_rebase.specs.Resolved.{place_before, runs_at, places_at};

use braid_change::{Patch, Text};
use braid_ids::Memory;
use braid_tree::At;
use std::alloc::Global;

/// Characters that an update inserts together.
#[derive(Debug, Drop)]
pub struct Run {
    /// Their origin: the seen element before the range, or none where the range starts at 0.
    pub after: Option<At>,
    pub text: Text,
    /// The number of the first character in its version, counted from 0 through all runs.
    pub ordinal: u32,
}

/// The runs of ranges, by the places of the elements from number `first` on.
pub fn runs_in(
    alloc: Global,
    places: &[At],
    first: u32,
    ranges: Vec<Patch>,
) -> Result<Vec<Run>, Memory>
    requires ranges { AreRanges first (first + length places.now) ranges.items }
    requires few { inserted ranges.items < 2 ^ 32 }
    ensures ok { IfOk result (λ runs. runs.items ≡ runs_at places.now 0 (moved first ranges.items)) }
{
    let mut runs = Vec::with_capacity(alloc, ranges.len())?;
    let mut ordinal = 0;
    for range in ranges {
        let after = place_behind(places, range.start.saturating_sub(first));
        let next = ordinal + range.text.chars().len() as u32;
        runs.push(Run {
            after,
            text: range.text,
            ordinal,
        })?;
        ordinal = next;
    }
    Ok(runs)
}

/// The place of number `number - 1`, or none where the number is 0.
fn place_behind(places: &[At], number: u32) -> Option<At>
    ensures place { result ≡ place_before places.now number }
{
    if number == 0 {
        return None;
    }
    places.get(number as usize - 1).copied()
}

/// The places within ranges, by the places of the elements from number `first` on.
pub fn deletes_in(
    alloc: Global,
    places: &[At],
    first: u32,
    ranges: &[Patch],
) -> Result<Vec<At>, Memory>
    requires ranges { AreRanges first (first + length places.now) ranges.now }
    ensures ok { IfOk result (λ deletes. deletes.items ≡ places_at places.now (moved first ranges.now)) }
{
    let mut deletes = Vec::new(alloc);
    for range in ranges {
        let start = (range.start - first) as usize;
        let end = (range.end - first) as usize;
        deletes.extend_from_slice(&places[start..end])?;
    }
    Ok(deletes)
}

/// Whether one range reaches over all of the places, from the first one to the end of the last: then they are those within
/// the ranges.
pub fn is_whole(places: &[At], first: u32, ranges: &[Patch]) -> bool
    ensures whole { IsTrue result → places_at places.now (moved first ranges.now) ≡ places.now }
{
    if ranges.len() != 1 {
        return false;
    }
    let range = &ranges[0];
    range.start == first && range.end as usize == first as usize + places.len()
}
