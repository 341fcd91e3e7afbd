ghost use Rattle.std.specs.Prelude.{◌≡◌, ◌<◌, ℕ, List, Some, IfOk, IfSome, length};
ghost use Rattle.std.specs.List.{position_from};
ghost use Rattle.braid_change.specs.Splices.{ranges, is_past};
ghost use Rattle.braid_change.specs.declared.change.Change.TheVariants.{Body};
ghost use Rattle.braid_rebase.specs.Pieces.{first_needed, last_end};

use braid_change::{Patch, Text};
use braid_ids::Memory;
use std::alloc::Global;

/// The one range of a body: all of a text of this length.
pub fn whole_range(alloc: Global, text: &Text, len: u32) -> Result<Vec<Patch>, Memory>
    ensures ok { IfOk result (λ list. (t : List ℕ) → length t ≡ len → ranges t (Body text.now) ≡ Some list.items) }
{
    let mut list = Vec::with_capacity(alloc, 1)?;
    list.push(Patch {
        start: 0,
        end: len,
        text: text.copy(alloc)?,
    })?;
    Ok(list)
}

/// The first patch whose end is above `len`.
pub fn find_past(patches: &[Patch], len: u32) -> Option<usize>
    ensures found { result ≡ position_from (is_past len) 0 patches.now }
    ensures bound { IfSome result (λ n. n < length patches.now) }
{
    patches.iter().position(|patch| patch.end > len)
}

/// The number of the element before the first range, and the end of the last range.
pub fn bounds_of(ranges: &[Patch]) -> (u32, u32)
    ensures first { result.0 ≡ first_needed ranges.now }
    ensures end { result.1 ≡ last_end ranges.now }
{
    match (ranges.first(), ranges.last()) {
        (Some(first), Some(last)) => (first.start.saturating_sub(1), last.end),
        _ => (0, 0),
    }
}
