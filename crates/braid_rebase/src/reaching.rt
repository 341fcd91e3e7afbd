ghost use Rattle.std.specs.Prelude.{◌≡◌, Some, IfOk, IfErr};
ghost use Rattle.braid_change.specs.Changes.{IsShaped};
ghost use Rattle.braid_change.specs.Splices.{ranges};
ghost use Rattle.braid_change.specs.declared.change.Change.TheVariants.{Body, Patches};
ghost use Rattle.braid_tree.specs.Seen.{seen_rows};
ghost use Rattle.braid_rebase.specs.Resolved.{row_chars, IsReachIn, IsRangeFault};

use crate::ranges::{bounds_of, find_past, whole_range};
use crate::resolving::RebaseFault;
use braid_change::{Change, Patch, Text, joined};
use braid_ids::{Marks, Memory};
use braid_tree::{At, Document};
use std::alloc::Global;

/// Ranges, and the places of the seen elements that they reach over.
#[derive(Drop)]
pub struct Reach {
    pub ranges: Vec<Patch>,
    /// The number of the element before the first range.
    pub first: u32,
    /// The end of the last range.
    pub end: u32,
    /// The places from the element before the first range up to the end of the last, as far as there are such.
    pub places: Vec<At>,
}

/// The ranges that a change replaces in what marked versions see, with the places that they reach over: all of it for a
/// body, and patches are joined.
///
/// Errors: `OutOfRange` with the first joined patch that ends past the text, or `Memory`.
pub fn reach_of<D: Document>(
    alloc: Global,
    doc: &D,
    marks: &Marks,
    change: &Change,
) -> Result<Reach, RebaseFault>
    requires shaped { IsShaped change.now }
    ensures ranges { IfOk result (λ reach. ranges (row_chars
        (seen_rows marks.now (D.row_deletions doc.now) (D.rows doc.now))) change.now ≡ Some reach.ranges.items) }
    ensures reach { IfOk result (λ reach. IsReachIn
        (seen_rows marks.now (D.row_deletions doc.now) (D.rows doc.now)) reach) }
    ensures fault { IfErr result (λ fault. IsRangeFault
        (row_chars (seen_rows marks.now (D.row_deletions doc.now) (D.rows doc.now))) change.now fault) }
{
    match change {
        Change::Body(text) => Ok(body_reach(alloc, doc, marks, text)?),
        Change::Patches(patches) => patches_reach(alloc, doc, marks, patches.get()),
    }
}

/// The range of a body.
fn body_reach<D: Document>(
    alloc: Global,
    doc: &D,
    marks: &Marks,
    text: &Text,
) -> Result<Reach, Memory>
    ensures ranges { IfOk result (λ reach. ranges (row_chars
        (seen_rows marks.now (D.row_deletions doc.now) (D.rows doc.now))) (Body text.now) ≡ Some reach.ranges.items) }
    ensures reach { IfOk result (λ reach. IsReachIn
        (seen_rows marks.now (D.row_deletions doc.now) (D.rows doc.now)) reach) }
{
    let list = whole_range(alloc, text, doc.len(marks))?;
    with_places(alloc, doc, marks, list)
}

/// The joined patches, where each ends within the text.
///
/// Where all places that they reach over are there, no patch ends past it, and the document's elements need not be
/// counted.
fn patches_reach<D: Document>(
    alloc: Global,
    doc: &D,
    marks: &Marks,
    patches: &[Patch],
) -> Result<Reach, RebaseFault>
    requires shaped { IsShaped (Patches patches.now) }
    ensures ranges { IfOk result (λ reach. ranges
        (row_chars (seen_rows marks.now (D.row_deletions doc.now) (D.rows doc.now))) (Patches patches.now)
        ≡ Some reach.ranges.items) }
    ensures reach { IfOk result (λ reach. IsReachIn
        (seen_rows marks.now (D.row_deletions doc.now) (D.rows doc.now)) reach) }
    ensures fault { IfErr result (λ fault. IsRangeFault
        (row_chars (seen_rows marks.now (D.row_deletions doc.now) (D.rows doc.now))) (Patches patches.now) fault) }
{
    let list = joined(alloc, patches)?;
    let reach = with_places(alloc, doc, marks, list)?;
    if reach.first as usize + reach.places.len() == reach.end as usize {
        return Ok(reach);
    }
    let count = doc.len(marks);
    match find_past(&reach.ranges, count) {
        Some(n) => Err(RebaseFault::OutOfRange {
            patch: n as u32,
            len: count,
        }),
        None => Ok(reach),
    }
}

/// Ranges with the places that they reach over.
fn with_places<D: Document>(
    alloc: Global,
    doc: &D,
    marks: &Marks,
    ranges: Vec<Patch>,
) -> Result<Reach, Memory>
    ensures ranges { IfOk result (λ reach. reach.ranges.items ≡ ranges.items) }
    ensures reach { IfOk result (λ reach. IsReachIn
        (seen_rows marks.now (D.row_deletions doc.now) (D.rows doc.now)) reach) }
{
    let (first, end) = bounds_of(&ranges);
    let places = doc.visible_between(alloc, marks, first, end)?;
    Ok(Reach {
        ranges,
        first,
        end,
        places,
    })
}
