ghost use Rattle.std.specs.Prelude.{◌≡◌, ◌+◌, ◌<◌, ◌^◌, List, IfOk, IfErr, length};
ghost use Rattle.braid_graph.specs.Entries.{HoldsAll};
ghost use Rattle.braid_graph.specs.Levels.{greatest_by, level_of};
ghost use Rattle.braid_tree.specs.Rows.{Row};
ghost use Rattle.braid_rebase.specs.declared.resolving.RebaseFault.TheVariants.{Memory as NoMemory};
ghost use Rattle.braid_change.specs.Splices.{AreRanges, inserted};
ghost use Rattle.braid_rebase.specs.Pieces.{moved};
ghost use Rattle.braid_rebase.specs.Resolved.{IsSeenAt, IsResolved, IsRebaseFault, runs_at, places_at};

use crate::reaching::{Reach, reach_of};
use crate::run::{Run, deletes_in, is_whole, runs_in};
use braid_change::Update;
use braid_graph::Graph;
use braid_ids::Memory;
use braid_tree::{At, Document};
use std::alloc::{AllocError, AllocFailed, Global};

/// What an update adds to a document: it can be put in with no further look at the update's parents.
#[derive(Debug, Drop)]
pub struct Resolved {
    /// The runs that the update inserts, in the order of their ordinals.
    pub runs: Vec<Run>,
    /// The elements that it deletes, in reading order.
    pub deletes: Vec<At>,
    /// The level of its version.
    pub level: u32,
}

/// Why an update was not resolved.
#[derive(Clone, Copy, Debug, PartialEq, Eq)]
pub enum RebaseFault {
    /// The first joined patch, counted from 0, that ends past the text at the parents, and that text's length.
    OutOfRange { patch: u32, len: u32 },
    /// There was no memory.
    Memory,
}

impl From<Memory> for RebaseFault {
    ghost from_gives = { λ _ e. e ≡ NoMemory };

    fn from(_memory: Memory) -> RebaseFault {
        RebaseFault::Memory
    }
}

impl From<AllocError> for RebaseFault {
    ghost from_gives = { λ _ e. e ≡ NoMemory };

    fn from(_error: AllocError) -> RebaseFault {
        RebaseFault::Memory
    }
}

impl<T: Drop> From<AllocFailed<T>> for RebaseFault {
    ghost from_gives = { λ _ e. e ≡ NoMemory };

    fn from(_failed: AllocFailed<T>) -> RebaseFault {
        RebaseFault::Memory
    }
}

/// What an update adds to a document: its ranges count the characters that its parents see (Range Patch of the Braid
/// drafts), and never those of the current text.
///
/// The graph holds the update's parents, and the document has the graph's versions in the same order. Both stay as
/// they are.
///
/// It passes over the document's elements once up to the end of the last patch, whatever their number, and for a body
/// twice over all of them; it copies the places of the elements from the first range to the end of the last.
///
/// Errors: `OutOfRange` where a joined patch ends past the text at the parents, or `Memory`.
pub fn resolve<D: Document>(
    alloc: Global,
    doc: &D,
    graph: &Graph,
    update: &Update,
) -> Result<Resolved, RebaseFault>
    requires held { HoldsAll graph.now update.now.parents }
    ensures ok { IfOk result (λ resolved. (S : List Row)
        × IsSeenAt graph.now update.now.parents (D.row_deletions doc.now) (D.rows doc.now) S
        × IsResolved S update.now.change resolved) }
    ensures level { IfOk result (λ resolved. resolved.level ≡ 1 + greatest_by (level_of graph.now) update.now.parents) }
    ensures fault { IfErr result (λ fault. IsRebaseFault graph.now (D.row_deletions doc.now)
        (D.rows doc.now) update.now fault) }
{
    // The parents are held, so there was no memory.
    let Ok(marks) = graph.ancestry(alloc, update.parents()) else {
        return Err(RebaseFault::Memory);
    };
    let reach = reach_of(alloc, doc, &marks, update.change())?;
    let level = graph.level_above(update.parents());
    let resolved = resolve_reach(alloc, reach, level)?;
    Ok(resolved)
}

/// What ranges insert and delete, by the places that they reach over.
///
/// Where all of these go, as under a body, their list is handed on and not copied.
fn resolve_reach(alloc: Global, reach: Reach, level: u32) -> Result<Resolved, Memory>
    requires ranges { AreRanges reach.first (reach.first + length reach.places.items) reach.ranges.items }
    requires few { inserted reach.ranges.items < 2 ^ 32 }
    ensures runs { IfOk result (λ resolved. resolved.runs.items
        ≡ runs_at reach.places.items 0 (moved reach.first reach.ranges.items)) }
    ensures deletes { IfOk result (λ resolved. resolved.deletes.items
        ≡ places_at reach.places.items (moved reach.first reach.ranges.items)) }
    ensures level { IfOk result (λ resolved. resolved.level ≡ level) }
{
    let Reach {
        ranges,
        first,
        places,
        ..
    } = reach;
    if is_whole(&places, first, &ranges) {
        let runs = runs_in(alloc, &places, first, ranges)?;
        return Ok(Resolved {
            runs,
            deletes: places,
            level,
        });
    }
    let deletes = deletes_in(alloc, &places, first, &ranges)?;
    let runs = runs_in(alloc, &places, first, ranges)?;
    Ok(Resolved {
        runs,
        deletes,
        level,
    })
}
