ghost use Rattle.std.specs.Prelude.{◌≡◌, ◌==◌, ◌<◌, ◌-◌, ◌^◌, ◌++◌, min, length, flat_map, slice_index_or, IfOk};
ghost use Rattle.std.specs.List.{prefix_len};
ghost use Rattle.braid_change.specs.Splices.{joined, inserted};

use crate::patch::Patch;
use crate::text::Text;
use braid_ids::Memory;
use std::alloc::Global;

/// The patches with neighbours of one start made into one, which has the last end and the texts in order.
///
/// Errors: `Memory` where there was none for the joined patches.
pub fn joined(alloc: Global, patches: &[Patch]) -> Result<Vec<Patch>, Memory>
    ensures ok { IfOk result (λ list. list.items ≡ joined patches.now) }
{
    let mut list = Vec::with_capacity(alloc, patches.len())?;
    let mut rest = patches;
    while let Some(first) = rest.first() {
        let (run, after) = rest.split_at(run_len(rest, first.start));
        list.push(join(alloc, run)?)?;
        rest = after;
    }
    Ok(list)
}

/// The number of patches with this start at the front.
fn run_len(patches: &[Patch], start: u32) -> usize
    ensures len { result ≡ prefix_len (λ patch. patch.start == start) patches.now }
{
    patches
        .iter()
        .take_while(|patch| patch.start == start)
        .count()
}

/// One patch in place of several with one start: it has the last end and the texts in order.
fn join(alloc: Global, run: &[Patch]) -> Result<Patch, Memory>
    requires some { 0 < length run.now }
    ensures start { IfOk result (λ patch. patch.start ≡ (slice_index_or run.now 0 patch).start) }
    ensures end { IfOk result (λ patch. patch.end ≡ (slice_index_or run.now (length run.now - 1) patch).end) }
    ensures text { IfOk result (λ patch. patch.text ≡ flat_map (λ p. p.text) run.now) }
{
    let mut chars = Vec::with_capacity(alloc, inserted_len(run))?;
    for patch in run {
        chars.extend_from_slice(patch.text.chars())?;
    }
    Ok(Patch {
        start: run[0].start,
        end: run[run.len() - 1].end,
        text: Text::of(chars),
    })
}

/// The number of characters of the patches' texts together, or the greatest `usize` where they are more.
pub(crate) fn inserted_len(patches: &[Patch]) -> usize
    ensures len { result ≡ min (inserted patches.now) (2 ^ 64 - 1) }
{
    let mut len: usize = 0;
    for patch in patches {
        len = len.saturating_add(patch.text.chars().len());
    }
    len
}
