//! The content that an update's head asks for.

ghost use Rattle.std.specs.Prelude.{◌≡◌, ◌++◌, ◌∷◌, [], ok_or};
ghost use Rattle.braid_fields.specs.declared.reason.Reason.TheVariants.{BadCount};
ghost use Rattle.braid_fields.specs.Values.{count_in_value};
ghost use Rattle.braid_fields.specs.Table.{first_row, count_of, count_rows, length_rows, range_rows, content_rows, alone_asks, asks_of, Plans};

use crate::length::content_len;
use crate::parts::Parts;
use crate::plan::{Asks, PatchPlan, PlanFault};
use crate::range::{check_beside, range_of};
use crate::reason::Reason;
use braid_change::MOST_PATCHES;
use braid_shelf::{ShelfFault, read_count};
use std::alloc::Global;

/// The number that a value of `Patches` tells.
fn told_count(alloc: Global, value: &[u8]) -> Result<u64, PlanFault>
    ensures count { Plans result (ok_or (count_in_value value.now) BadCount) }
{
    match read_count(alloc, value) {
        Ok(count) => Ok(count),
        Err(ShelfFault::Bad { .. }) => Err(PlanFault::Reason(Reason::BadCount)),
        Err(ShelfFault::Memory) => Err(PlanFault::Memory),
    }
}

/// The number of patches that a value of `Patches` tells.
fn patch_count(alloc: Global, value: &[u8]) -> Result<u32, PlanFault>
    ensures count { Plans result (first_row (count_rows (value.now ∷ [])) (count_of (value.now ∷ []))) }
{
    let count = told_count(alloc, value)?;
    if count > MOST_PATCHES as u64 {
        return Err(PlanFault::Reason(Reason::TooManyPatches));
    }
    Ok(count as u32)
}

/// The content of a head without `Patches`.
fn alone(given: Option<u64>, parts: &Parts) -> Result<Asks, Reason>
    ensures asks { result ≡ first_row (length_rows given 0 parts.now.length ++ range_rows parts.now.range)
        (alone_asks given parts.now) }
{
    let len = content_len(given, 0, &parts.length)?;
    match range_of(&parts.range)? {
        None => Ok(Asks::Body { len }),
        Some(range) => Ok(Asks::OnePatch {
            patch: PatchPlan {
                start: range.start,
                end: range.end,
                len,
            },
        }),
    }
}

/// The content that a head asks for, whose length is given or told.
pub(crate) fn content(alloc: Global, given: Option<u64>, parts: &Parts) -> Result<Asks, PlanFault>
    ensures asks { Plans result (first_row (count_rows parts.now.patches ++ content_rows given parts.now)
        (asks_of given parts.now)) }
{
    let Some(value) = parts.patches.get().first() else {
        return Ok(alone(given, parts)?);
    };
    let count = patch_count(alloc, value.get())?;
    check_beside(&parts.range)?;
    Ok(Asks::Patches { count })
}
