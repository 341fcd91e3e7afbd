//! Patches at the front of bytes.

ghost use Rattle.std.specs.Prelude.{◌<◌, ◌+◌, ◌^◌, length, IfOk};
ghost use Rattle.braid_grammar.specs.Outcomes.{Whole, then_read, content_at};
ghost use Rattle.braid_grammar.specs.Readings.{patch_of, patch_at, patches_at};
ghost use Rattle.braid_grammar.specs.Readers.{Finds};

use crate::content::read_content;
use crate::found::Found;
use crate::head::{HeadKind, read_head};
use crate::line::after_gap;
use braid_change::{ListPatch, Patch};
use braid_fields::{PatchPlan, plan_patch};
use braid_ids::Memory;
use std::alloc::Global;

/// The patch of this plan whose content is at the front of the bytes, which begin at this place.
pub fn read_planned(
    alloc: Global,
    plan: PatchPlan,
    at: u64,
    bytes: &[u8],
) -> Result<Found<Patch>, Memory>
    requires room { at + length bytes.now < 2 ^ 64 }
    ensures { IfOk result (λ found. Finds found (then_read (content_at plan.len at bytes.now)
        (λ text last end. Whole (patch_of plan text) last end))) }
{
    Ok(match read_content(alloc, plan.len, at, bytes)? {
        Found::Part => Found::Part,
        Found::Bad(at, reason) => Found::Bad(at, reason),
        Found::Whole(text, last, rest) => {
            let patch = Patch {
                start: plan.start,
                end: plan.end,
                text,
            };
            Found::Whole(patch, last, rest)
        }
    })
}

/// The patch at the front of the bytes, which begin at this place, after `used` bytes of contents and a range that
/// ended at `before`.
fn read_patch(
    alloc: Global,
    used: u32,
    before: u32,
    at: u64,
    bytes: &[u8],
) -> Result<Found<Patch>, Memory>
    requires room { at + length bytes.now < 2 ^ 64 }
    ensures { IfOk result (λ found. Finds found (patch_at used before at bytes.now)) }
{
    let (fields, after, rest) = match read_head(alloc, HeadKind::OfPatch, at, bytes)? {
        Found::Part => return Ok(Found::Part),
        Found::Bad(at, reason) => return Ok(Found::Bad(at, reason)),
        Found::Whole(fields, after, rest) => (fields, after, rest),
    };
    match plan_patch(&fields, used, before) {
        Ok(plan) => read_planned(alloc, plan, after, rest),
        Err(reason) => Ok(Found::Bad(at, reason)),
    }
}

/// So many patches at the front of the bytes, which begin at this place, each after a gap.
pub fn read_patches(
    alloc: Global,
    count: u32,
    at: u64,
    bytes: &[u8],
) -> Result<Found<ListPatch>, Memory>
    requires room { at + length bytes.now < 2 ^ 64 }
    ensures { IfOk result (λ found. Finds found (patches_at count 0 0 at bytes.now)) }
{
    let mut patches = Vec::new(alloc);
    let mut used: u32 = 0;
    let mut before = 0;
    let mut at = at;
    let mut rest = bytes;
    for _n in 0..count {
        let start = after_gap(rest);
        let place = at + (rest.len() - start.len()) as u64;
        match read_patch(alloc, used, before, place, start)? {
            Found::Part => return Ok(Found::Part),
            Found::Bad(at, reason) => return Ok(Found::Bad(at, reason)),
            Found::Whole(patch, last, left) => {
                used += patch.utf8_len() as u32;
                before = patch.end;
                patches.push(patch)?;
                at = last;
                rest = left;
            }
        }
    }
    Ok(Found::Whole(ListPatch::of(patches), at, rest))
}
