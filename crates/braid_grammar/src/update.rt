//! Updates at the front of bytes.

ghost use Rattle.std.specs.Prelude.{◌<◌, ◌+◌, ◌^◌, length, IfOk};
ghost use Rattle.braid_grammar.specs.Readings.{change_at, update_at, next_at};
ghost use Rattle.braid_grammar.specs.Readers.{Finds, IsPlanned, update_behind};

use crate::content::read_content;
use crate::found::Found;
use crate::head::{HeadKind, read_head};
use crate::line::after_gap;
use crate::patch::{read_patches, read_planned};
use braid_change::{Change, ListPatch, Update};
use braid_fields::{Asks, PatchPlan, Plan, PlanFault, plan_head};
use braid_ids::Memory;
use std::alloc::Global;

/// The update after a gap at the front of the bytes, which begin at this place.
pub fn read_next(alloc: Global, at: u64, bytes: &[u8]) -> Result<Found<Update>, Memory>
    requires room { at + length bytes.now < 2 ^ 64 }
    ensures { IfOk result (λ found. Finds found (next_at at bytes.now)) }
{
    let start = after_gap(bytes);
    let place = at + (bytes.len() - start.len()) as u64;
    read_update(alloc, place, start)
}

/// The update at the front of the bytes, which begin at this place.
fn read_update(alloc: Global, at: u64, bytes: &[u8]) -> Result<Found<Update>, Memory>
    requires room { at + length bytes.now < 2 ^ 64 }
    ensures { IfOk result (λ found. Finds found (update_at at bytes.now)) }
{
    let (fields, after, rest) = match read_head(alloc, HeadKind::OfUpdate, at, bytes)? {
        Found::Part => return Ok(Found::Part),
        Found::Bad(at, reason) => return Ok(Found::Bad(at, reason)),
        Found::Whole(fields, after, rest) => (fields, after, rest),
    };
    match plan_head(alloc, &fields) {
        Ok(plan) => read_asked(alloc, plan, after, rest),
        Err(fault) => match fault {
            PlanFault::Reason(reason) => Ok(Found::Bad(at, reason)),
            PlanFault::Memory => Err(Memory),
        },
    }
}

/// The update of this plan whose content is at the front of the bytes, which begin at this place.
fn read_asked(alloc: Global, plan: Plan, at: u64, bytes: &[u8]) -> Result<Found<Update>, Memory>
    requires room { at + length bytes.now < 2 ^ 64 }
    requires planned { IsPlanned plan }
    ensures { IfOk result (λ found. Finds found (update_behind plan at bytes.now)) }
{
    Ok(match read_change(alloc, plan.asks, at, bytes)? {
        Found::Part => Found::Part,
        Found::Bad(at, reason) => Found::Bad(at, reason),
        Found::Whole(change, last, rest) => {
            let Ok(update) = Update::build(plan.id, plan.parents, change) else {
                unreachable!();
            };
            Found::Whole(update, last, rest)
        }
    })
}

/// The change that a head asks for at the front of the bytes, which begin at this place.
pub fn read_change(
    alloc: Global,
    asks: Asks,
    at: u64,
    bytes: &[u8],
) -> Result<Found<Change>, Memory>
    requires room { at + length bytes.now < 2 ^ 64 }
    ensures { IfOk result (λ found. Finds found (change_at asks at bytes.now)) }
{
    match asks {
        Asks::Body { len } => read_body(alloc, len, at, bytes),
        Asks::OnePatch { patch } => read_one_patch(alloc, patch, at, bytes),
        Asks::Patches { count } => read_listed(alloc, count, at, bytes),
    }
}

/// A body of `len` bytes.
fn read_body(alloc: Global, len: u32, at: u64, bytes: &[u8]) -> Result<Found<Change>, Memory>
    requires room { at + length bytes.now < 2 ^ 64 }
    ensures { IfOk result (λ found. Finds found (change_at (Asks.Body len) at bytes.now)) }
{
    Ok(match read_content(alloc, len, at, bytes)? {
        Found::Part => Found::Part,
        Found::Bad(at, reason) => Found::Bad(at, reason),
        Found::Whole(text, last, rest) => Found::Whole(Change::Body(text), last, rest),
    })
}

/// One patch, whose range stood in the update's head.
fn read_one_patch(
    alloc: Global,
    plan: PatchPlan,
    at: u64,
    bytes: &[u8],
) -> Result<Found<Change>, Memory>
    requires room { at + length bytes.now < 2 ^ 64 }
    ensures { IfOk result (λ found. Finds found (change_at (Asks.OnePatch plan) at bytes.now)) }
{
    Ok(match read_planned(alloc, plan, at, bytes)? {
        Found::Part => Found::Part,
        Found::Bad(at, reason) => Found::Bad(at, reason),
        Found::Whole(patch, last, rest) => {
            let patches = ListPatch::of(vec![in alloc; patch]?);
            Found::Whole(Change::Patches(patches), last, rest)
        }
    })
}

/// So many patches with heads of their own.
fn read_listed(alloc: Global, count: u32, at: u64, bytes: &[u8]) -> Result<Found<Change>, Memory>
    requires room { at + length bytes.now < 2 ^ 64 }
    ensures { IfOk result (λ found. Finds found (change_at (Asks.Patches count) at bytes.now)) }
{
    Ok(match read_patches(alloc, count, at, bytes)? {
        Found::Part => Found::Part,
        Found::Bad(at, reason) => Found::Bad(at, reason),
        Found::Whole(patches, last, rest) => Found::Whole(Change::Patches(patches), last, rest),
    })
}
