//! Contents: a body, or patches; and the update that ends with one.

ghost use Rattle.std.specs.Prelude.{◌≡◌, ◌+◌, ◌<◌, ◌^◌, [], length, Ok};
ghost use Rattle.braid_change.specs.Texts.{IsTextOf};
ghost use Rattle.braid_grammar.specs.Readings.{patch_len};
ghost use Rattle.braid_frame.specs.Phases.{IsFraming, behind_head, behind_patch, behind_count};
ghost use Rattle.braid_frame.specs.Steps.{IsInContent, IsClean, IsReached, WhereReached, IsResumed, WhereResumed, IsCompleted, WhereCompleted, Finishes, Steps};

use crate::ends::{fail, pass_over, run_out};
use crate::fed::{Fed, FeedFault};
use crate::state::{Awaits, Begun, Patching, Phase, State};
use braid_change::{Change, ListPatch, Patch, Text, TextFault, Update};
use braid_fields::{Asks, Plan, Reason};
use std::alloc::Global;
use std::mem;

/// Begins what an update's head asks for.
pub fn begin_update(
    alloc: Global,
    state: &mut State,
    plan: Plan,
    taken: usize,
) -> Result<Fed, FeedFault>
    requires clean { IsClean state.old }
    requires room { state.old.at < 2 ^ 64 }
    requires stands { IsResumed (behind_head plan state.old.at) state.old.at }
    ensures framing { IsFraming state.new }
    ensures finishes { WhereResumed (behind_head plan state.old.at) state.old.at
        (λ us b. Finishes us b taken result state.new) }
{
    let asks = plan.asks;
    let begun = Begun {
        id: plan.id,
        parents: plan.parents,
    };
    match asks {
        Asks::Body { len } => begin_content(alloc, state, Phase::Body(begun, len), len, taken),
        Asks::OnePatch { patch } => {
            let patching = Patching {
                begun,
                done: Vec::new(alloc),
                left: 0,
                used: 0,
                before: 0,
            };
            let phase = Phase::PatchContent(patching, patch);
            begin_content(alloc, state, phase, patch.len, taken)
        }
        Asks::Patches { count } => begin_patches(alloc, state, begun, count, taken),
    }
}

/// Begins so many patches with heads of their own.
fn begin_patches(
    alloc: Global,
    state: &mut State,
    begun: Begun,
    count: u32,
    taken: usize,
) -> Result<Fed, FeedFault>
    requires clean { IsClean state.old }
    requires stands { IsResumed (behind_count begun count state.old.at) state.old.at }
    ensures framing { IsFraming state.new }
    ensures finishes { WhereResumed (behind_count begun count state.old.at) state.old.at
        (λ us b. Finishes us b taken result state.new) }
{
    if count == 0 {
        let change = Change::Patches(ListPatch::of(Vec::new(alloc)));
        return Ok(complete(state, begun, change, taken));
    }
    state.phase = Phase::PatchLines(Patching {
        begun,
        done: Vec::new(alloc),
        left: count - 1,
        used: 0,
        before: 0,
    });
    state.awaits = Awaits::PatchHead;
    Ok(Fed {
        taken,
        update: None,
    })
}

/// Begins a content of `len` bytes, of which none has come.
pub fn begin_content(
    alloc: Global,
    state: &mut State,
    phase: Phase,
    len: u32,
    taken: usize,
) -> Result<Fed, FeedFault>
    requires clean { IsClean state.old }
    requires room { state.old.at < 2 ^ 64 }
    requires content { IsInContent phase len }
    requires stands { IsReached phase state.old.at [] }
    ensures framing { IsFraming state.new }
    ensures finishes { WhereReached phase state.old.at [] (λ us b. Finishes us b taken result state.new) }
{
    state.phase = phase;
    if len == 0 {
        return end_content(alloc, state, taken);
    }
    Ok(Fed {
        taken,
        update: None,
    })
}

/// Goes on in a content of `len` bytes.
pub fn step_content(
    alloc: Global,
    state: &mut State,
    len: u32,
    piece: &[u8],
) -> Result<Fed, FeedFault>
    requires content { IsInContent state.old.phase len }
    requires short { length state.old.kept.items < len }
    requires some { 0 < length piece.now }
    requires room { state.old.at + length state.old.kept.items + length piece.now < 2 ^ 64 }
    requires stands { IsReached state.old.phase state.old.at state.old.kept.items }
    ensures framing { IsFraming state.new }
    ensures steps { WhereReached state.old.phase state.old.at state.old.kept.items
        (λ us b. Steps us b piece.now result state.new) }
{
    let len = len as usize;
    let count = piece.len().min(len - state.kept.len());
    let Ok(()) = state.kept.extend_from_slice(&piece[..count]) else {
        return Err(run_out(state));
    };
    if state.kept.len() == len {
        return end_content(alloc, state, count);
    }
    Ok(Fed {
        taken: count,
        update: None,
    })
}

/// Goes on behind a content that is kept whole.
fn end_content(alloc: Global, state: &mut State, taken: usize) -> Result<Fed, FeedFault>
    requires content { IsInContent state.old.phase (length state.old.kept.items) }
    requires room { state.old.at + length state.old.kept.items < 2 ^ 64 }
    requires stands { IsReached state.old.phase state.old.at state.old.kept.items }
    ensures framing { IsFraming state.new }
    ensures finishes { WhereReached state.old.phase state.old.at state.old.kept.items
        (λ us b. Finishes us b taken result state.new) }
{
    match Text::read(alloc, &state.kept) {
        Ok(text) => end_text(state, text, taken),
        Err(fault) => match fault {
            TextFault::NotText => {
                let at = state.at;
                Err(fail(state, at, Reason::NotText))
            }
            TextFault::Memory => Err(run_out(state)),
        },
    }
}

/// Goes on behind a content that is this text.
fn end_text(state: &mut State, text: Text, taken: usize) -> Result<Fed, FeedFault>
    requires content { IsInContent state.old.phase (length state.old.kept.items) }
    requires text { IsTextOf text state.old.kept.items }
    requires room { state.old.at + length state.old.kept.items < 2 ^ 64 }
    requires stands { IsReached state.old.phase state.old.at state.old.kept.items }
    ensures framing { IsFraming state.new }
    ensures finishes { WhereReached state.old.phase state.old.at state.old.kept.items
        (λ us b. Finishes us b taken result state.new) }
{
    pass_over(state);
    match mem::replace(&mut state.phase, Phase::Lines) {
        Phase::Body(begun, _) => Ok(complete(state, begun, Change::Body(text), taken)),
        Phase::PatchContent(patching, plan) => {
            let patch = Patch {
                start: plan.start,
                end: plan.end,
                text,
            };
            end_patch(state, patching, patch, plan.len, taken)
        }
        _ => unreachable!(),
    }
}

/// Goes on behind a patch that is whole, whose content has `len` bytes.
fn end_patch(
    state: &mut State,
    patching: Patching,
    patch: Patch,
    len: u32,
    taken: usize,
) -> Result<Fed, FeedFault>
    requires clean { IsClean state.old }
    requires len { len ≡ patch_len patch }
    requires used { patching.used + len < 2 ^ 32 }
    requires stands { IsResumed (behind_patch patching patch state.old.at) state.old.at }
    ensures framing { IsFraming state.new }
    ensures finishes { WhereResumed (behind_patch patching patch state.old.at) state.old.at
        (λ us b. Finishes us b taken result state.new) }
{
    let before = patch.end;
    let mut done = patching.done;
    let Ok(()) = done.push(patch) else {
        return Err(run_out(state));
    };
    if patching.left == 0 {
        let change = Change::Patches(ListPatch::of(done));
        return Ok(complete(state, patching.begun, change, taken));
    }
    state.phase = Phase::PatchLines(Patching {
        begun: patching.begun,
        done,
        left: patching.left - 1,
        used: patching.used + len,
        before,
    });
    state.awaits = Awaits::PatchHead;
    Ok(Fed {
        taken,
        update: None,
    })
}

/// The update that is whole; what comes next stands between updates.
fn complete(state: &mut State, begun: Begun, change: Change, taken: usize) -> Fed
    requires clean { IsClean state.old }
    requires stands { IsCompleted (record { id = begun.id; parents = begun.parents; change = change }) state.old.at }
    ensures framing { IsFraming state.new }
    ensures finishes { WhereCompleted (record { id = begun.id; parents = begun.parents; change = change }) state.old.at
        (λ us b. Finishes us b taken (Ok result) state.new) }
{
    state.phase = Phase::Lines;
    state.awaits = Awaits::UpdateHead;
    let Ok(update) = Update::build(begun.id, begun.parents, change) else {
        unreachable!();
    };
    Fed {
        taken,
        update: Some(update),
    }
}
