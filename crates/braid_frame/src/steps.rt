//! One step of the machine: so many bytes of a piece, in the state that a framer is in.

ghost use Rattle.std.specs.Prelude.{◌≡◌, true, ℕ, ◌+◌, ◌<◌, ◌≤◌, ◌^◌, List, length, drop};
ghost use Rattle.braid_change.specs.Updates.{UpdateView};
ghost use Rattle.braid_fields.specs.Lines.{is_empty_line};
ghost use Rattle.braid_grammar.specs.Outcomes.{head_limit};
ghost use Rattle.braid_frame.specs.declared.state.Phase.TheVariants as phases;
ghost use Rattle.braid_frame.specs.declared.state.Awaits.TheVariants as awaited;
ghost use Rattle.braid_frame.specs.HeadLines.{AreLines, LineEnded};
ghost use Rattle.braid_frame.specs.Phases.{StandsAs, IsFraming, IsReading, judge_of};
ghost use Rattle.braid_frame.specs.Steps.{IsInLines, IsInPatchLines, IsReached, WhereReached, Finishes, Steps};

use crate::contents::{begin_content, begin_update, step_content};
use crate::ends::{fail, pass_over, refuse, run_out};
use crate::fed::{Fed, FeedFault};
use crate::heads::{plan_patch_head, plan_update_head};
use crate::lines::{Kept, LineIs, judge_line, keep_line};
use crate::state::{Phase, State};
use braid_fields::Reason;
use braid_grammar::HEAD_LIMIT;
use std::alloc::Global;
use std::mem;

/// Takes some of a piece: up to the end of a line, or of what the state asks for.
pub fn step(alloc: Global, state: &mut State, piece: &[u8]) -> Result<Fed, FeedFault>
    requires framing { IsFraming state.old }
    requires open_still { IsReading state.old.phase }
    requires some { 0 < length piece.now }
    requires room { state.old.at + length state.old.kept.items + length piece.now < 2 ^ 64 }
    requires stands { (us : List UpdateView) × (b : List ℕ)
        × StandsAs state.old.phase us state.old.at state.old.kept.items b }
    ensures framing { IsFraming state.new }
    ensures steps { (us : List UpdateView) (b : List ℕ)
        → StandsAs state.old.phase us state.old.at state.old.kept.items b → Steps us b piece.now result state.new }
{
    match &state.phase {
        Phase::Lines => step_line(alloc, state, piece),
        Phase::PatchLines(_) => step_line(alloc, state, piece),
        Phase::Body(_, len) => {
            let len = *len;
            step_content(alloc, state, len, piece)
        }
        Phase::PatchContent(_, plan) => {
            let len = plan.len;
            step_content(alloc, state, len, piece)
        }
        Phase::Faulted(fault) => Err(FeedFault::Frame(*fault)),
        Phase::NoMemory => Err(FeedFault::Memory),
    }
}

/// Goes on in the line of a head.
fn step_line(alloc: Global, state: &mut State, piece: &[u8]) -> Result<Fed, FeedFault>
    requires lines { IsInLines state.old.phase }
    requires fine { AreLines (judge_of state.old.phase) state.old.kept.items state.old.line state.old.awaits }
    requires short { length state.old.kept.items < head_limit }
    requires some { 0 < length piece.now }
    requires room { state.old.at + length state.old.kept.items + length piece.now < 2 ^ 64 }
    requires stands { IsReached state.old.phase state.old.at state.old.kept.items }
    ensures framing { IsFraming state.new }
    ensures steps { WhereReached state.old.phase state.old.at state.old.kept.items
        (λ us b. Steps us b piece.now result state.new) }
{
    let Ok(kept) = keep_line(&mut state.kept, piece) else {
        return Err(run_out(state));
    };
    match kept {
        Kept::Line(count) => end_line(alloc, state, count),
        Kept::Part(count) => {
            if state.kept.len() == HEAD_LIMIT {
                let at = state.at;
                return Err(fail(state, at, Reason::HeadTooLong));
            }
            Ok(Fed {
                taken: count,
                update: None,
            })
        }
    }
}

/// Goes on behind a line that has ended.
fn end_line(alloc: Global, state: &mut State, taken: usize) -> Result<Fed, FeedFault>
    requires lines { IsInLines state.old.phase }
    requires ended { LineEnded (judge_of state.old.phase) state.old.kept.items state.old.line state.old.awaits }
    requires short { length state.old.kept.items ≤ head_limit }
    requires room { state.old.at + length state.old.kept.items < 2 ^ 64 }
    requires stands { IsReached state.old.phase state.old.at state.old.kept.items }
    ensures framing { IsFraming state.new }
    ensures finishes { WhereReached state.old.phase state.old.at state.old.kept.items
        (λ us b. Finishes us b taken result state.new) }
{
    match judge_line(state.awaits, &state.kept[state.line..]) {
        LineIs::Gap => {
            pass_over(state);
            Ok(Fed {
                taken,
                update: None,
            })
        }
        LineIs::Fine(awaits) => {
            if state.kept.len() == HEAD_LIMIT {
                let at = state.at;
                return Err(fail(state, at, Reason::HeadTooLong));
            }
            state.line = state.kept.len();
            state.awaits = awaits;
            Ok(Fed {
                taken,
                update: None,
            })
        }
        LineIs::Last => end_head(alloc, state, taken),
        LineIs::Bad(reason) => {
            let at = state.at + state.line as u64;
            Err(fail(state, at, reason))
        }
    }
}

/// Goes on behind a head that has ended.
fn end_head(alloc: Global, state: &mut State, taken: usize) -> Result<Fed, FeedFault>
    requires lines { IsInLines state.old.phase }
    requires ended { LineEnded (judge_of state.old.phase) state.old.kept.items state.old.line awaited.MoreFields }
    requires short { length state.old.kept.items ≤ head_limit }
    requires empty { is_empty_line (drop state.old.line state.old.kept.items) ≡ true }
    requires room { state.old.at + length state.old.kept.items < 2 ^ 64 }
    requires stands { IsReached state.old.phase state.old.at state.old.kept.items }
    ensures framing { IsFraming state.new }
    ensures finishes { WhereReached state.old.phase state.old.at state.old.kept.items
        (λ us b. Finishes us b taken result state.new) }
{
    match &state.phase {
        Phase::Lines => end_update_head(alloc, state, taken),
        Phase::PatchLines(patching) => {
            let used = patching.used;
            let before = patching.before;
            end_patch_head(alloc, state, used, before, taken)
        }
        _ => unreachable!(),
    }
}

/// Goes on behind an update's head that has ended.
fn end_update_head(alloc: Global, state: &mut State, taken: usize) -> Result<Fed, FeedFault>
    requires phase { state.old.phase ≡ phases.Lines }
    requires ended { LineEnded (judge_of phases.Lines) state.old.kept.items state.old.line awaited.MoreFields }
    requires short { length state.old.kept.items ≤ head_limit }
    requires empty { is_empty_line (drop state.old.line state.old.kept.items) ≡ true }
    requires room { state.old.at + length state.old.kept.items < 2 ^ 64 }
    requires stands { IsReached phases.Lines state.old.at state.old.kept.items }
    ensures framing { IsFraming state.new }
    ensures finishes { WhereReached phases.Lines state.old.at state.old.kept.items
        (λ us b. Finishes us b taken result state.new) }
{
    match plan_update_head(alloc, &state.kept) {
        Ok(plan) => {
            pass_over(state);
            begin_update(alloc, state, plan, taken)
        }
        Err(fault) => Err(refuse(state, fault)),
    }
}

/// Goes on behind a patch's head that has ended.
fn end_patch_head(
    alloc: Global,
    state: &mut State,
    used: u32,
    before: u32,
    taken: usize,
) -> Result<Fed, FeedFault>
    requires phase { IsInPatchLines state.old.phase used before }
    requires ended { LineEnded (judge_of state.old.phase) state.old.kept.items state.old.line awaited.MoreFields }
    requires short { length state.old.kept.items ≤ head_limit }
    requires empty { is_empty_line (drop state.old.line state.old.kept.items) ≡ true }
    requires room { state.old.at + length state.old.kept.items < 2 ^ 64 }
    requires stands { IsReached state.old.phase state.old.at state.old.kept.items }
    ensures framing { IsFraming state.new }
    ensures finishes { WhereReached state.old.phase state.old.at state.old.kept.items
        (λ us b. Finishes us b taken result state.new) }
{
    match plan_patch_head(alloc, used, before, &state.kept) {
        Ok(plan) => {
            pass_over(state);
            match mem::replace(&mut state.phase, Phase::Lines) {
                Phase::PatchLines(patching) => {
                    let len = plan.len;
                    begin_content(
                        alloc,
                        state,
                        Phase::PatchContent(patching, plan),
                        len,
                        taken,
                    )
                }
                _ => unreachable!(),
            }
        }
        Err(fault) => Err(refuse(state, fault)),
    }
}
