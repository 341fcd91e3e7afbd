//! The ends of a framer, and passing on from what was read.

ghost use Rattle.std.specs.Prelude.{◌≡◌, ◌+◌, ◌<◌, ◌^◌, [], length};
ghost use Rattle.braid_frame.specs.declared.state.Phase.TheVariants as phases;
ghost use Rattle.braid_frame.specs.declared.fed.FeedFault.TheVariants as faults;
ghost use Rattle.braid_frame.specs.Steps.{IsRefused};

use crate::fed::{FeedFault, FrameFault};
use crate::state::{Phase, State};
use braid_fields::{PlanFault, Reason};

/// Stops for good with a fault.
pub fn fail(state: &mut State, at: u64, reason: Reason) -> FeedFault
    ensures phase { state.new.phase ≡ phases.Faulted (record { at = at; reason = reason }) }
    ensures fault { result ≡ faults.Frame (record { at = at; reason = reason }) }
{
    let fault = FrameFault { at, reason };
    state.phase = Phase::Faulted(fault);
    FeedFault::Frame(fault)
}

/// Stops for good without memory.
pub fn run_out(state: &mut State) -> FeedFault
    ensures phase { state.new.phase ≡ phases.NoMemory }
    ensures fault { result ≡ faults.Memory }
{
    state.phase = Phase::NoMemory;
    FeedFault::Memory
}

/// Stops for good because of a head, whose place is that of the first byte that is kept.
pub fn refuse(state: &mut State, fault: PlanFault) -> FeedFault
    ensures refused { IsRefused state.old.at fault result state.new }
{
    match fault {
        PlanFault::Reason(reason) => {
            let at = state.at;
            fail(state, at, reason)
        }
        PlanFault::Memory => run_out(state),
    }
}

/// Keeps nothing more of what was read: the next byte is the first of what comes.
pub fn pass_over(state: &mut State)
    requires room { state.old.at + length state.old.kept.items < 2 ^ 64 }
    ensures at { state.new.at ≡ state.old.at + length state.old.kept.items }
    ensures kept { state.new.kept.items ≡ [] }
    ensures line { state.new.line ≡ 0 }
    ensures awaits { state.new.awaits ≡ state.old.awaits }
    ensures phase { state.new.phase ≡ state.old.phase }
{
    state.at += state.kept.len() as u64;
    state.kept.clear();
    state.line = 0;
}
