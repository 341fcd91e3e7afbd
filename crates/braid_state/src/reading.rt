//! Reading a state.

ghost use Rattle.std.specs.Prelude.{IfOk, IfErr};
ghost use Rattle.braid_state.specs.States.{SpellsState};
ghost use Rattle.braid_state.specs.StateFaults.{IsBadFrom, IsStateFault};
ghost use Rattle.braid_state.specs.Stops.{IfBad};

use crate::body::read_body;
use crate::head::read_head;
use crate::state::{State, StateFault};
use crate::stop::Stop;
use braid_change::ListUpdate;
use std::alloc::Global;

/// Reads a state from all of the bytes of its text (docs/FORMATS.md).
///
/// The updates may have any spelling of an update stream, each after empty lines. It takes time and memory linear in the
/// bytes.
///
/// Errors: `BadState` where the bytes spell no state, with the place where they depart from the form. `Memory` where
/// there was none. Nothing is kept after an error.
pub fn read_state(alloc: Global, bytes: &[u8]) -> Result<State, StateFault>
    ensures ok { IfOk result (λ state. SpellsState state bytes.now) }
    ensures fault { IfErr result (λ fault. IsStateFault bytes.now fault) }
{
    match read_parts(alloc, bytes) {
        Ok(state) => Ok(state),
        Err(stop) => Err(fault_of(bytes, stop)),
    }
}

/// The fault of bytes at which reading stopped so.
fn fault_of(bytes: &[u8], stop: Stop) -> StateFault
    requires stopped { IfBad stop (λ rest. IsBadFrom rest bytes.now) }
    ensures fault { IsStateFault bytes.now result }
{
    match stop {
        Stop::Bad(rest) => StateFault::BadState {
            at: (bytes.len() - rest.len()) as u64,
        },
        Stop::Memory => StateFault::Memory,
    }
}

/// Reads the head and the body.
fn read_parts<'a>(alloc: Global, bytes: &'a [u8]) -> Result<State, Stop<'a>>
    ensures ok { IfOk result (λ state. SpellsState state bytes.now) }
    ensures stop { IfErr result (λ stop. IfBad stop (λ rest. IsBadFrom rest bytes.now)) }
{
    let (head, rest) = read_head(alloc, bytes)?;
    let body = read_body(alloc, head.confirmed, head.unsent, rest)?;
    Ok(State {
        agent: head.agent,
        server: head.server,
        path: head.path,
        confirmed: ListUpdate::of(body.confirmed),
        unsent: ListUpdate::of(body.unsent),
    })
}
