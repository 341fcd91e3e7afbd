//! Writing a state.

ghost use Rattle.std.specs.Prelude.{◌≡◌, ◌+◌, ◌≤◌, ◌++◌, ◌∷◌, [], length, flat_map, decimal, IfOk, OnOk};
ghost use Rattle.std.specs.List.{AllByRecursion};
ghost use Rattle.braid_ids.specs.Agents.{IsAgent};
ghost use Rattle.braid_change.specs.Updates.{IsUpdate};
ghost use Rattle.braid_change.specs.Spellings.{canonical_all};
ghost use Rattle.braid_fields.specs.Places.{IsServer, IsPath};
ghost use Rattle.braid_state.specs.Heads.{head_lines, name_of, line_of, most_updates};
ghost use Rattle.braid_state.specs.States.{head_of, SpellsState, state_text};

use crate::line::Line;
use crate::state::State;
use crate::tail::END_MARK;
use braid_change::{Update, canon};
use braid_ids::{Bytes, Memory};
use std::alloc::Global;

/// The text of a state (docs/FORMATS.md), with its updates in their canonical spellings.
///
/// The server is one of which `is_server` is true, and the path one of which `is_path` is. There are at most 524,288
/// updates. It takes time and memory linear in the text.
///
/// Errors: `Memory` where there was none for the text.
pub fn write_state(alloc: Global, state: &State) -> Result<Bytes, Memory>
    requires server { IsServer state.now.server }
    requires path { IsPath state.now.path }
    requires few { length state.now.confirmed + length state.now.unsent ≤ most_updates }
    ensures ok { IfOk result (λ bytes. bytes ≡ state_text state.now) }
    ensures spells { IfOk result (λ bytes. SpellsState state.now bytes) }
{
    let mut out = Bytes::of(alloc, b"")?;
    push_head(&mut out, state)?;
    push_updates(alloc, &mut out, state.confirmed.get())?;
    push_updates(alloc, &mut out, state.unsent.get())?;
    out.push(END_MARK)?;
    Ok(out)
}

/// Puts the lines of the head at the end.
fn push_head(out: &mut Bytes, state: &State) -> Result<(), Memory>
    ensures ok { OnOk result (out.new ≡ out.old ++ flat_map (line_of (head_of state.now)) head_lines) }
    ensures agent { OnOk result (IsAgent state.now.agent) }
{
    push_line(out, Line::Title, b"")?;
    push_line(out, Line::Agent, state.agent.bytes())?;
    push_line(out, Line::Server, state.server.get())?;
    push_line(out, Line::Path, state.path.get())?;
    push_count(out, Line::Confirmed, state.confirmed.get())?;
    push_count(out, Line::Unsent, state.unsent.get())?;
    push_line(out, Line::Empty, b"")
}

/// Puts a line at the end.
fn push_line(out: &mut Bytes, line: Line, value: &[u8]) -> Result<(), Memory>
    ensures ok { OnOk result (out.new ≡ out.old ++ (name_of line ++ (value.now ++ 10 ∷ []))) }
{
    out.push(line.name())?;
    out.push(value)?;
    out.push(b"\n")
}

/// Puts a line with the number of updates at the end.
fn push_count(out: &mut Bytes, line: Line, updates: &[Update]) -> Result<(), Memory>
    ensures ok { OnOk result (out.new ≡ out.old ++ (name_of line ++ (decimal (length updates.now) ++ 10 ∷ []))) }
{
    out.push(line.name())?;
    out.push_number(updates.len() as u64)?;
    out.push(b"\n")
}

/// Puts the canonical spellings of updates at the end, in their order.
fn push_updates(alloc: Global, out: &mut Bytes, updates: &[Update]) -> Result<(), Memory>
    ensures ok { OnOk result (out.new ≡ out.old ++ canonical_all updates.now) }
    ensures valid { OnOk result (AllByRecursion IsUpdate updates.now) }
{
    for update in updates {
        let spelling = canon(alloc, update)?;
        out.push(spelling.get())?;
        // For its contract: the update is one that the program can hold.
        update.id();
    }
    Ok(())
}
