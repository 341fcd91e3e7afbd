//! The head of a state's text.

ghost use Rattle.std.specs.Prelude.{◌≡◌, ◌≢◌, ◌+◌, ◌≤◌, ◌∷◌, ◌++◌, List, ℕ, take, decimal, min, MatchOption, IfOk, IfErr};
ghost use Rattle.braid_ids.specs.Agents.{IsAgent};
ghost use Rattle.braid_fields.specs.Places.{IsServer, IsPath};
ghost use Rattle.braid_state.specs.Heads.{Head, head_lines, name_of, HasLines, IsCount, count_of, most_updates};
ghost use Rattle.braid_state.specs.StateFaults.{LacksLine};
ghost use Rattle.braid_state.specs.Stops.{IfBad, head_read};
ghost use Rattle.braid_state.specs.declared.line.Line.TheVariants as lines;

use crate::count::{MOST_UPDATES, read_count};
use crate::line::{Line, pass_line, read_line};
use crate::stop::Stop;
use braid_fields::{is_path, is_server};
use braid_ids::{Agent, AgentFault, Bytes, Memory};
use std::alloc::Global;

/// What stands in the lines of a head.
#[derive(Drop)]
pub struct Heading {
    pub agent: Agent,
    pub server: Bytes,
    pub path: Bytes,
    pub confirmed: u64,
    pub unsent: u64,
}

/// Reads the lines of a head, and what follows them.
pub fn read_head<'a>(alloc: Global, bytes: &'a [u8]) -> Result<(Heading, &'a [u8]), Stop<'a>>
    ensures ok { IfOk result (λ read. HasLines head_lines (head_read read.0) read.1.now bytes.now
        × (read.0.confirmed + read.0.unsent ≤ most_updates)) }
    ensures stop { IfErr result (λ stop. IfBad stop (λ rest. LacksLine rest bytes.now)) }
{
    let (agent, rest) = read_owner(alloc, bytes)?;
    let (server, path, rest) = read_place(rest)?;
    let (confirmed, unsent, rest) = read_counts(rest)?;
    let heading = Heading {
        agent,
        server: Bytes::of(alloc, server)?,
        path: Bytes::of(alloc, path)?,
        confirmed,
        unsent,
    };
    Ok((heading, rest))
}

/// The agent that the bytes name.
fn read_agent(alloc: Global, name: &[u8]) -> Result<Option<Agent>, Memory>
    ensures found { IfOk result (λ found. MatchOption found (IsAgent name.now → ⊥)
        (λ agent. (agent ≡ name.now) × IsAgent name.now)) }
{
    match Agent::read(alloc, name) {
        Ok(agent) => Ok(Some(agent)),
        Err(fault) => match fault {
            AgentFault::Memory => Err(Memory),
            _ => Ok(None),
        },
    }
}

/// Reads the title and the line of the agent at the front of all bytes.
fn read_owner<'a>(alloc: Global, bytes: &'a [u8]) -> Result<(Agent, &'a [u8]), Stop<'a>>
    ensures ok { IfOk result (λ read. (head : Head) → head.agent ≡ read.0
        → HasLines (take 2 head_lines) head read.1.now bytes.now) }
    ensures stop { IfErr result (λ stop. IfBad stop (λ rest. LacksLine rest bytes.now)) }
{
    let Some(rest) = pass_line(Line::Title, bytes) else {
        return Err(Stop::Bad(bytes));
    };
    let Some((name, after)) = read_line(Line::Agent, rest) else {
        return Err(Stop::Bad(rest));
    };
    let Some(agent) = read_agent(alloc, name)? else {
        return Err(Stop::Bad(rest));
    };
    Ok((agent, after))
}

/// Reads the lines of the server and the path behind those of the agent.
fn read_place<'a>(bytes: &'a [u8]) -> Result<(&'a [u8], &'a [u8], &'a [u8]), Stop<'a>>
    ensures ok { IfOk result (λ read. (head : Head) (whole : List ℕ) → head.server ≡ read.0.now → head.path ≡ read.1.now
        → HasLines (take 2 head_lines) head bytes.now whole → HasLines (take 4 head_lines) head read.2.now whole) }
    ensures stop { IfErr result (λ stop. IfBad stop (λ rest. (head : Head) (whole : List ℕ)
        → HasLines (take 2 head_lines) head bytes.now whole → LacksLine rest whole)) }
{
    let Some((server, rest)) = server_line(bytes) else {
        return Err(Stop::Bad(bytes));
    };
    let Some((path, after)) = path_line(rest) else {
        return Err(Stop::Bad(rest));
    };
    Ok((server, path, after))
}

/// The address in the line of a server, and what follows.
fn server_line(bytes: &[u8]) -> Option<(&[u8], &[u8])>
    ensures found { MatchOption result ((server more : List ℕ) → IsServer server
        → bytes.now ≢ name_of lines.Server ++ (server ++ 10 ∷ more))
        (λ cut. IsServer cut.0.now × (bytes.now ≡ name_of lines.Server ++ (cut.0.now ++ 10 ∷ cut.1.now))) }
{
    let Some((server, rest)) = read_line(Line::Server, bytes) else {
        return None;
    };
    if is_server(server) {
        Some((server, rest))
    } else {
        None
    }
}

/// The path in the line of a path, and what follows.
fn path_line(bytes: &[u8]) -> Option<(&[u8], &[u8])>
    ensures found { MatchOption result ((path more : List ℕ) → IsPath path
        → bytes.now ≢ name_of lines.Path ++ (path ++ 10 ∷ more))
        (λ cut. IsPath cut.0.now × (bytes.now ≡ name_of lines.Path ++ (cut.0.now ++ 10 ∷ cut.1.now))) }
{
    let Some((path, rest)) = read_line(Line::Path, bytes) else {
        return None;
    };
    if is_path(path) {
        Some((path, rest))
    } else {
        None
    }
}

/// Reads the lines of both counts and the empty line behind that of the path.
fn read_counts<'a>(bytes: &'a [u8]) -> Result<(u64, u64, &'a [u8]), Stop<'a>>
    ensures ok { IfOk result (λ read. (head : Head) (whole : List ℕ) → head.confirmed ≡ decimal read.0
        → head.unsent ≡ decimal read.1
        → HasLines (take 4 head_lines) head bytes.now whole → HasLines head_lines head read.2.now whole) }
    ensures few { IfOk result (λ read. read.0 + read.1 ≤ most_updates) }
    ensures stop { IfErr result (λ stop. IfBad stop (λ rest. (head : Head) (whole : List ℕ)
        → HasLines (take 4 head_lines) head bytes.now whole → LacksLine rest whole)) }
{
    let Some((confirmed, rest)) = count_line(Line::Confirmed, bytes) else {
        return Err(Stop::Bad(bytes));
    };
    let Some((unsent, after)) = count_line(Line::Unsent, rest) else {
        return Err(Stop::Bad(rest));
    };
    if confirmed + unsent > MOST_UPDATES {
        return Err(Stop::Bad(rest));
    }
    let Some(last) = pass_line(Line::Empty, after) else {
        return Err(Stop::Bad(after));
    };
    Ok((confirmed, unsent, last))
}

/// The number in the line of a count, and what follows. A number above the most updates is read as one more than these.
fn count_line(line: Line, bytes: &[u8]) -> Option<(u64, &[u8])>
    ensures found { MatchOption result ((digits more : List ℕ) → IsCount digits
        → bytes.now ≢ name_of line ++ (digits ++ 10 ∷ more))
        (λ cut. (digits : List ℕ) × IsCount digits × (cut.0 ≡ min (count_of digits) 524_289)
        × (bytes.now ≡ name_of line ++ (digits ++ 10 ∷ cut.1.now))) }
{
    let Some((digits, rest)) = read_line(line, bytes) else {
        return None;
    };
    let Some(n) = read_count(digits) else {
        return None;
    };
    Some((n, rest))
}
