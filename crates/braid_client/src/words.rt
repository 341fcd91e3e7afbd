//! The words of commands. They are read by position: a word may begin with `-`.

ghost use Rattle.std.specs.Prelude.{◌≡◌, ◌≢◌, ◌<◌, ◌≤◌, ◌↔◌, ◌^◌, ℕ, [], codes, IfOk, IfErr, IsTrue, IsUtf8, MatchOption};
ghost use Rattle.braid_ids.specs.Agents.{IsAgent};
ghost use Rattle.braid_change.specs.Texts.{IsTextOf};
ghost use Rattle.braid_sync.specs.Opening.{IsPlace};
ghost use Rattle.braid_lines.specs.Numbers.{IsNumber};
ghost use Rattle.braid_client.specs.Forms.{IsForm};
ghost use Rattle.braid_client.specs.Steps.{FindsCommand, IsWordsFault, SpellsNoText};

use crate::command::Command;
use crate::fault::Fault;
use braid_change::{Text, TextFault};
use braid_fields::{is_path, is_server};
use braid_ids::{Agent, AgentFault, Bytes, Memory, Word};
use braid_lines::read_number;
use braid_sync::Place;
use std::alloc::Global;

/// The most updates that a follow may be asked for.
const MOST_FOLLOWED: u64 = 262_144;

/// The name of the state that the words of a command name, and what they ask for.
///
/// Errors: `Usage` where the words have no form of a command, or `Memory`.
pub(crate) fn read_words<'a>(alloc: Global, words: &'a [Word]) -> Result<(&'a Word, Command), Fault>
    ensures ok { IfOk result (λ read. IsForm words.entry.now read.0.now read.1) }
    ensures fault { IfErr result (λ fault. IsWordsFault words.entry.now fault) }
{
    let [own, name, rest @ ..] = words else {
        return Err(Fault::Usage);
    };
    if !is_text(name.get()) {
        return Err(Fault::Usage);
    }
    let Some(command) = find_command(alloc, own.get(), rest)? else {
        return Err(Fault::Usage);
    };
    Ok((name, command))
}

/// Whether bytes are UTF-8.
fn is_text(bytes: &[u8]) -> bool
    ensures text { IsTrue result ↔ IsUtf8 bytes.now }
{
    str::from_utf8(bytes).is_ok()
}

/// What a command's own word and the words behind the state's name ask for.
fn find_command(alloc: Global, own: &[u8], rest: &[Word]) -> Result<Option<Command>, Memory>
    ensures finds { IfOk result (FindsCommand own.now rest.now) }
{
    if own == b"new".as_slice() {
        return read_new(alloc, rest);
    }
    if own == b"edit".as_slice() {
        return read_edit(alloc, rest);
    }
    if own == b"set".as_slice() {
        return read_set(alloc, rest);
    }
    if own == b"show".as_slice() {
        return Ok(only(Command::Show, rest));
    }
    if own == b"sync".as_slice() {
        return Ok(only(Command::Sync, rest));
    }
    if own == b"follow".as_slice() {
        return Ok(read_follow(rest));
    }
    Ok(None)
}

/// A command that has no word behind the state's name.
fn only(command: Command, rest: &[Word]) -> Option<Command>
    ensures only { MatchOption result (rest.now ≢ []) (λ found. (found ≡ command) × (rest.now ≡ [])) }
{
    if rest.is_empty() { Some(command) } else { None }
}

/// `new`: an agent, the address of a server, and a path.
fn read_new(alloc: Global, rest: &[Word]) -> Result<Option<Command>, Memory>
    ensures finds { IfOk result (FindsCommand (codes "new") rest.now) }
{
    let [agent, server, path] = rest else {
        return Ok(None);
    };
    if !is_server(server.get()) || !is_path(path.get()) {
        return Ok(None);
    }
    let Some(agent) = read_agent(alloc, agent.get())? else {
        return Ok(None);
    };
    let place = Place {
        server: Bytes::of(alloc, server.get())?,
        path: Bytes::of(alloc, path.get())?,
    };
    Ok(Some(Command::New { agent, place }))
}

/// `edit`: two numbers and a text.
fn read_edit(alloc: Global, rest: &[Word]) -> Result<Option<Command>, Memory>
    ensures finds { IfOk result (FindsCommand (codes "edit") rest.now) }
{
    let [start, end, text] = rest else {
        return Ok(None);
    };
    let Some(start) = read_index(start.get()) else {
        return Ok(None);
    };
    let Some(end) = read_index(end.get()) else {
        return Ok(None);
    };
    let Some(text) = read_text(alloc, text.get())? else {
        return Ok(None);
    };
    Ok(Some(Command::Edit { start, end, text }))
}

/// `set`: a text.
fn read_set(alloc: Global, rest: &[Word]) -> Result<Option<Command>, Memory>
    ensures finds { IfOk result (FindsCommand (codes "set") rest.now) }
{
    let [text] = rest else {
        return Ok(None);
    };
    let Some(text) = read_text(alloc, text.get())? else {
        return Ok(None);
    };
    Ok(Some(Command::Set { text }))
}

/// `follow`: how many updates.
fn read_follow(rest: &[Word]) -> Option<Command>
    ensures finds { FindsCommand (codes "follow") rest.now result }
{
    let [count] = rest else {
        return None;
    };
    let Some(count) = read_number(count.get(), MOST_FOLLOWED) else {
        return None;
    };
    if count == 0 {
        return None;
    }
    Some(Command::Follow {
        count: count as u32,
    })
}

/// The number below 2 to the 32nd that a word is, in 1 to 20 decimal digits.
fn read_index(word: &[u8]) -> Option<u32>
    ensures number { MatchOption result ((n : ℕ) → n < 2 ^ 32 → ¬ IsNumber word.now n)
        (λ n. IsNumber word.now n × (n < 2 ^ 32)) }
{
    let Some(n) = read_number(word, u32::MAX as u64) else {
        return None;
    };
    Some(n as u32)
}

/// The agent that a word names.
fn read_agent(alloc: Global, word: &[u8]) -> Result<Option<Agent>, Memory>
    ensures agent { IfOk result (λ found. MatchOption found (¬ IsAgent word.now)
        (λ agent. (agent ≡ word.now) × IsAgent word.now)) }
{
    match Agent::read(alloc, word) {
        Ok(agent) => Ok(Some(agent)),
        Err(AgentFault::Memory) => Err(Memory),
        Err(_) => Ok(None),
    }
}

/// The text that a word spells.
fn read_text(alloc: Global, word: &[u8]) -> Result<Option<Text>, Memory>
    ensures text { IfOk result (λ found. MatchOption found (SpellsNoText word.now) (λ text. IsTextOf text word.now)) }
{
    match Text::read(alloc, word) {
        Ok(text) => Ok(Some(text)),
        Err(TextFault::NotText) => Ok(None),
        Err(TextFault::Memory) => Err(Memory),
    }
}
