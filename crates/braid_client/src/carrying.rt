//! What the words of a command ask for, carried out.

ghost use Rattle.std.specs.Prelude.{◌≡◌, IfOk};
ghost use Rattle.braid_client.specs.Steps.{IsPlaced};
ghost use Rattle.braid_client.specs.Runs.{CarriesOut, CarriesOutWords, setting, range_change};

use crate::command::Command;
use crate::fault::Fault;
use crate::local::{make, show, write};
use crate::remote::{follow_kept, sync_kept};
use crate::report::Report;
use crate::words::read_words;
use braid_change::{Change, ListPatch, Patch, Text};
use braid_ids::{Memory, Word};
use braid_io::{Dialer, Keeper, Sink};
use std::alloc::Global;

/// Carries out what words ask for, but for what is printed at last.
pub(crate) fn carry_out_words<K: Keeper, D: Dialer, O: Sink>(
    alloc: Global,
    words: &[Word],
    keeper: &mut K,
    dialer: &mut D,
    out: &mut O,
) -> Result<Report, Fault>
    ensures carries { CarriesOutWords words.now
        (setting (K.keeping keeper.old) (D.dialing dialer.old) (O.outflow out.old))
        (setting (K.keeping keeper.new) (D.dialing dialer.new) (O.outflow out.new)) result }
    ensures kept { O.beside_writes out.new ≡ O.beside_writes out.old }
{
    let (name, command) = read_words(alloc, words)?;
    carry_out(alloc, name, command, keeper, dialer, out)
}

/// Carries out a command on the state of this name, but for what is printed at last.
fn carry_out<K: Keeper, D: Dialer, O: Sink>(
    alloc: Global,
    name: &Word,
    command: Command,
    keeper: &mut K,
    dialer: &mut D,
    out: &mut O,
) -> Result<Report, Fault>
    requires placed { IsPlaced command }
    ensures carries { CarriesOut name.now command result
        (setting (K.keeping keeper.old) (D.dialing dialer.old) (O.outflow out.old))
        (setting (K.keeping keeper.new) (D.dialing dialer.new) (O.outflow out.new)) }
    ensures kept { O.beside_writes out.new ≡ O.beside_writes out.old }
{
    match command {
        Command::New { agent, place } => make(alloc, name, &place, agent, keeper),
        Command::Edit { start, end, text } => {
            let change = range_change(alloc, start, end, text)?;
            write(alloc, name, change, keeper)
        }
        Command::Set { text } => write(alloc, name, Change::Body(text), keeper),
        Command::Show => show(alloc, name, keeper),
        Command::Sync => sync_kept(alloc, name, keeper, dialer),
        Command::Follow { count } => follow_kept(alloc, name, count, keeper, dialer, out),
    }
}

/// The change that replaces a range of the text.
fn range_change(alloc: Global, start: u32, end: u32, text: Text) -> Result<Change, Memory>
    ensures ok { IfOk result (λ change. change ≡ range_change start end text) }
{
    let mut patches = Vec::new(alloc);
    patches.push(Patch { start, end, text })?;
    Ok(Change::Patches(ListPatch::of(patches)))
}
