//! A run of the client, from its words to its last line.

ghost use Rattle.std.specs.Prelude.{◌≡◌, Err};
ghost use Rattle.braid_client.specs.Runs.{ClientRuns, Finishes, setting};

use crate::carrying::carry_out_words;
use crate::fault::Fault;
use crate::lines::{detailed_line, plain_line};
use crate::report::Report;
use braid_ids::Word;
use braid_io::{Dialer, Keeper, Sink, Status};
use braid_lines::print;
use std::alloc::Global;

/// Carries out one command of a client on the state that `keeper` keeps under a name:
///
/// - `new STATE AGENT SERVER PATH` keeps a state without updates, where nothing is kept under the name;
/// - `edit STATE START END TEXT` writes that characters START to END become TEXT, and `set STATE TEXT` that all do;
/// - `show STATE` prints the state's replica;
/// - `sync STATE` learns what the server has and sends what is unsent (`sync`);
/// - `follow STATE COUNT` learns COUNT updates as they come, 1 to 262,144, and prints a line for each (`follow`).
///
/// docs/FORMATS.md lists the lines. Other words print `fault: Usage`. Links are dialled by `sync` and `follow` alone.
/// What a command leaves is kept once, before its last line is printed: by `sync` and `follow` at every end, also where
/// the line of an update could not be printed. A save that failed takes the place of the end before it.
///
/// The status: Done where all was done and printed; Bad where the state, the change or a reply is at fault; Usage for
/// other words; Cut where a reply was cut, the server answered with another status, or too many bytes came; Outside
/// where a load, a save, a dial, a read or a write failed; Memory where there was none, and then nothing is kept.
/// Behind a line that could not be written nothing more is printed.
pub fn client_run<K: Keeper, D: Dialer, O: Sink>(
    alloc: Global,
    words: &[Word],
    keeper: &mut K,
    dialer: &mut D,
    out: &mut O,
) -> Status
    ensures runs { ClientRuns words.now result
        (setting (K.keeping keeper.old) (D.dialing dialer.old) (O.outflow out.old))
        (setting (K.keeping keeper.new) (D.dialing dialer.new) (O.outflow out.new)) }
    ensures hung_up { (D.dialing dialer.new).servers ≡ (D.dialing dialer.old).servers }
    ensures kept { O.beside_writes out.new ≡ O.beside_writes out.old }
{
    let carried = carry_out_words(alloc, words, keeper, dialer, out);
    finish(alloc, carried, out)
}

/// Prints what a command has to report at last, and answers the status of its run.
fn finish<O: Sink>(alloc: Global, carried: Result<Report, Fault>, out: &mut O) -> Status
    ensures finishes { Finishes carried result (O.outflow out.old) (O.outflow out.new) }
    ensures kept { O.beside_writes out.new ≡ O.beside_writes out.old }
{
    match carried {
        Ok(report) => print(out, report.text.get(), report.status),
        Err(fault) => print_fault(alloc, &fault, out),
    }
}

/// Prints the line of a fault.
fn print_fault<O: Sink>(alloc: Global, fault: &Fault, out: &mut O) -> Status
    ensures finishes { Finishes (Err fault.now) result (O.outflow out.old) (O.outflow out.new) }
    ensures kept { O.beside_writes out.new ≡ O.beside_writes out.old }
{
    if let Some(line) = plain_line(fault) {
        return print(out, line, fault.status());
    }
    match detailed_line(alloc, fault) {
        Ok(line) => print(out, line.get(), fault.status()),
        Err(_) => Status::Memory,
    }
}
