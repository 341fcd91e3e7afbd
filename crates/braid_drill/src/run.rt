//! A run of `drill`, from its words to its lines.

ghost use Rattle.std.specs.Prelude.{◌≡◌, IfOk};
ghost use Rattle.braid_drill.specs.Runs.{DrillRuns, IsReport};

use crate::drill::{place_of, play, replicas_of};
use crate::local_dialer::LocalDialer;
use crate::report::summary_text;
use crate::server::Server;
use crate::words::{Asked, read_words};
use braid_ids::{Bytes, Memory, Word};
use braid_io::{Sink, Status};
use braid_lines::{print, refuse_words};
use std::alloc::Global;
use std::marker::Sync;
use std::sync::Wait;

/// Carries out `drill SEED ROUNDS`: lets four replicas of one text write and sync over links that are cut, as the
/// numbers of the seed say, and prints what has become of them: `rounds: R`, `versions: N` of the book, `unsent: N` of
/// all replicas, `equal: N`, the number of replicas that have the book's digest, and `digest: HEX` of the book. SEED is
/// below 2 to the 64th, ROUNDS is 1 to 20,000, each in at most 20 decimal digits. Other words print `fault: Usage`.
/// docs/FORMATS.md says what is drawn.
///
/// The status: Done where the lines were written; Usage for other words; Outside where a write failed, and then a front
/// of the text was written; Memory where there was none at any point, and then nothing was written.
pub fn drill_run<R: Wait + Sync, O: Sink>(
    alloc: Global,
    rt: &R,
    words: &[Word],
    out: &mut O,
) -> Status
    ensures runs { DrillRuns words.now result (O.outflow out.old) (O.outflow out.new) }
    ensures kept { O.beside_writes out.new ≡ O.beside_writes out.old }
{
    let Some(asked) = read_words(words) else {
        return refuse_words(out);
    };
    match drill(alloc, rt, asked) {
        Ok(text) => print(out, text.get(), Status::Done),
        Err(_) => Status::Memory,
    }
}

/// The lines of a drill.
fn drill<R: Wait + Sync>(alloc: Global, rt: &R, asked: Asked) -> Result<Bytes, Memory>
    ensures ok { IfOk result (IsReport asked.rounds) }
{
    let place = place_of(alloc)?;
    let mut replicas = replicas_of(alloc)?;
    let dialer = LocalDialer::new(rt, Server::new(alloc)?);
    let summary = play(alloc, asked, replicas.as_mut_slice(), &place, dialer)?;
    summary_text(alloc, asked.rounds, &summary)
}
