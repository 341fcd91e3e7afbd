ghost use Rattle.std.specs.Prelude.{◌≡◌, MatchResult};
ghost use Rattle.braid_cli.specs.Picks.{Picks, surroundings};
ghost use Rattle.braid_cli.specs.Exits.{ExitsRun, ExitsUnread};

use crate::table::{Run, run_of};
use crate::words::WordsFault;
use braid_check::check_run;
use braid_client::client_run;
use braid_drill::drill_run;
use braid_ids::Word;
use braid_io::{Dialer, Keeper, Port, Sink, Source, Status};
use braid_lines::refuse_words;
use braid_server::{Served, serve_run};
use std::alloc::Global;
use std::marker::Sync;
use std::sync::Wait;
use std::thread::Threads;

/// What a run leaves.
#[derive(Drop)]
pub struct Ran<D, L> {
    /// How it ended.
    pub status: Status,
    /// What `serve` left, with the status that it answered; `None` for every other command.
    pub served: Option<Served<D, L>>,
}

/// Carries out the command that the words are, and answers how it ended.
///
/// The command `check` takes the updates of a stream from `source` into one resource and writes to `out` what it holds then, or
/// what is wrong (`braid_check::check_run`). The command `serve` answers the connections of the doors that `port` opens, with
/// one history for all of them, and writes to `out` that it serves and, at the end, what was served
/// (`braid_server::serve_run`); it may wait without end. The commands `new`, `edit`, `set`, `show`, `sync` and `follow` are those
/// of a client with a state that `keeper` keeps, over links of `dialer` (`braid_client::client_run`). The command `drill` lets
/// four replicas of its own write and sync, and writes to `out` what has become of them (`braid_drill::drill_run`). Other words
/// are written as `fault: Usage`. What a command does not name here it leaves alone.
pub fn run<R: Threads + Wait + Sync, S: Source, O: Sink, K: Keeper, D: Dialer, P: Port>(
    alloc: Global,
    rt: &R,
    words: &[Word],
    source: &mut S,
    out: &mut O,
    keeper: &mut K,
    dialer: &mut D,
    port: &mut P,
) -> Ran<P::Door, P::Bell>
    ensures picks { Picks P.Door.doorway P.Bell.ringing words.now result
        (surroundings (S.intake source.old) (K.keeping keeper.old) (D.dialing dialer.old) (P.porting port.old)
        (O.outflow out.old))
        (surroundings (S.intake source.new) (K.keeping keeper.new) (D.dialing dialer.new) (P.porting port.new)
        (O.outflow out.new)) }
    ensures hung_up { (D.dialing dialer.new).servers ≡ (D.dialing dialer.old).servers }
    ensures kept { (S.beside_reads source.new ≡ S.beside_reads source.old)
        × (O.beside_writes out.new ≡ O.beside_writes out.old) }
{
    match run_of(words) {
        Some(Run::Check) => Ran {
            status: check_run(alloc, words, source, out),
            served: None,
        },
        Some(Run::Serve) => {
            let served = serve_run(alloc, rt, words, port, out);
            Ran {
                status: served.status,
                served: Some(served),
            }
        }
        Some(Run::Client) => Ran {
            status: client_run(alloc, words, keeper, dialer, out),
            served: None,
        },
        Some(Run::Drill) => Ran {
            status: drill_run(alloc, rt, words, out),
            served: None,
        },
        None => Ran {
            status: refuse_words(out),
            served: None,
        },
    }
}

/// Carries out the command that the words are, and answers the exit status of the program: 0 where all was done, and
/// another for each other end (`Status::code`).
///
/// Words that are no text are written as `fault: Usage`, as other words that are no command. Where there was no memory for
/// the words, nothing is read, kept or written, no link is dialled, and no port is opened.
pub fn exit_code<R: Threads + Wait + Sync, S: Source, O: Sink, K: Keeper, D: Dialer, P: Port>(
    alloc: Global,
    rt: &R,
    words: Result<Vec<Word>, WordsFault>,
    source: &mut S,
    out: &mut O,
    keeper: &mut K,
    dialer: &mut D,
    port: &mut P,
) -> u8
    ensures exits { MatchResult words
        (λ words. ExitsRun P.Door.doorway P.Bell.ringing words.items result
        (surroundings (S.intake source.old) (K.keeping keeper.old) (D.dialing dialer.old) (P.porting port.old)
        (O.outflow out.old))
        (surroundings (S.intake source.new) (K.keeping keeper.new) (D.dialing dialer.new) (P.porting port.new)
        (O.outflow out.new)))
        (λ fault. ExitsUnread fault result
        (surroundings (S.intake source.old) (K.keeping keeper.old) (D.dialing dialer.old) (P.porting port.old)
        (O.outflow out.old))
        (surroundings (S.intake source.new) (K.keeping keeper.new) (D.dialing dialer.new) (P.porting port.new)
        (O.outflow out.new))) }
    ensures hung_up { (D.dialing dialer.new).servers ≡ (D.dialing dialer.old).servers }
    ensures kept { (S.beside_reads source.new ≡ S.beside_reads source.old)
        × (O.beside_writes out.new ≡ O.beside_writes out.old) }
{
    match words {
        Ok(words) => {
            let ran = run(alloc, rt, &words, source, out, keeper, dialer, port);
            ran.status.code()
        }
        Err(WordsFault::NotText) => refuse_words(out).code(),
        Err(WordsFault::Memory) => Status::Memory.code(),
    }
}
