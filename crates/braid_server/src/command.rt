//! The words after `serve`, as one simple command of `clap`.

ghost use Rattle.std.specs.Prelude.{◌≡◌, ℕ, ◌<◌, ◌^◌, map, option_map, None, IfOk, IfSome, IsErrOf};
ghost use Rattle.clap.specs.Words.{app_of};
ghost use Rattle.braid_server.specs.Commands.{serve_app, AreTaken, HasValues, IsNumberOr};

use clap::error::ErrorKind;
use clap::{Arg, ArgMatches, Command};
use std::alloc::{AllocError, Global};

/// Why words are no form of `serve`.
#[derive(Clone, Copy, Debug, PartialEq, Eq)]
pub(crate) enum FormFault {
    /// They are none.
    NoForm,
    /// There was no memory.
    Memory,
}

/// The most workers.
pub(crate) const MOST_WORKERS: u32 = 32;

/// The most connections that are taken.
pub(crate) const MOST_TAKEN: u32 = 1_000_000;

/// The command: a server, and the options `--workers` and `--take`.
fn serve_command<'a>(alloc: Global) -> Result<Command<'a>, AllocError>
    ensures ok { IfOk result (λ c. app_of c ≡ serve_app) }
{
    let server = Arg::new(alloc, "server").required(true);
    let workers = Arg::new(alloc, "workers")
        .long("workers")
        .value_parser(clap::value_parser!(u32).range(1..=MOST_WORKERS as i64));
    let take = Arg::new(alloc, "take")
        .long("take")
        .value_parser(clap::value_parser!(u32).range(1..=MOST_TAKEN as i64));
    let command = Command::new(alloc, "serve")
        .no_binary_name(true)
        .disable_help_flag(true)
        .disable_version_flag(true)
        .arg(server)?
        .arg(workers)?
        .arg(take)?;
    Ok(command)
}

/// What the command makes of the words.
pub(crate) fn matches<'a>(alloc: Global, words: &'a [&'a str]) -> Result<ArgMatches<'a>, FormFault>
    ensures ok { IfOk result (λ m. HasValues (map (λ w. w.now) words.entry.now) m) }
    ensures no { IsErrOf result FormFault.NoForm → ¬ (AreTaken (map (λ w. w.now) words.entry.now)) }
{
    let Ok(command) = serve_command(alloc) else {
        return Err(FormFault::Memory);
    };
    match command.try_get_matches_from(words) {
        Ok(matches) => Ok(matches),
        Err(error) => Err(if error.kind() == ErrorKind::OutOfMemory {
            FormFault::Memory
        } else {
            FormFault::NoForm
        }),
    }
}

/// The number that a text is, within its range, or the default where there is no text.
pub(crate) fn number_or(text: Option<&str>, default: u32, low: u32, high: u32) -> Option<u32>
    ensures some { IfSome result (IsNumberOr default low high (option_map (λ t. t.now) text.entry)) }
    ensures none { result ≡ None → (n : ℕ) → n < 2 ^ 32
        → ¬ (IsNumberOr default low high (option_map (λ t. t.now) text.entry) n) }
{
    let Some(text) = text else {
        return Some(default);
    };
    match text.parse::<u32>() {
        Ok(n) => { if low <= n && n <= high { Some(n) } else { None } }
        Err(_) => None,
    }
}
