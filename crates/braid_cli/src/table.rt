//! The commands of the program, and the run that each picks.

ghost use Rattle.std.specs.Prelude.{◌≡◌, map};
ghost use Rattle.braid_cli.specs.Picks.{run_in, run_of};

use braid_ids::Word;

/// The run that a command picks.
#[derive(Clone, Copy, Debug, PartialEq, Eq)]
pub enum Run {
    /// That of `check` (`braid_check::check_run`).
    Check,
    /// That of `serve` (`braid_server::serve_run`).
    Serve,
    /// That of the client's commands (`braid_client::client_run`).
    Client,
    /// That of `drill` (`braid_drill::drill_run`).
    Drill,
}

/// The commands: the word of each, and the run that it picks.
const COMMANDS: [(&[u8], Run); 9] = [
    (b"check", Run::Check),
    (b"serve", Run::Serve),
    (b"new", Run::Client),
    (b"edit", Run::Client),
    (b"set", Run::Client),
    (b"show", Run::Client),
    (b"sync", Run::Client),
    (b"follow", Run::Client),
    (b"drill", Run::Drill),
];

/// The run that the first word picks; `None` where there is no first word, or it is that of no command.
pub(crate) fn run_of(words: &[Word]) -> Option<Run>
    ensures value { result ≡ run_of words.now }
{
    match words.first() {
        Some(word) => run_in(&COMMANDS, word.get()),
        None => None,
    }
}

/// The run of the command with this word; `None` where there is none.
fn run_in(mut table: &[(&[u8], Run)], word: &[u8]) -> Option<Run>
    ensures value { result ≡ run_in (map (λ c. (c.0.now, c.1)) table.entry.now) word.now }
{
    while let [command, rest @ ..] = table {
        if command.0 == word {
            return Some(command.1);
        }
        table = rest;
    }
    None
}
