//! The form of the words of `serve`.

ghost use Rattle.std.specs.Prelude.{◌≡◌, map, IfOk, IsErrOf, IsUtf8};
ghost use Rattle.std.specs.List.{AllByRecursion};
ghost use Rattle.braid_io.specs.declared.port.Asked.{Asked};
ghost use Rattle.braid_server.specs.Commands.{AsksFor, IsForm};

use crate::command::{FormFault, MOST_TAKEN, MOST_WORKERS, matches, number_or};
use braid_fields::is_server;
use braid_ids::{Bytes, Word};
use braid_io::Asked;
use std::alloc::Global;
use std::str;

/// The number of workers where the words name none.
const WORKERS: u32 = 4;

/// The number of connections where the words name none.
const TAKE: u32 = MOST_TAKEN;

/// The words as texts.
fn texts_of<'a>(alloc: Global, words: &'a [Word]) -> Result<Vec<&'a str>, FormFault>
    ensures ok { IfOk result (λ texts. map (λ t. t.now) texts.items ≡ words.entry.now) }
    ensures text { IfOk result (λ texts. AllByRecursion IsUtf8 words.entry.now) }
    ensures no { IsErrOf result FormFault.NoForm → ¬ (AllByRecursion IsUtf8 words.entry.now) }
{
    let Ok(mut texts) = Vec::with_capacity(alloc, words.len()) else {
        return Err(FormFault::Memory);
    };
    for word in words {
        let Ok(text) = str::from_utf8(word.get()) else {
            return Err(FormFault::NoForm);
        };
        texts.push_reserved(text);
    }
    Ok(texts)
}

/// What texts ask for.
fn asked_of(alloc: Global, texts: &[&str]) -> Result<Asked, FormFault>
    ensures ok { IfOk result (λ asked. AsksFor (map (λ t. t.now) texts.entry.now) asked) }
    ensures no { IsErrOf result FormFault.NoForm → (asked : Asked)
        → ¬ (AsksFor (map (λ t. t.now) texts.entry.now) asked) }
{
    let matches = matches(alloc, texts)?;
    let Some(server) = matches.get_str("server") else {
        return Err(FormFault::NoForm);
    };
    if !is_server(server.as_bytes()) {
        return Err(FormFault::NoForm);
    }
    let Some(workers) = number_or(matches.get_str("workers"), WORKERS, 1, MOST_WORKERS) else {
        return Err(FormFault::NoForm);
    };
    let Some(take) = number_or(matches.get_str("take"), TAKE, 1, MOST_TAKEN) else {
        return Err(FormFault::NoForm);
    };
    let Ok(server) = Bytes::of(alloc, server.as_bytes()) else {
        return Err(FormFault::Memory);
    };
    Ok(Asked {
        server,
        workers,
        take,
    })
}

/// What the words of a server ask for: `serve`, the server's address, and the options `--workers` and `--take`.
///
/// Errors: `NoForm` where the words are not of this form, or `Memory`.
pub(crate) fn read_form(alloc: Global, words: &[Word]) -> Result<Asked, FormFault>
    ensures ok { IfOk result (λ asked. IsForm words.now asked) }
    ensures no { IsErrOf result FormFault.NoForm → (asked : Asked) → ¬ (IsForm words.now asked) }
{
    let [first, rest @ ..] = words else {
        return Err(FormFault::NoForm);
    };
    if first.get() != b"serve".as_slice() {
        return Err(FormFault::NoForm);
    }
    let texts = texts_of(alloc, rest)?;
    asked_of(alloc, texts.as_slice())
}
