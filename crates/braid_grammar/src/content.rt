//! Contents at the front of bytes.

ghost use Rattle.std.specs.Prelude.{◌<◌, ◌+◌, ◌^◌, length, IfOk};
ghost use Rattle.braid_grammar.specs.Outcomes.{content_at};
ghost use Rattle.braid_grammar.specs.Readers.{Finds};

use crate::found::Found;
use braid_change::{Text, TextFault};
use braid_fields::Reason;
use braid_ids::Memory;
use std::alloc::Global;

/// The content of `len` bytes at the front of the bytes, which begin at this place.
pub fn read_content(alloc: Global, len: u32, at: u64, bytes: &[u8]) -> Result<Found<Text>, Memory>
    requires room { at + length bytes.now < 2 ^ 64 }
    ensures { IfOk result (λ found. Finds found (content_at len at bytes.now)) }
{
    let count = len as usize;
    if bytes.len() < count {
        return Ok(Found::Part);
    }
    let (content, rest) = bytes.split_at(count);
    match Text::read(alloc, content) {
        Ok(text) => Ok(Found::Whole(text, at + len as u64, rest)),
        Err(fault) => match fault {
            TextFault::NotText => Ok(Found::Bad(at, Reason::NotText)),
            TextFault::Memory => Err(Memory),
        },
    }
}
