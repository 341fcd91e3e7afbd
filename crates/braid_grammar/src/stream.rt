ghost use Rattle.std.specs.Prelude.{IfOk};
ghost use Rattle.braid_grammar.specs.Readers.{IsRead, IsEnd};

use crate::found::Found;
use crate::line::after_gap;
use crate::update::read_next;
use braid_change::Update;
use braid_fields::Reason;
use braid_ids::Memory;
use std::alloc::Global;

/// How bytes that were read as a stream end.
#[derive(Clone, Copy, Debug, PartialEq, Eq)]
pub enum StreamEnd {
    /// They are a stream: a gap follows the last update.
    Gap,
    /// They have this fault, at a place that counts from the first byte.
    Fault { at: u64, reason: Reason },
    /// They are neither: they end within a line, a head or a content, or before a patch.
    Torn,
}

/// The updates that bytes spell, in order, and how the bytes end.
#[derive(Drop)]
pub struct Stream {
    pub updates: Vec<Update>,
    pub end: StreamEnd,
}

/// Reads all of the bytes as a stream of updates (the body of a Braid-HTTP subscription, in the profile of
/// docs/FORMATS.md).
///
/// It answers the updates whose spellings the bytes hold whole, also those before a fault. A fault's place counts from
/// the first of the bytes. It takes time and memory linear in the bytes.
///
/// Errors: `Memory` where there was none for the updates; nothing is kept then.
pub fn read_stream(alloc: Global, bytes: &[u8]) -> Result<Stream, Memory>
    ensures ok { IfOk result (λ stream. IsRead stream.updates.items stream.end bytes.now) }
{
    let mut updates = Vec::new(alloc);
    let mut at = 0;
    let mut rest = bytes;
    loop {
        match read_next(alloc, at, rest)? {
            Found::Part => {
                let end = end_of(rest);
                return Ok(Stream { updates, end });
            }
            Found::Bad(at, reason) => {
                let end = StreamEnd::Fault { at, reason };
                return Ok(Stream { updates, end });
            }
            Found::Whole(update, last, left) => {
                updates.push(update)?;
                at = last;
                rest = left;
            }
        }
    }
}

/// The end of bytes behind whose last update no further one is whole.
fn end_of(rest: &[u8]) -> StreamEnd
    ensures { IsEnd rest.now result }
{
    if after_gap(rest).is_empty() {
        StreamEnd::Gap
    } else {
        StreamEnd::Torn
    }
}
