ghost use Rattle.std.specs.Prelude.{◌≡◌, ◌≤◌, ◌<◌, ℕ, [], length};
ghost use Rattle.braid_shelf.specs.Reading.{Gives, string_from};

use crate::fault::{ShelfKind, Stop};
use braid_ids::Bytes;
use std::alloc::Global;

/// Reads the String of which the quote has been passed, where `quote` bytes were left at that quote.
#[tactic(auto, unfolding(crate::specs::Reading::string_from))]
pub(crate) fn read_string(alloc: Global, quote: usize, bytes: &[u8]) -> Result<(Bytes, &[u8]), Stop>
    ensures { Gives (λ read. (read.0, read.1.now)) result (string_from quote [] bytes.now) }
{
    let mut text = Bytes::of(alloc, b"")?;
    let mut rest = bytes;
    while let Some((byte, after)) = rest.split_first() {
        let mut kept = *byte;
        let mut next = after;
        if kept == b'"' {
            return Ok((text, after));
        }
        if kept == b'\\' {
            let Some((escaped, after)) = after.split_first() else {
                break;
            };
            if *escaped != b'"' && *escaped != b'\\' {
                return Err(Stop::Bad(rest.len(), ShelfKind::BadItem));
            }
            kept = *escaped;
            next = after;
        } else if kept < 0x20 || kept > 0x7e {
            return Err(Stop::Bad(rest.len(), ShelfKind::BadItem));
        }
        text.push(&[kept])?;
        rest = next;
    }
    Err(Stop::Bad(quote, ShelfKind::Unclosed))
}
