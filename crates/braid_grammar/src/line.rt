//! Lines and gaps at the front of bytes.

ghost use Rattle.std.specs.Prelude.{◌≡◌, ◌++◌, List, ℕ, MatchOption};
ghost use Rattle.braid_ids.specs.Lists.{Lacks};
ghost use Rattle.braid_grammar.specs.Lines.{IsLine};
ghost use Rattle.braid_grammar.specs.Streams.{IsEmptyLine};
ghost use Rattle.braid_grammar.specs.Readers.{IsBehindGap};

use braid_ids::{after, split_at_byte};

/// The first line, with its LF, and the bytes after it.
pub fn first_line(bytes: &[u8]) -> Option<(&[u8], &[u8])>
    ensures { MatchOption result (Lacks 10 bytes.now)
        (λ cut. IsLine cut.0.now × (bytes.now ≡ cut.0.now ++ cut.1.now)) }
{
    let Some((inside, _)) = split_at_byte(b'\n', bytes) else {
        return None;
    };
    Some(bytes.split_at(inside.len() + 1))
}

/// The bytes after the empty line that they begin with.
fn after_empty_line(bytes: &[u8]) -> Option<&[u8]>
    ensures { MatchOption result ((line rest : List ℕ) → IsEmptyLine line → bytes.now ≡ line ++ rest → ⊥)
        (λ rest. (line : List ℕ) × IsEmptyLine line × (bytes.now ≡ line ++ rest.now)) }
{
    if let Some(rest) = after(b"\n", bytes) {
        return Some(rest);
    }
    let Some(rest) = after(b"\r\n", bytes) else {
        return None;
    };
    Some(rest)
}

/// The bytes after the gap that they begin with.
pub fn after_gap(bytes: &[u8]) -> &[u8]
    ensures { IsBehindGap bytes.now result.now }
{
    let mut rest = bytes;
    while let Some(next) = after_empty_line(rest) {
        rest = next;
    }
    rest
}
