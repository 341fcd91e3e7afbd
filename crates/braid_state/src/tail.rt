//! What stands behind all updates.

ghost use Rattle.std.specs.Prelude.{◌≡◌, ◌++◌, List, ℕ, OnOk, IfErr, MatchOption};
ghost use Rattle.braid_grammar.specs.Streams.{IsEmptyLine, IsGap};
ghost use Rattle.braid_grammar.specs.Readers.{IsBehindGap};
ghost use Rattle.braid_state.specs.States.{end_mark};
ghost use Rattle.braid_state.specs.StateFaults.{IsBadTail};
ghost use Rattle.braid_state.specs.Stops.{IfBad};

use crate::stop::Stop;
use braid_ids::after;

/// What a state's text ends with.
pub const END_MARK: &[u8] = b"end\n";

/// Reads a gap and the end mark, which are all of the bytes.
pub fn read_tail<'a>(bytes: &'a [u8]) -> Result<(), Stop<'a>>
    ensures ok { OnOk result ((gap : List ℕ) × IsGap gap × (bytes.now ≡ gap ++ end_mark)) }
    ensures stop { IfErr result (λ stop. IfBad stop (λ rest. IsBadTail rest bytes.now)) }
{
    let mark = after_gap(bytes);
    let Some(rest) = after(END_MARK, mark) else {
        return Err(Stop::Bad(mark));
    };
    if rest.is_empty() {
        Ok(())
    } else {
        Err(Stop::Bad(rest))
    }
}

/// The bytes after the gap that they begin with.
pub fn after_gap(bytes: &[u8]) -> &[u8]
    ensures behind { IsBehindGap bytes.now result.now }
{
    let mut rest = bytes;
    while let Some(next) = after_empty_line(rest) {
        rest = next;
    }
    rest
}

/// The bytes after the empty line that they begin with.
fn after_empty_line(bytes: &[u8]) -> Option<&[u8]>
    ensures found { MatchOption result ((line rest : List ℕ) → IsEmptyLine line → bytes.now ≡ line ++ rest → ⊥)
        (λ rest. (line : List ℕ) × IsEmptyLine line × (bytes.now ≡ line ++ rest.now)) }
{
    if let Some(rest) = after(b"\n", bytes) {
        return Some(rest);
    }
    let Some(rest) = after(b"\r\n", bytes) else {
        return None;
    };
    Some(rest)
}
