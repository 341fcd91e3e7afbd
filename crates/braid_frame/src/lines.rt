//! Lines of a head: keeping them until they end, and judging each once.

ghost use Rattle.std.specs.Prelude.{◌≡◌, ◌<◌, length, IfOk, OnErr};
ghost use Rattle.braid_grammar.specs.Outcomes.{head_limit};
ghost use Rattle.braid_frame.specs.HeadLines.{IsLineLen, KeepsLine, Judges};

use crate::state::Awaits;
use braid_fields::{Reason, is_empty_line, is_good_status, is_status, read_field};
use braid_grammar::HEAD_LIMIT;
use std::alloc::AllocError;

/// How much of a piece was kept.
#[derive(Clone, Copy)]
pub enum Kept {
    /// Up to the end of the line: so many bytes.
    Line(usize),
    /// So many bytes, which hold no line's end: all of the piece, or all that the head has room for.
    Part(usize),
}

/// What a line is to its head.
#[derive(Clone, Copy)]
pub enum LineIs {
    /// An empty line before the head.
    Gap,
    /// A line that is fine, behind which this may come.
    Fine(Awaits),
    /// The empty line that ends the head.
    Last,
    /// A line that no head has there.
    Bad(Reason),
}

/// The number of bytes of the first line, with its LF.
pub fn line_len(bytes: &[u8]) -> Option<usize>
    ensures { IsLineLen bytes.now result }
{
    for (i, byte) in bytes.iter().enumerate() {
        if *byte == b'\n' {
            return Some(i + 1);
        }
    }
    None
}

/// Keeps bytes up to the end of the line or of the head's room.
pub fn keep_line(kept: &mut Vec<u8>, piece: &[u8]) -> Result<Kept, AllocError>
    requires short { length kept.old.items < head_limit }
    requires some { 0 < length piece.now }
    ensures ok { IfOk result (λ how. KeepsLine kept.old.items kept.new.items piece.now how) }
    ensures err { OnErr result (kept.new.items ≡ kept.old.items) }
{
    let room = HEAD_LIMIT - kept.len();
    let most = piece.len().min(room);
    let window = &piece[..most];
    match line_len(window) {
        Some(count) => {
            kept.extend_from_slice(&piece[..count])?;
            Ok(Kept::Line(count))
        }
        None => {
            kept.extend_from_slice(window)?;
            Ok(Kept::Part(most))
        }
    }
}

/// What a line is to its head, where no fault came before it.
pub fn judge_line(awaits: Awaits, line: &[u8]) -> LineIs
    ensures judges { Judges awaits line.now result }
{
    if is_empty_line(line) {
        return match awaits {
            Awaits::UpdateHead => LineIs::Gap,
            Awaits::PatchHead => LineIs::Gap,
            Awaits::FirstField => LineIs::Bad(Reason::BadLine),
            Awaits::MoreFields => LineIs::Last,
        };
    }
    if read_field(line).is_some() {
        return LineIs::Fine(Awaits::MoreFields);
    }
    match awaits {
        Awaits::UpdateHead if is_status(line) => {
            if is_good_status(line) {
                LineIs::Fine(Awaits::FirstField)
            } else {
                LineIs::Bad(Reason::BadStatus)
            }
        }
        _ => LineIs::Bad(Reason::BadLine),
    }
}
