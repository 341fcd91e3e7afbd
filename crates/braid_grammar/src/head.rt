//! Heads at the front of bytes.

ghost use Rattle.std.specs.Prelude.{◌<◌, ◌+◌, ◌^◌, [], length, IfOk};
ghost use Rattle.braid_grammar.specs.Lines.{lines_of};
ghost use Rattle.braid_grammar.specs.Heads.{Verdict, behind, fields_of, some_fields_of, head_of};
ghost use Rattle.braid_grammar.specs.Outcomes.{settle, head_at};
ghost use Rattle.braid_grammar.specs.Readers.{judge_of, IsVerdict, IsWithin, FindsHead};

use crate::found::Found;
use crate::line::first_line;
use braid_fields::{HeadFields, Reason, is_empty_line, is_good_status, is_status, read_field};
use braid_ids::Memory;
use std::alloc::Global;

/// The most bytes of the head of an update or of a patch.
pub const HEAD_LIMIT: usize = 16_384;

/// Which head it is.
#[derive(Clone, Copy)]
pub enum HeadKind {
    /// The head of an update, which may have a status line.
    OfUpdate,
    /// The head of a patch.
    OfPatch,
}

/// What lines say of the head that they begin.
#[derive(Drop)]
pub enum LinesVerdict {
    /// It is not whole yet.
    Open,
    /// It is wrong at this place behind the first line's beginning.
    Wrong(usize, Reason),
    /// It is whole, with these fields and so many bytes.
    Closed(HeadFields, usize),
}

/// The head at the front of the bytes, which begin at this place.
pub fn read_head(
    alloc: Global,
    kind: HeadKind,
    at: u64,
    bytes: &[u8],
) -> Result<Found<HeadFields>, Memory>
    requires room { at + length bytes.now < 2 ^ 64 }
    ensures { IfOk result (λ found. FindsHead found (head_at (judge_of kind) at bytes.now)) }
{
    let window = &bytes[..bytes.len().min(HEAD_LIMIT)];
    let said = read_lines(alloc, kind, window)?;
    Ok(found_head(at, bytes, said))
}

/// What is found where the lines within the limit say so.
fn found_head(at: u64, bytes: &[u8], said: LinesVerdict) -> Found<HeadFields>
    requires room { at + length bytes.now < 2 ^ 64 }
    requires within { IsWithin said (length bytes.now) }
    ensures { (v : Verdict) → IsVerdict said v → FindsHead result (settle at bytes.now v) }
{
    match said {
        LinesVerdict::Open => {
            if bytes.len() < HEAD_LIMIT {
                Found::Part
            } else {
                Found::Bad(at, Reason::HeadTooLong)
            }
        }
        LinesVerdict::Wrong(count, reason) => Found::Bad(at + count as u64, reason),
        LinesVerdict::Closed(fields, count) => Found::Whole(
            fields,
            at + count as u64,
            &bytes[count..],
        ),
    }
}

/// What the lines of a head of this kind say.
fn read_lines(alloc: Global, kind: HeadKind, bytes: &[u8]) -> Result<LinesVerdict, Memory>
    ensures { IfOk result (λ said. IsVerdict said (judge_of kind (lines_of bytes.now))) }
{
    match kind {
        HeadKind::OfUpdate => head_lines(alloc, bytes),
        HeadKind::OfPatch => some_field_lines(alloc, 0, bytes),
    }
}

/// What the lines of an update's head say.
fn head_lines(alloc: Global, bytes: &[u8]) -> Result<LinesVerdict, Memory>
    ensures { IfOk result (λ said. IsVerdict said (head_of (lines_of bytes.now))) }
{
    let Some((line, rest)) = first_line(bytes) else {
        return Ok(LinesVerdict::Open);
    };
    if !is_status(line) {
        return some_field_lines(alloc, 0, bytes);
    }
    if !is_good_status(line) {
        return Ok(LinesVerdict::Wrong(0, Reason::BadStatus));
    }
    some_field_lines(alloc, line.len(), rest)
}

/// What the lines of fields say, of which there has to be one or more, behind so many bytes of the head.
fn some_field_lines(alloc: Global, before: usize, bytes: &[u8]) -> Result<LinesVerdict, Memory>
    requires room { before + length bytes.now < 2 ^ 64 }
    ensures { IfOk result (λ said. IsVerdict said (behind before [] (some_fields_of (lines_of bytes.now)))) }
{
    let Some((line, _)) = first_line(bytes) else {
        return Ok(LinesVerdict::Open);
    };
    if is_empty_line(line) {
        return Ok(LinesVerdict::Wrong(before, Reason::BadLine));
    }
    field_lines(alloc, before, bytes)
}

/// What the lines of fields say, behind so many bytes of the head.
fn field_lines(alloc: Global, before: usize, bytes: &[u8]) -> Result<LinesVerdict, Memory>
    requires room { before + length bytes.now < 2 ^ 64 }
    ensures { IfOk result (λ said. IsVerdict said (behind before [] (fields_of (lines_of bytes.now)))) }
{
    let mut fields = HeadFields::new(alloc);
    let mut count = before;
    let mut rest = bytes;
    while let Some((line, next)) = first_line(rest) {
        if is_empty_line(line) {
            return Ok(LinesVerdict::Closed(fields, count + line.len()));
        }
        let Some((name, value)) = read_field(line) else {
            return Ok(LinesVerdict::Wrong(count, Reason::BadLine));
        };
        fields.add(alloc, name, value)?;
        count += line.len();
        rest = next;
    }
    Ok(LinesVerdict::Open)
}
