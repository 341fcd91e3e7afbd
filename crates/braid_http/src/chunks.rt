//! Chunked bodies, decoded as their bytes come.

ghost use Rattle.std.specs.Prelude.{◌≡◌, ◌<◌, ◌++◌, [], List, ℕ, MatchOption, length};
ghost use Rattle.httparse.specs.Grammar.{ChunkLine, ReadsChunkLine};
ghost use Rattle.braid_ids.specs.Lists.{Lacks};
ghost use Rattle.braid_http.specs.Chunks.{IsCut, Announces};
ghost use Rattle.braid_http.specs.Looks.{IsLooked};
ghost use Rattle.braid_http.specs.Steps.{IsAtLine, IsInData, IsInTrailer, IsPlace, Leaves, Steps};

use crate::framing::MOST_BYTES;
use crate::looks::Look;
use crate::refusal::Refusal;
use braid_ids::{Bytes, split_at_byte};
use httparse::{Status, parse_chunk_size};

/// The most bytes of a chunk line.
pub const MOST_LINE: usize = 256;

/// The most bytes of a trailer.
pub const MOST_TRAILER: usize = 16_384;

/// Where the decoding of a chunked body stands.
#[derive(Clone, Copy, Debug)]
pub enum Place {
    /// At a chunk's line.
    Line,
    /// In the data of a chunk, of which so many bytes have not come, or behind it.
    Data(u64),
    /// In the trailer, which was looked at so far.
    Trailer(Look),
}

/// What the next bytes of a chunked body do.
#[derive(Clone, Copy, Debug)]
pub enum Fed {
    /// So many of them were used, and the decoding stands there.
    Passed(usize, Place),
    /// They decide nothing.
    Open(Place),
    /// The body is whole, with so many of them.
    Done(usize),
    /// They are no chunked body.
    Refused(Refusal),
    /// There was no memory for the data.
    Memory,
}

/// Decodes the next bytes from a place on, and puts data at the end of `out`.
pub fn step(place: Place, bytes: &[u8], out: &mut Bytes) -> Fed
    requires place { IsPlace place bytes.now }
    ensures steps { Steps place result bytes.now out.old out.new }
{
    match place {
        Place::Line => at_line(bytes, out.get().len()),
        Place::Data(0) => behind_data(bytes),
        Place::Data(left) => in_data(left, bytes, out),
        Place::Trailer(look) => in_trailer(look, bytes),
    }
}

/// The bytes of a chunk line, whole or too long.
fn cut_line(bytes: &[u8]) -> Option<&[u8]>
    ensures cut { MatchOption result (Lacks 10 bytes.now × (length bytes.now < 256))
        (λ line. (rest : List ℕ) × IsCut line.now × (bytes.now ≡ line.now ++ rest)) }
{
    let front = &bytes[..bytes.len().min(MOST_LINE)];
    match split_at_byte(b'\n', front) {
        Some((content, _)) => Some(&bytes[..content.len() + 1]),
        None => {
            if front.len() < MOST_LINE {
                None
            } else {
                Some(front)
            }
        }
    }
}

/// The number of bytes that a chunk line announces.
pub fn size_of_line(line: &[u8]) -> Option<u64>
    requires cut { IsCut line.now }
    ensures size { MatchOption result ((l : ChunkLine) → ¬ (ReadsChunkLine line.now l [])) (λ n. Announces line.now n) }
{
    match parse_chunk_size(line) {
        Ok(Status::Complete((len, size))) => { if len == line.len() { Some(size) } else { None } }
        _ => None,
    }
}

/// At a chunk's line, behind `total` bytes of data.
fn at_line(bytes: &[u8], total: usize) -> Fed
    ensures steps { (passed out : List ℕ) → length out ≡ total → IsAtLine passed out
        → Leaves result passed bytes.now out out }
{
    let Some(line) = cut_line(bytes) else {
        return Fed::Open(Place::Line);
    };
    let Some(size) = size_of_line(line) else {
        return Fed::Refused(Refusal::BadChunk);
    };
    if size == 0 {
        return Fed::Passed(line.len(), Place::Trailer(Look::new()));
    }
    if size > MOST_BYTES.saturating_sub(total as u64) {
        return Fed::Refused(Refusal::TooLong);
    }
    Fed::Passed(line.len(), Place::Data(size))
}

/// In data of which so many bytes have not come.
fn in_data(left: u64, bytes: &[u8], out: &mut Bytes) -> Fed
    requires some { 0 < left }
    ensures steps { (passed : List ℕ) → IsInData left passed out.old → Leaves result passed bytes.now out.old out.new }
{
    let n = bytes.len().min(left as usize);
    if n == 0 {
        return Fed::Open(Place::Data(left));
    }
    match out.push(&bytes[..n]) {
        Ok(()) => Fed::Passed(n, Place::Data(left - n as u64)),
        Err(_) => Fed::Memory,
    }
}

/// Behind data.
fn behind_data(bytes: &[u8]) -> Fed
    ensures steps { (passed out : List ℕ) → IsInData 0 passed out → Leaves result passed bytes.now out out }
{
    if bytes.is_empty() {
        return Fed::Open(Place::Data(0));
    }
    if bytes[0] != b'\r' {
        return Fed::Refused(Refusal::BadChunk);
    }
    if bytes.len() == 1 {
        return Fed::Open(Place::Data(0));
    }
    if bytes[1] != b'\n' {
        return Fed::Refused(Refusal::BadChunk);
    }
    Fed::Passed(2, Place::Line)
}

/// In a trailer that was looked at so far.
fn in_trailer(look: Look, bytes: &[u8]) -> Fed
    requires looked { IsLooked look bytes.now }
    ensures steps { (passed out : List ℕ) → IsInTrailer passed out → Leaves result passed bytes.now out out }
{
    let mut look = look;
    match look.find(bytes) {
        Some(end) if end <= MOST_TRAILER => Fed::Done(end),
        None if bytes.len() < MOST_TRAILER => Fed::Open(Place::Trailer(look)),
        _ => Fed::Refused(Refusal::BadChunk),
    }
}
