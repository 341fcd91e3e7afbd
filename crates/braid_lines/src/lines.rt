//! Lines, made or put at the end of others.

ghost use Rattle.std.specs.Prelude.{◌≡◌, ◌++◌, codes, decimal, IfOk, OnOk, string_bytes};
ghost use Rattle.hex.specs.Hex.{encode_lower};
ghost use Rattle.braid_ids.specs.Identifiers.{spelled_id};
ghost use Rattle.braid_lines.specs.Lines.{line_with, fault_line, stream_name, range_name, full_name, frontier_said, content_lines};

use braid_change::Text;
use braid_frame::FrameFault;
use braid_ids::{Bytes, Frontier, Id, Memory};
use braid_shelf::write_strings;
use braid_text::Which;
use std::alloc::Global;

/// A line of a name and what it is said of.
///
/// Errors: `Memory` where there was none. So it is of each call here.
pub fn line_with(alloc: Global, name: &[u8], said: &[u8]) -> Result<Bytes, Memory>
    ensures ok { IfOk result (λ line. line ≡ line_with name.now said.now) }
{
    let mut line = Bytes::of(alloc, name)?;
    line.push(said)?;
    line.push(b"\n")?;
    Ok(line)
}

/// The line for a fault of this name.
pub fn fault_line(alloc: Global, name: &[u8]) -> Result<Bytes, Memory>
    ensures ok { IfOk result (λ line. line ≡ fault_line name.now) }
{
    line_with(alloc, b"fault: ", name)
}

/// The line for a fault whose name ends with a number.
pub fn numbered_line(alloc: Global, name: &[u8], n: u64) -> Result<Bytes, Memory>
    ensures ok { IfOk result (λ line. line ≡ fault_line (name.now ++ decimal n)) }
{
    let mut line = Bytes::of(alloc, b"fault: ")?;
    line.push(name)?;
    line.push_number(n)?;
    line.push(b"\n")?;
    Ok(line)
}

/// The line for a fault whose name ends with an identifier, as a String.
pub fn id_line(alloc: Global, name: &[u8], id: &Id) -> Result<Bytes, Memory>
    ensures ok { IfOk result (λ line. line ≡ fault_line (name.now ++ spelled_id id.now)) }
{
    let mut line = Bytes::of(alloc, b"fault: ")?;
    line.push(name)?;
    line.push(id.spell(alloc)?.get())?;
    line.push(b"\n")?;
    Ok(line)
}

/// The line for a fault of a stream.
pub fn stream_line(alloc: Global, fault: &FrameFault) -> Result<Bytes, Memory>
    ensures ok { IfOk result (λ line. line ≡ fault_line (stream_name fault.now)) }
{
    let mut line = Bytes::of(alloc, b"fault: ")?;
    line.push(fault.reason.name().as_bytes())?;
    line.push(b" at ")?;
    line.push_number(fault.at)?;
    line.push(b"\n")?;
    Ok(line)
}

/// The line for a patch, counted from 0, that ends past a text of `len` characters.
pub fn range_line(alloc: Global, patch: u32, len: u32) -> Result<Bytes, Memory>
    ensures ok { IfOk result (λ line. line ≡ fault_line (range_name patch len)) }
{
    let mut line = Bytes::of(alloc, b"fault: OutOfRange patch ")?;
    line.push_number(patch as u64)?;
    line.push(b" len ")?;
    line.push_number(len as u64)?;
    line.push(b"\n")?;
    Ok(line)
}

/// The line for a limit that would be passed.
pub fn full_line(alloc: Global, which: Which, limit: u64) -> Result<Bytes, Memory>
    ensures ok { IfOk result (λ line. line ≡ fault_line (full_name which limit)) }
{
    let mut line = Bytes::of(alloc, b"fault: Full ")?;
    line.push(which.name().as_bytes())?;
    line.push(b" ")?;
    line.push_number(limit)?;
    line.push(b"\n")?;
    Ok(line)
}

/// Puts a line of a name and what it is said of at the end.
pub fn push_line(text: &mut Bytes, name: &[u8], said: &[u8]) -> Result<(), Memory>
    ensures ok { OnOk result (text.new ≡ text.old ++ line_with name.now said.now) }
{
    text.push(name)?;
    text.push(said)?;
    text.push(b"\n")
}

/// Puts a line with a number at the end.
pub fn push_count(text: &mut Bytes, name: &[u8], n: u64) -> Result<(), Memory>
    ensures ok { OnOk result (text.new ≡ text.old ++ line_with name.now (decimal n)) }
{
    text.push(name)?;
    text.push_number(n)?;
    text.push(b"\n")
}

/// Puts the line of a frontier at the end.
pub fn push_frontier(alloc: Global, text: &mut Bytes, frontier: &Frontier) -> Result<(), Memory>
    ensures ok { OnOk result (text.new ≡ text.old ++ line_with (codes "frontier:") (frontier_said frontier.now)) }
{
    text.push(b"frontier:")?;
    if frontier.len() != 0 {
        text.push(b" ")?;
        text.push(write_strings(alloc, frontier)?.get())?;
    }
    text.push(b"\n")
}

/// Puts the line of a digest, in hexadecimal digits, at the end.
pub fn push_digest(alloc: Global, text: &mut Bytes, digest: &[u8; 32]) -> Result<(), Memory>
    ensures ok { OnOk result (text.new ≡ text.old ++ line_with (codes "digest: ") (encode_lower digest.now)) }
{
    let digits = hex::encode(alloc, *digest)?;
    push_line(text, b"digest: ", digits.as_bytes())
}

/// Puts the lines on what is read at the end: a text's length, the digest, and the text itself.
pub fn push_content(
    alloc: Global,
    out: &mut Bytes,
    text: &Text,
    digest: &[u8; 32],
) -> Result<(), Memory>
    ensures ok { OnOk result (out.new ≡ out.old ++ content_lines text.now digest.now) }
{
    push_count(out, b"length: ", text.chars().len() as u64)?;
    push_digest(alloc, out, digest)?;
    out.push(b"text:\n")?;
    text.push_to(out)?;
    out.push(b"\n")
}
