//! The lines of a drill.

ghost use Rattle.std.specs.Prelude.{◌≡◌, IfOk};
ghost use Rattle.braid_drill.specs.Lines.{summary_text};

use braid_ids::{Bytes, Memory};
use braid_lines::{push_count, push_digest};
use std::alloc::Global;

/// What has become of a drill.
#[derive(Drop)]
pub struct Summary {
    /// How many versions the book has.
    pub versions: u64,
    /// How many updates of the replicas are unsent.
    pub unsent: u64,
    /// How many replicas have the book's digest.
    pub equal: u32,
    /// The book's digest.
    pub digest: [u8; 32],
}

/// The lines of a drill of so many rounds.
pub(crate) fn summary_text(alloc: Global, rounds: u32, summary: &Summary) -> Result<Bytes, Memory>
    ensures ok { IfOk result (λ text. text ≡ summary_text rounds summary.now) }
{
    let mut text = Bytes::of(alloc, b"")?;
    push_count(&mut text, b"rounds: ", rounds as u64)?;
    push_count(&mut text, b"versions: ", summary.versions)?;
    push_count(&mut text, b"unsent: ", summary.unsent)?;
    push_count(&mut text, b"equal: ", summary.equal as u64)?;
    push_digest(alloc, &mut text, &summary.digest)?;
    Ok(text)
}
