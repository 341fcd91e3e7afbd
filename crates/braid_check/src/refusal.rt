//! The line for an update that was refused.

ghost use Rattle.std.specs.Prelude.{◌≡◌, IfOk};
ghost use Rattle.braid_check.specs.CheckTexts.{refusal_text};

use braid_ids::{Bytes, Memory};
use braid_lines::{full_line, id_line, range_line};
use braid_text::{Accept, REPLICA_LIMITS};
use std::alloc::Global;

/// The line for an update that was refused.
pub fn refusal_report(alloc: Global, answer: &Accept) -> Result<Bytes, Memory>
    ensures ok { IfOk result (λ text. text ≡ refusal_text answer.now) }
{
    match answer {
        Accept::Clash { id } => id_line(alloc, b"Clash ", id),
        Accept::UnknownParent { id } => id_line(alloc, b"UnknownParent ", id),
        Accept::OutOfRange { patch, len } => range_line(alloc, *patch, *len),
        Accept::Full { which, .. } => full_line(alloc, *which, REPLICA_LIMITS.of(*which)),
        Accept::New | Accept::Known | Accept::Memory => Bytes::of(alloc, b""),
    }
}
