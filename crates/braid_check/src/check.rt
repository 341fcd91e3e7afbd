ghost use Rattle.std.specs.Prelude.{◌≡◌};
ghost use Rattle.braid_check.specs.Runs.{CheckRuns, Runs, Succeeds};

use crate::reading::read_history;
use crate::report::report;
use braid_ids::Word;
use braid_io::{Sink, Source, Status};
use braid_lines::{print, refuse_words};
use std::alloc::Global;

/// Carries out `check`, where that is the one word: takes the updates of a stream from `source` into one resource with
/// the limits of a replica, and writes to `out` what it holds then, or one line that says what is wrong. An update that
/// is known is passed over. docs/FORMATS.md lists the lines; identifiers are Strings of a header list (RFC 8941), the
/// digest is SHA-256 (FIPS 180-4). For other words it writes `fault: Usage`, and leaves the source alone.
///
/// It reads to the end of the source, to the first fault of the stream, to the first update that is refused, to a read
/// that fails, or until 1,099,511,627,776 bytes have come: by reads of at most 8,192 bytes. The limits of a replica are
/// 524,288 versions, 33,554,432 elements, 67,108,864 deletion marks and 2,000 identifiers in the frontier.
///
/// The status: Done where the lines of a history were written; Bad for a fault of the stream, for bytes that end within
/// a line, a head or a content, or before a patch, and for an update that is refused; Usage for other words; Cut where
/// too many bytes came; Outside where a read failed, and then `fault: ReadFault` was written, or where a write failed,
/// and then a front of the text was; Memory where there was none, and then nothing was written.
pub fn check_run<S: Source, O: Sink>(
    alloc: Global,
    words: &[Word],
    source: &mut S,
    out: &mut O,
) -> Status
    ensures runs { Runs words.now result (S.intake source.old) (S.intake source.new) (O.outflow out.old)
        (O.outflow out.new) }
    ensures completes { Succeeds words.now result (S.intake source.old) (S.intake source.new) (O.outflow out.old)
        (O.outflow out.new) }
    ensures kept { (S.beside_reads source.new ≡ S.beside_reads source.old)
        × (O.beside_writes out.new ≡ O.beside_writes out.old) }
{
    match words {
        [word] if word.get() == b"check".as_slice() => check_stream(alloc, source, out),
        _ => refuse_words(out),
    }
}

/// Reads a stream from the source, and writes its report.
fn check_stream<S: Source, O: Sink>(alloc: Global, source: &mut S, out: &mut O) -> Status
    ensures runs { CheckRuns result (S.intake source.old) (S.intake source.new) (O.outflow out.old)
        (O.outflow out.new) }
    ensures kept { (S.beside_reads source.new ≡ S.beside_reads source.old)
        × (O.beside_writes out.new ≡ O.beside_writes out.old) }
{
    let Ok((resource, stop)) = read_history(alloc, source) else {
        return Status::Memory;
    };
    let Ok(text) = report(alloc, &resource, &stop) else {
        return Status::Memory;
    };
    print(out, text.get(), stop.status())
}
