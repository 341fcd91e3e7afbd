ghost use Rattle.std.specs.Prelude.{◌≡◌, ℕ, List, []};
ghost use Rattle.braid_change.specs.Updates.{UpdateView};

use crate::next::Next;
use crate::reading::Reading;
use braid_io::Source;
use std::alloc::Global;
use std::marker::Model;

/// Reads the updates of one stream from a source that it is handed at each call.
///
/// It holds at most 8,192 bytes that were read and not yet fed, and what its framer keeps. Contracts see it as what it
/// keeps between its answers.
#[derive(Drop)]
pub struct UpdateReader {
    reading: Reading,
}

impl Model for UpdateReader {
    ghost use Rattle.braid_stream.specs.declared.reading.Reading.{Reading};
    ghost use Rattle.braid_stream.specs.Readers.{IsReadable};

    ghost Value = { Reading };

    ghost view = { λ reader. reader.reading };

    ghost invariant = { λ reader. IsReadable reader.reading };
}

impl UpdateReader {
    ghost use Rattle.braid_stream.specs.declared.next.Next.{Next as Answer};
    ghost use Rattle.braid_stream.specs.Readers.{HasTaken, GoesOn, HasEnded, IsReadable, HaveAnswer, Answers};

    /// A reader that has read nothing. It takes no memory.
    pub fn new(alloc: Global) -> UpdateReader
        ensures none { HasTaken [] result [] }
        ensures going { GoesOn result }
    {
        UpdateReader {
            reading: Reading::new(alloc),
        }
    }

    /// The next update of the stream, or why there is none, by all bytes that the reader has taken.
    ///
    /// Where the bytes taken before this call hold one more update, or the fault of the stream, it leaves `source` alone.
    /// Else it may read from it, and never past the limit of 1,099,511,627,776 bytes taken in all. `source` is the same
    /// at each call, or one that goes on with its bytes.
    ///
    /// After `Update` and `ReadFault` a further call goes on. After any other answer it gives that answer for good, and
    /// leaves itself and `source` alone.
    pub fn next<S: Source>(&mut self, source: &mut S) -> Next
        ensures readable { IsReadable self.old }
        ensures answers { (us : List UpdateView) (bytes : List ℕ) → GoesOn self.old → HasTaken us self.old bytes
            → Answers us bytes result self.new (S.intake source.old) (S.intake source.new) }
        ensures at_hand { (us : List UpdateView) (bytes : List ℕ) → GoesOn self.old → HasTaken us self.old bytes
            → HaveAnswer us bytes → source.new ≡ source.old }
        ensures again { (next : Answer) → HasEnded self.old next
            → (result ≡ next) × (self.new ≡ self.old) × (source.new ≡ source.old) }
        ensures kept { S.beside_reads source.new ≡ S.beside_reads source.old }
    {
        self.reading.next(source)
    }
}
