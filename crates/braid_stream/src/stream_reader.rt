ghost use Rattle.std.specs.Prelude.{◌≡◌, ℕ, List, []};
ghost use Rattle.braid_change.specs.Updates.{UpdateView};

use crate::next::Next;
use crate::update_reader::UpdateReader;
use braid_io::Source;
use std::alloc::Global;

/// Reads the updates of one stream from a source of its own.
#[derive(Drop)]
pub struct StreamReader<S: Source> {
    source: S,
    reader: UpdateReader,
}

impl<S: Source> StreamReader<S> {
    ghost use Rattle.braid_stream.specs.declared.next.Next.{Next as Answer};
    ghost use Rattle.braid_stream.specs.Readers.{HasTaken, GoesOn, HasEnded, IsReadable, HaveAnswer, Answers};
    ghost use Rattle.braid_stream.specs.Owned.{source_of, reader_of};

    /// A reader of this source that has read nothing. It takes no memory.
    pub fn new(alloc: Global, source: S) -> StreamReader<S>
        ensures source { source_of result ≡ source }
        ensures none { HasTaken [] (reader_of result) [] }
        ensures going { GoesOn (reader_of result) }
    {
        StreamReader {
            source,
            reader: UpdateReader::new(alloc),
        }
    }

    /// The next update of the stream, or why there is none, by all bytes that the reader has taken.
    ///
    /// Where the bytes taken before this call hold one more update, or the fault of the stream, it leaves its source
    /// alone. Else it may read from it, and never past the limit of 1,099,511,627,776 bytes taken in all.
    ///
    /// After `Update` and `ReadFault` a further call goes on. After any other answer it gives that answer for good, and
    /// leaves itself and its source alone.
    pub fn next(&mut self) -> Next
        ensures readable { IsReadable (reader_of self.old) }
        ensures answers { (us : List UpdateView) (bytes : List ℕ) → GoesOn (reader_of self.old)
            → HasTaken us (reader_of self.old) bytes
            → Answers us bytes result (reader_of self.new) (S.intake (source_of self.old))
            (S.intake (source_of self.new)) }
        ensures at_hand { (us : List UpdateView) (bytes : List ℕ) → GoesOn (reader_of self.old)
            → HasTaken us (reader_of self.old) bytes
            → HaveAnswer us bytes → source_of self.new ≡ source_of self.old }
        ensures again { (next : Answer) → HasEnded (reader_of self.old) next → (result ≡ next) × (self.new ≡ self.old) }
        ensures kept { S.beside_reads (source_of self.new) ≡ S.beside_reads (source_of self.old) }
    {
        self.reader.next(&mut self.source)
    }

    /// The source. It takes no memory.
    pub fn source(&self) -> &S
        ensures value { result.now ≡ source_of self.now }
    {
        &self.source
    }

    /// The source, given back. Bytes that were read and not yet fed are lost. It takes no memory.
    pub fn into_source(self) -> S
        ensures value { result ≡ source_of self }
    {
        self.source
    }
}
