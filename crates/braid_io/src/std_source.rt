ghost use Rattle.std.specs.Prelude.{◌≡◌, ◌<◌, length};
ghost use Rattle.braid_io.specs.Outside.{Reads, no_intake};
ghost use Rattle.braid_io.specs.Adapters.{ReaderGives, std_intake, std_reader};

use crate::source::{Read, Source};
use std::io;

/// A source over a reader of std: a file, a socket, the standard input.
///
/// It tells its count of faults and no contents. Each error of the reader is a fault, one of the kind `Interrupted`
/// too; a later read asks the reader again. The count stays at 2^64 - 1 once it is there.
#[derive(Drop)]
pub struct StdSource<R: io::Read + Drop> {
    from: R,
    faults: u64,
}

impl<R: io::Read + Drop> StdSource<R> {
    /// A source that reads from `from`, with no fault so far.
    pub fn new(from: R) -> StdSource<R>
        ensures told { std_intake result ≡ no_intake }
        ensures reader { std_reader result ≡ from }
    {
        StdSource { from, faults: 0 }
    }

    /// The number of reads that failed, or 2^64 - 1 where there were more.
    pub fn faults(&self) -> u64
        ensures value { result ≡ (std_intake self.now).faults }
    {
        self.faults
    }
}

impl<R: io::Read + Drop> Source for StdSource<R> {
    ghost intake = { std_intake };

    fn read(&mut self, buf: &mut [u8]) -> Read
        requires some { 0 < length buf.old }
        ensures read { Reads result buf.new (std_intake self.old) (std_intake self.new) }
        ensures reader { ReaderGives result buf.new
            (R.remaining (std_reader self.old)) (R.remaining (std_reader self.new)) }
    {
        match self.from.read(buf) {
            Ok(0) => Read::End,
            Ok(n) => Read::Got(n),
            Err(_) => {
                self.faults = self.faults.saturating_add(1);
                Read::Failed
            }
        }
    }
}
