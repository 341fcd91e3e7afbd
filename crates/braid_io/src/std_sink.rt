ghost use Rattle.std.specs.Prelude.{◌≡◌, ◌<◌, length};
ghost use Rattle.braid_io.specs.Outside.{Writes, no_outflow};
ghost use Rattle.braid_io.specs.Adapters.{WriterTakes, std_outflow, std_writer};

use crate::sink::{Sink, Wrote};
use std::io;

/// A sink over a writer of std: a file, a socket, the standard output.
///
/// It tells its count of faults and no contents. Each error of the writer is a fault, one of the kind `Interrupted`
/// too, and so is a write that takes nothing; a later write asks the writer again. It never flushes: a writer with a
/// buffer of its own may hold bytes that were taken. The count stays at 2^64 - 1 once it is there.
#[derive(Drop)]
pub struct StdSink<W: io::Write + Drop> {
    to: W,
    faults: u64,
}

impl<W: io::Write + Drop> StdSink<W> {
    /// A sink that writes to `to`, with no fault so far.
    pub fn new(to: W) -> StdSink<W>
        ensures told { std_outflow result ≡ no_outflow }
        ensures writer { std_writer result ≡ to }
    {
        StdSink { to, faults: 0 }
    }

    /// The number of writes that failed, or 2^64 - 1 where there were more.
    pub fn faults(&self) -> u64
        ensures value { result ≡ (std_outflow self.now).faults }
    {
        self.faults
    }
}

impl<W: io::Write + Drop> Sink for StdSink<W> {
    ghost outflow = { std_outflow };

    fn write(&mut self, piece: &[u8]) -> Wrote
        requires some { 0 < length piece.now }
        ensures write { Writes result piece.now (std_outflow self.old) (std_outflow self.new) }
        ensures writer { WriterTakes result piece.now
            (W.contents (std_writer self.old)) (W.contents (std_writer self.new)) }
    {
        match self.to.write(piece) {
            Ok(0) | Err(_) => {
                self.faults = self.faults.saturating_add(1);
                Wrote::Failed
            }
            Ok(n) => Wrote::Took(n),
        }
    }
}
