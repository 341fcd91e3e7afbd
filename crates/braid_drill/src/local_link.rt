ghost use Rattle.std.specs.Prelude.{◌≡◌};

use crate::exchange::Exchange;
use braid_io::{Link, Read, Sink, Source, Wrote};
use std::sync::Wait;

/// A link in memory to a server in the same program.
///
/// It tells its counts of faults and no contents. A call fails for want of memory, and a write also where the link has
/// no more room. The counts stay at 2^64 - 1 once they are there.
#[derive(Drop)]
pub struct LocalLink<'a, R> {
    exchange: Exchange<'a, R>,
    read_faults: u64,
    write_faults: u64,
    lacks_memory: bool,
}

impl<'a, R> LocalLink<'a, R> {
    /// A new link.
    pub fn new(exchange: Exchange<'a, R>) -> LocalLink<'a, R>
        ensures new { (result.read_faults ≡ 0) × (result.write_faults ≡ 0) }
    {
        LocalLink {
            exchange,
            read_faults: 0,
            write_faults: 0,
            lacks_memory: false,
        }
    }

    /// The number of reads that failed, or 2^64 - 1 where there were more.
    pub fn read_faults(&self) -> u64
        ensures value { result ≡ self.now.read_faults }
    {
        self.read_faults
    }

    /// The number of writes that failed, or 2^64 - 1 where there were more.
    pub fn write_faults(&self) -> u64
        ensures value { result ≡ self.now.write_faults }
    {
        self.write_faults
    }

    /// Whether a call failed for want of memory.
    pub fn lacks_memory(&self) -> bool {
        self.lacks_memory
    }

    /// What is between its ends.
    pub fn into_exchange(self) -> Exchange<'a, R> {
        self.exchange
    }
}

impl<'a, R: Wait> Source for LocalLink<'a, R> {
    ghost use Rattle.braid_drill.specs.Told.{untold_intake, untold_outflow};

    ghost intake = { λ a. untold_intake a.read_faults };

    ghost beside_reads = { λ a. untold_outflow a.write_faults };

    fn read(&mut self, buf: &mut [u8]) -> Read {
        match self.exchange.give(buf) {
            Ok(0) => Read::End,
            Ok(n) => Read::Got(n),
            Err(_) => {
                self.lacks_memory = true;
                self.read_faults = self.read_faults.saturating_add(1);
                Read::Failed
            }
        }
    }
}

impl<'a, R: Wait> Sink for LocalLink<'a, R> {
    ghost use Rattle.braid_drill.specs.Told.{untold_intake, untold_outflow};

    ghost outflow = { λ a. untold_outflow a.write_faults };

    ghost beside_writes = { λ a. untold_intake a.read_faults };

    fn write(&mut self, piece: &[u8]) -> Wrote {
        match self.exchange.take(piece) {
            Ok(n) if n > 0 => return Wrote::Took(n),
            Ok(_) => {}
            Err(_) => self.lacks_memory = true,
        }
        self.write_faults = self.write_faults.saturating_add(1);
        Wrote::Failed
    }
}

impl<'a, R: Wait> Link for LocalLink<'a, R> {
    ghost use Rattle.std.specs.Prelude.{refl};

    ghost reads_keep = { λ x. refl };

    ghost writes_keep = { λ x. refl };
}
