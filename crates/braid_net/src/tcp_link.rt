ghost use Rattle.std.specs.Prelude.{◌≡◌};

use braid_io::{Link, Read, Sink, Source, Wrote};
use std::io::{Read as _, Write as _};
use std::net::TcpStream;

/// A connection.
///
/// It tells its counts of faults and no contents. Each error of a read or a write is a fault, and so is a write that
/// takes nothing. The counts stay at 2^64 - 1 once they are there. Dropping it ends the connection.
#[derive(Drop)]
pub struct TcpLink {
    stream: TcpStream,
    read_faults: u64,
    write_faults: u64,
}

impl TcpLink {
    /// The link of a connection, which sends each write at once and does not wait for more to send with it.
    pub(crate) fn new(stream: TcpStream) -> TcpLink
        ensures new { (result.read_faults ≡ 0) × (result.write_faults ≡ 0) }
    {
        // Small writes wait where this is refused; they are sent all the same.
        let _ = stream.set_nodelay(true);
        TcpLink {
            stream,
            read_faults: 0,
            write_faults: 0,
        }
    }

    /// The number of reads that failed, or 2^64 - 1 where there were more.
    pub fn read_faults(&self) -> u64
        ensures value { result ≡ self.now.read_faults }
    {
        self.read_faults
    }

    /// The number of writes that failed, or 2^64 - 1 where there were more.
    pub fn write_faults(&self) -> u64
        ensures value { result ≡ self.now.write_faults }
    {
        self.write_faults
    }
}

impl Source for TcpLink {
    ghost use Rattle.braid_net.specs.Told.{untold_intake, untold_outflow};

    ghost intake = { λ a. untold_intake a.read_faults };

    ghost beside_reads = { λ a. untold_outflow a.write_faults };

    fn read(&mut self, buf: &mut [u8]) -> Read {
        match self.stream.read(buf) {
            Ok(0) => Read::End,
            Ok(n) => Read::Got(n),
            Err(_) => {
                self.read_faults = self.read_faults.saturating_add(1);
                Read::Failed
            }
        }
    }
}

impl Sink for TcpLink {
    ghost use Rattle.braid_net.specs.Told.{untold_intake, untold_outflow};

    ghost outflow = { λ a. untold_outflow a.write_faults };

    ghost beside_writes = { λ a. untold_intake a.read_faults };

    fn write(&mut self, piece: &[u8]) -> Wrote {
        match self.stream.write(piece) {
            Ok(0) | Err(_) => {
                self.write_faults = self.write_faults.saturating_add(1);
                Wrote::Failed
            }
            Ok(n) => Wrote::Took(n),
        }
    }
}

impl Link for TcpLink {
    ghost use Rattle.std.specs.Prelude.{refl};

    ghost reads_keep = { λ x. refl };

    ghost writes_keep = { λ x. refl };
}
