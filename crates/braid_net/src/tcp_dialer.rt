ghost use Rattle.std.specs.Prelude.{◌≡◌};

use crate::tcp_link::TcpLink;
use braid_ids::Bytes;
use braid_io::{Dialed, Dialer};
use std::alloc::Global;
use std::io;
use std::marker::Send;
use std::net::{Net, TcpStream};

/// A dialer over the system's sockets.
///
/// It tells its counts of faults. An address that is no text, a host that is not found and a server that is not reached
/// are faults. Hanging up ends the connection. The counts stay at 2^64 - 1 once they are there.
#[derive(Drop)]
pub struct TcpDialer<R> {
    rt: R,
    faults: u64,
    link_read_faults: u64,
    link_write_faults: u64,
}

impl<R: Net<Stream = TcpStream> + Drop> TcpDialer<R> {
    /// A dialer with no fault so far.
    pub fn new(rt: R) -> TcpDialer<R>
        ensures new { (result.faults ≡ 0) × (result.link_read_faults ≡ 0) × (result.link_write_faults ≡ 0) }
    {
        TcpDialer {
            rt,
            faults: 0,
            link_read_faults: 0,
            link_write_faults: 0,
        }
    }
}

impl<R: Net<Stream = TcpStream> + Send + Drop> Dialer for TcpDialer<R> {
    type Link = TcpLink;

    ghost use Rattle.braid_net.specs.Told.{untold_dialing};

    ghost dialing = { λ a. untold_dialing a.faults a.link_read_faults a.link_write_faults };

    fn dial(&mut self, _alloc: Global, server: &Bytes) -> Dialed<TcpLink> {
        match connect(&self.rt, server.get()) {
            Ok(stream) => Dialed::Up(TcpLink::new(stream)),
            Err(_) => {
                self.faults = self.faults.saturating_add(1);
                Dialed::Failed
            }
        }
    }

    fn hang_up(&mut self, link: TcpLink) {
        self.link_read_faults = self.link_read_faults.saturating_add(link.read_faults());
        self.link_write_faults = self.link_write_faults.saturating_add(link.write_faults());
    }
}

/// A connection to a server.
fn connect<R: Net<Stream = TcpStream>>(rt: &R, server: &[u8]) -> io::Result<TcpStream> {
    match str::from_utf8(server) {
        Ok(server) => TcpStream::connect(rt, server),
        Err(_) => Err(io::Error::from(io::ErrorKind::InvalidInput)),
    }
}
