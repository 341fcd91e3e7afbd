ghost use Rattle.std.specs.Prelude.{◌≡◌};

use crate::tcp_link::TcpLink;
use braid_io::{Came, Door};
use std::alloc::Global;
use std::io;
use std::net::{SocketAddr, TcpListener};
use std::sync::Arc;
use std::sync::atomic::{AtomicU32, Ordering};

/// One of the doors of an opening. All of them listen at one address.
///
/// It takes one of the shared claims before it waits for a connection, and ends where none is left, so it never waits
/// for a connection that it may not take. An accept that failed gives its claim back.
///
/// It tells its counts of faults, which stay at 2^64 - 1 once they are there. A link that is put back ends its
/// connection.
#[derive(Drop)]
pub struct TcpDoor {
    listener: TcpListener,
    claims: Arc<AtomicU32, Global>,
    faults: u64,
    link_read_faults: u64,
    link_write_faults: u64,
}

impl TcpDoor {
    /// A door of a listener, with no fault so far.
    pub(crate) fn new(listener: TcpListener, claims: Arc<AtomicU32, Global>) -> TcpDoor
        ensures new { (result.faults ≡ 0) × (result.link_read_faults ≡ 0) × (result.link_write_faults ≡ 0) }
    {
        TcpDoor {
            listener,
            claims,
            faults: 0,
            link_read_faults: 0,
            link_write_faults: 0,
        }
    }

    /// The address that it listens at, with the port that the system gave.
    pub fn address(&self) -> io::Result<SocketAddr> {
        self.listener.local_addr()
    }

    /// Takes a claim, where one is left. Whether one was.
    fn claim(&self) -> bool {
        let (success, failure) = (Ordering::SeqCst, Ordering::SeqCst);
        match self
            .claims
            .fetch_update(success, failure, |n| n.checked_sub(1))
        {
            Ok(_) => true,
            Err(_) => false,
        }
    }
}

impl Door for TcpDoor {
    type Link = TcpLink;

    ghost use Rattle.braid_net.specs.Told.{untold_doorway};

    ghost doorway = { λ a. untold_doorway a.faults a.link_read_faults a.link_write_faults };

    fn accept(&mut self) -> Came<TcpLink> {
        if !self.claim() {
            return Came::End;
        }
        match self.listener.accept() {
            Ok((stream, _peer)) => Came::Up(TcpLink::new(stream)),
            Err(_) => {
                self.claims.fetch_add(1, Ordering::SeqCst);
                self.faults = self.faults.saturating_add(1);
                Came::Failed
            }
        }
    }

    fn put_back(&mut self, link: TcpLink) {
        self.link_read_faults = self.link_read_faults.saturating_add(link.read_faults());
        self.link_write_faults = self.link_write_faults.saturating_add(link.write_faults());
    }
}
