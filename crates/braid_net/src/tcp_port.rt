ghost use Rattle.std.specs.Prelude.{◌≡◌, All, IfOk, length};
ghost use Rattle.braid_io.specs.Doors.{IsNewPair};
ghost use Rattle.braid_net.specs.Told.{untold_doorway, untold_ringing};

use crate::ring_bell::RingBell;
use crate::tcp_door::TcpDoor;
use braid_ids::Bytes;
use braid_io::{Opened, Port};
use std::alloc::Global;
use std::io;
use std::marker::Send;
use std::net::{Net, TcpListener, TcpStream};
use std::sync::atomic::AtomicU32;
use std::sync::{Arc, Wait};
use std::time::Clock;

/// A port over the system's sockets: each door of an opening has a clone of one listener.
///
/// It tells its count of faults, which stays at 2^64 - 1 once it is there. An address that is no text, and one that is
/// taken, are faults.
#[derive(Drop)]
pub struct TcpPort<R> {
    rt: R,
    faults: u64,
}

impl<R: Net<Listener = TcpListener, Stream = TcpStream> + Drop> TcpPort<R> {
    /// A port with no fault so far.
    pub fn new(rt: R) -> TcpPort<R>
        ensures new { result.faults ≡ 0 }
    {
        TcpPort { rt, faults: 0 }
    }
}

impl<R: Net<Listener = TcpListener, Stream = TcpStream> + Wait + Clock + Copy + Send> Port
    for TcpPort<R> {
    type Door = TcpDoor;

    type Bell = RingBell<R>;

    ghost use Rattle.braid_net.specs.Told.{untold_porting};

    ghost porting = { λ a. untold_porting a.faults };

    fn open(
        &mut self,
        alloc: Global,
        server: &Bytes,
        workers: u32,
        take: u32,
    ) -> Opened<TcpDoor, RingBell<R>> {
        match pairs_at(&self.rt, alloc, server.get(), workers, take) {
            Ok(pairs) => Opened::Up(pairs),
            Err(error) if error.kind() == io::ErrorKind::OutOfMemory => Opened::Memory,
            Err(_) => {
                self.faults = self.faults.saturating_add(1);
                Opened::Failed
            }
        }
    }
}

/// A door and a bell for each worker, over clones of one listener at the address.
fn pairs_at<R: Net<Listener = TcpListener, Stream = TcpStream> + Wait + Clock + Copy>(
    rt: &R,
    alloc: Global,
    server: &[u8],
    workers: u32,
    take: u32,
) -> io::Result<Vec<(TcpDoor, RingBell<R>)>>
    ensures ok { IfOk result (λ pairs. (length pairs.items ≡ workers) × All (λ p. IsNewPair
        (untold_doorway p.0.faults p.0.link_read_faults p.0.link_write_faults)
        (untold_ringing p.1.agains p.1.rings)) pairs.items) }
{
    let Ok(server) = str::from_utf8(server) else {
        return Err(io::Error::from(io::ErrorKind::InvalidInput));
    };
    let listener = TcpListener::bind(rt, server)?;
    let claims = Arc::new(alloc, AtomicU32::new(take))?;
    let bell = RingBell::new(alloc, *rt)?;
    let mut pairs = Vec::new(alloc);
    for _worker in 0..workers {
        pairs.push(pair_of(&listener, &claims, &bell)?)?;
    }
    Ok(pairs)
}

/// A door over a clone of the listener, and one more bell.
fn pair_of<R: Wait + Clock + Copy>(
    listener: &TcpListener,
    claims: &Arc<AtomicU32, Global>,
    bell: &RingBell<R>,
) -> io::Result<(TcpDoor, RingBell<R>)>
    ensures ok { IfOk result (λ p. IsNewPair
        (untold_doorway p.0.faults p.0.link_read_faults p.0.link_write_faults) (untold_ringing p.1.agains p.1.rings)) }
{
    let door = TcpDoor::new(listener.try_clone()?, Arc::try_clone(claims)?);
    Ok((door, bell.another()?))
}
