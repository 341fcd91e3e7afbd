ghost use Rattle.braid_io.specs.Outside.{IsFilled};
ghost use Rattle.braid_io.specs.Dialers.{Dialing, Dials, HangsUp};

use crate::link::Link;
use braid_ids::Bytes;
use std::alloc::Global;
use std::marker::Send;

/// What a dial answers.
#[derive(Drop)]
pub enum Dialed<K> {
    /// A new link. It is to be hung up at the dialer that gave it.
    Up(K),
    /// The server was not reached, and the dialer's count of faults rose. A later dial may succeed.
    Failed,
    /// There was not enough memory; the dialer is unchanged.
    Memory,
}

/// Where connections to servers come from.
pub trait Dialer: Drop + Send {
    /// The links that it gives.
    type Link: Link;

    /// The links hung up and the servers of those that are up, where it tells them, and its counts of faults.
    ghost dialing: { Self → Dialing };

    /// Connects to the server's address.
    fn dial(&mut self, alloc: Global, server: &Bytes) -> Dialed<Self::Link>
        ensures dial { Dials Self.Link.intake Self.Link.outflow server.now result (dialing self.old)
            (dialing self.new) };

    /// Takes back the last link that it gave of those that are up, and ends its connection.
    fn hang_up(&mut self, link: Self::Link)
        requires up { IsFilled (dialing self.old).servers }
        ensures hang_up { HangsUp (Self.Link.intake link) (Self.Link.outflow link) (dialing self.old)
            (dialing self.new) };
}
