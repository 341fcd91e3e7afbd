ghost use Rattle.braid_io.specs.Outside.{HasOne};
ghost use Rattle.braid_io.specs.Doors.{Doorway, Accepts, PutsBack};

use crate::link::Link;
use std::marker::Send;

/// What an accept answers.
#[derive(Drop)]
pub enum Came<K> {
    /// A new link. It is to be put back into the door that gave it.
    Up(K),
    /// The door has ended: no connection is left.
    End,
    /// No connection could be taken, and the door's count of faults rose. A later accept may succeed.
    Failed,
}

/// Where connections come in.
pub trait Door: Drop + Send {
    /// The links that it gives.
    type Link: Link + Send;

    /// The links put back, the connections left and the number of links that are up, where it tells them, and its
    /// counts of faults.
    ghost doorway: { Self → Doorway };

    /// Waits for the next connection.
    fn accept(&mut self) -> Came<Self::Link>
        ensures accept { Accepts Self.Link.intake Self.Link.outflow result (doorway self.old) (doorway self.new) };

    /// Takes back a link of this door, and ends its connection.
    fn put_back(&mut self, link: Self::Link)
        requires up { HasOne (doorway self.old).up }
        ensures put_back { PutsBack (Self.Link.intake link) (Self.Link.outflow link) (doorway self.old)
            (doorway self.new) };
}
