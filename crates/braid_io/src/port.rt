ghost use Rattle.braid_io.specs.Doors.{Porting, Opens};

use crate::bell::Bell;
use crate::door::Door;
use braid_ids::Bytes;
use std::alloc::Global;

/// What a port was asked for.
#[derive(Drop)]
pub struct Asked {
    /// The server's address.
    pub server: Bytes,
    /// The number of workers, which is that of the doors and of the bells.
    pub workers: u32,
    /// The number of connections that all the doors take together.
    pub take: u32,
}

/// What an opening answers.
#[derive(Drop)]
pub enum Opened<D, L> {
    /// A new door and a new bell for each worker.
    Up(Vec<(D, L)>),
    /// The port could not be opened, and its count of faults rose.
    Failed,
    /// There was not enough memory; the port is unchanged.
    Memory,
}

/// Where doors come from.
pub trait Port: Drop {
    /// The doors that it gives.
    type Door: Door;

    /// The bells that it gives. A ring of one reaches those who wait at the others of its opening.
    type Bell: Bell;

    /// What it was asked for, where it tells that, and how often it failed.
    ghost porting: { Self → Porting };

    /// Opens doors and bells at the server's address: one of each for each of `workers`, which take `take` connections
    /// together.
    fn open(
        &mut self,
        alloc: Global,
        server: &Bytes,
        workers: u32,
        take: u32,
    ) -> Opened<Self::Door, Self::Bell>
        ensures open { Opens Self.Door.doorway Self.Bell.ringing
            (record { server = server.now; workers = workers; take = take }) result (porting self.old)
            (porting self.new) };
}
