use crate::server::Server;
use braid_ids::Bytes;

/// Whether a link to a server is up.
#[derive(Drop)]
pub enum Line {
    /// None is, and this is the server.
    Free(Server),
    /// One is, which was dialled to this address, and has the server.
    Busy(Bytes),
}
