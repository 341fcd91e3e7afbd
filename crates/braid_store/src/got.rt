use braid_change::Text;
use braid_ids::{Frontier, Id};

/// What was read of a path: the text, and the version at which it was read.
#[derive(Debug, Drop)]
pub struct Got {
    pub version: Frontier,
    pub text: Text,
}

/// Why nothing was read.
#[derive(Debug, Drop)]
pub enum GetFault {
    /// The path has no entry.
    Absent,
    /// The least identifier of the version asked for that the path does not hold.
    Unknown { id: Id },
    /// There was no memory to answer.
    Memory,
}
