use crate::id::Id;

/// Why a look-up of several identifiers found no answer.
#[derive(Debug, Drop)]
pub enum Unknown {
    /// An identifier that is not held: the least of them, by its bytes.
    Id { id: Id },
    /// There was no memory to answer.
    Memory,
}
