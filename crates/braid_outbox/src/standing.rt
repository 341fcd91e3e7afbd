/// How an update that is given stands among a replica's.
#[derive(Clone, Copy, Debug, PartialEq, Eq)]
pub enum Standing {
    /// It is confirmed.
    Confirmed,
    /// It is the first unsent one.
    First,
    /// No update has its identifier, or it is a later unsent one.
    Next,
    /// Another update has its identifier.
    Other,
}
