use smallvec::SmallVec;

/// What a graph keeps beside an entry: its parents by their arrival numbers, its level, and the number
/// of its run.
#[derive(Debug, Drop)]
pub struct Links {
    /// One parent alone takes no memory of its own, and a walk reads it with the rest.
    pub parents: SmallVec<u32, 1>,
    pub level: u32,
    pub run: u32,
}
