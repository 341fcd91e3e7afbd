/// Where an entry of a book is kept: the number of its resource, the arrival number of its update there, and who put it.
#[derive(Clone, Copy)]
pub struct Place {
    pub resource: u32,
    pub number: u32,
    pub by: u32,
}
