use braid_change::Update;
use braid_ids::Bytes;

/// One entry of a book: an update, the path that it was put to, and the number of who put it.
#[derive(Drop)]
pub struct Entry {
    pub path: Bytes,
    pub by: u32,
    pub update: Update,
}
