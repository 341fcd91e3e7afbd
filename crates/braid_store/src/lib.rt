//! A book: many versioned texts by path, in one list of entries.
//!
//! Contracts see a book as the list of its entries in order of arrival, each a path, the number of who put it, and an
//! update. The updates of a path are its history, as `braid_text` defines it. `put` takes an update or says why not; a
//! refused one changes nothing. The limits of a server are counted over all paths together.
//!
//! A cursor goes through what a path has outside the ancestry of a frontier, in order of arrival and each update once,
//! whatever is put meanwhile. Versions, parents and subscriptions are after draft-toomim-httpbis-braid-http-04.
//!
//! Not promised: that texts are kept anywhere but in memory.
#![tactic(auto)]

mod book;
mod contents;
mod cursor;
mod entry;
mod got;
pub mod laws;
mod limits;
mod path;
mod place;
mod put;
mod reading;

pub use book::Book;
pub use cursor::Cursor;
pub use entry::Entry;
pub use got::{GetFault, Got};
pub use put::Put;

#[cfg(test)]
mod tests;
