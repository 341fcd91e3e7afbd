//! Changes of a text: whole bodies and patches, the updates that carry them, and what they make of a text.
//!
//! An update is an identifier, a set of parents and a change. A built update has few parents and few patches, its
//! patches rise and do not overlap, and its content is short; each refusal names the first fault. A change of a text
//! replaces ranges of its characters (Range Patch of the Braid drafts), or all of it. An update has one canonical
//! spelling, and a digest is SHA-256 (FIPS 180-4) over the spellings of many.
//!
//! Contracts see a text as a list of scalar values and an update as a record of its parts. Nothing here knows a
//! history: whether the parents of an update exist, and what the text at them is, is for the crates above.
#![tactic(auto)]

mod ascii;
mod change;
mod digester;
mod joins;
pub mod laws;
mod list_update;
mod outlet;
mod patch;
mod range;
mod spelling;
mod splices;
mod text;
mod update;

pub use change::Change;
pub use digester::Digester;
pub use joins::joined;
pub use list_update::ListUpdate;
pub use outlet::Outlet;
pub use patch::{ListPatch, Patch};
pub use range::{RangeFault, read_range};
pub use spelling::{canon, canon_len, spell};
pub use splices::{SpliceFault, splice};
pub use text::{Text, TextFault};
pub use update::{BuildFault, LONGEST_CONTENT, MOST_PARENTS, MOST_PATCHES, Update};

#[cfg(test)]
mod range_tests;
#[cfg(test)]
mod tests;
