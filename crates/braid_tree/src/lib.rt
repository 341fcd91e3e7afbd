//! The reading order of a versioned text, and documents that keep it.
//!
//! Each character that was ever typed is an element. It hangs below the element that it was typed behind, its origin,
//! or below the root, and has a key: the level of its version, the version's identifier, its number there. The text
//! reads depth first, greater keys first. So the order depends on the elements alone, not on the order in which they
//! came; a deleted element stays in its place. After timestamped insertion trees (Attiya and others, PODC 2016); the
//! key is this project's. `laws` says what the order promises; a `Document` keeps elements in it.
//!
//! `PlainDocument` keeps one row of 32 bytes for each element, 20 bytes for each deletion and 32 beside its identifier for
//! each version; up to twice that while room is kept. A run or a deletion looks for its element from the last one on: at
//! worst over all rows, and for a version whose deletions come in reading order once or twice over them for all of
//! these. `len`, `visible_at` and `text` take time linear in the rows and the deletions. Paths are never built.
//!
//! Not promised: that texts typed at one place at one time, each as several versions, do not mix.
#![tactic(auto)]

mod at;
mod deletion;
mod document;
pub mod laws;
mod plain;
mod row;
mod version;
mod visible;

pub use at::At;
pub use document::Document;
pub use plain::PlainDocument;

#[cfg(test)]
mod tests;
