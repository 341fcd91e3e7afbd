//! A document by runs: what was typed together and is deleted together stands together.
//!
//! A run is a list of neighbouring characters in reading order, of one version, with rising numbers, each after the first
//! with the one before it as its origin, and all deleted by the same versions. `SpanDocument` keeps the elements of a
//! text as such runs and meets the contract of `braid_tree::Document`: the runs' characters, one after the other, are
//! the elements. Characters are kept once, in order of arrival, so a run is cut without copying any. Runs stand in blocks,
//! so that a change moves the runs of one block alone, and each block has counts by which it is passed.
//!
//! Not promised by any clause: how fast it is. No clause refuses a body that keeps one row for each element and makes
//! its runs of them.
#![tactic(auto)]

mod block;
mod blocks;
mod deleting;
mod document;
mod editing;
mod homes;
mod inserting;
mod left;
mod link;
mod run;
mod runs;
mod skipping;
mod sum;
mod version;
mod visible;
mod whole;

pub use document::SpanDocument;

#[cfg(test)]
mod tests;
