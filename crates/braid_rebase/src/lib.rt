//! What an update adds to a text: the elements that it inserts, and those that it deletes.
//!
//! An update's ranges count the characters that its parents see. Each range's text becomes a run of elements behind the
//! seen element before the range, and the seen elements within the range are deleted. The level of the new elements is
//! above all that the parents see, so what the update's version sees is the splice of what its parents see, and the
//! laws say so for every list of elements in reading order. The patches and their splice are after Range Patch of the
//! Braid drafts; the elements are those of `braid_tree`.
//!
//! `resolve` finds this over any document: what its update adds is given by places, so it can be put in with no further
//! look at the parents. The definitions know no versions: what the parents see is given as a list of nodes or of rows.
#![tactic(auto)]

pub mod laws;
mod ranges;
mod reaching;
mod resolving;
mod run;

pub use resolving::{RebaseFault, Resolved, resolve};
pub use run::Run;

#[cfg(test)]
mod tests;
