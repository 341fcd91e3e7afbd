//! The version graph: which versions there are, which versions each stands on, and what follows from that.
//!
//! A graph is seen as the list of its entries (an identifier and the identifiers of its parents) in order of arrival.
//! Parents are there before their children, and no identifier comes twice. From the entries alone follow a version's
//! level, the graph's frontier, and the ancestry of a frontier: the least set with its members and each parent of a
//! member. None of them depends on the order of arrival. Versions with parents are those of
//! draft-toomim-httpbis-braid-http-04.
//!
//! An identifier is found in expected constant time. Entries one after the other, of which each but the first has the one
//! before it as its only parent, are a run; an ancestry is found in time linear in the runs and the parents of their first
//! entries, and that of the newest frontier in time linear in the frontier. The ancestries of the last few entries that stand
//! beside others are kept, for those that go on from them: writers who take turns in arriving walk nothing anew.
//! Nothing here knows what a version changes, and nothing is ever taken out of a graph.
#![tactic(auto)]

mod ancestry;
mod graph;
mod heads;
mod known;
pub mod laws;
mod links;

pub use graph::Graph;

#[cfg(test)]
mod tests;
