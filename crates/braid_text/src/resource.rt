ghost use Rattle.std.specs.Prelude.{◌≡◌, ◌≢◌, ◌↔◌, ◌+◌, ◌≤◌, ◌++◌, ◌∷◌, [], Some, IfOk, IfErr, IfSome, IfNone, IsTrue, Contains, length, slice_get};
ghost use Rattle.std.specs.Option.{option_copied};
ghost use Rattle.braid_graph.specs.Entries.{ids_of, Holds, HoldsAll};
ghost use Rattle.braid_graph.specs.Ancestries.{MarksAncestry, IsUnknown};
ghost use Rattle.braid_graph.specs.Frontiers.{IsFrontierOf, frontier_of};
ghost use Rattle.braid_text.specs.Histories.{graph_of, text_at, elements_of, deletions_of, IsLegal};
ghost use Rattle.braid_text.specs.Answers.{IsAnswer};
ghost use Rattle.braid_text.specs.RunCounts.{most_runs};
ghost use Rattle.braid_text.specs.Digested.{digest_at};
ghost use Rattle.braid_text.specs.declared.accept.Accept.TheVariants.{New, Known};

use crate::accept::Accept;
use crate::digesting::digest;
use crate::history::History;
use crate::room::Room;
use braid_change::{Text, Update};
use braid_graph::Graph;
use braid_ids::{Frontier, Id, Marks, Memory, Unknown};
use braid_spans::SpanDocument;
use braid_tree::Document;
use std::alloc::Global;
use std::marker::Model;

/// One versioned text: the updates that were taken, in order of arrival.
///
/// Each of them may follow those before it, so the list is a legal history. Beside it are kept the version graph and a
/// document of all elements, which stand for the history.
#[derive(Drop)]
pub struct Resource {
    history: History,
}

impl Model for Resource {
    ghost use Rattle.std.specs.Prelude.{◌≤◌, List, length};
    ghost use Rattle.braid_change.specs.Updates.{UpdateView};
    ghost use Rattle.braid_text.specs.RunCounts.{most_runs};
    ghost use Rattle.braid_text.specs.Standing.{Stands, rows_in, row_deletions_in};

    ghost Value = { List UpdateView };

    ghost view = { λ r. r.history.updates.items };

    ghost invariant = { λ r. Stands r.history.updates.items r.history.graph r.history.document.stamps
        (rows_in r.history.document) (row_deletions_in r.history.document)
        × (length r.history.document.runs ≤ most_runs r.history.updates.items) };
}

impl Resource {
    /// The resource without updates. It takes no memory.
    pub fn new(alloc: Global) -> Resource
        ensures none { result ≡ [] }
    {
        Resource {
            history: History {
                updates: Vec::new(alloc),
                graph: Graph::new(alloc),
                document: SpanDocument::new(alloc),
            },
        }
    }

    /// Takes an update, or says why not: the first of `Accept`'s answers that holds, but New only where no other does.
    ///
    /// The ranges of the update count the characters that are read at its parents. `room` is what there is room for
    /// beside what is held; its `width` is for the whole frontier afterwards. The caller sees to it that what is held
    /// and `room` come to at most 524,288 versions, 33,554,432 elements and 67,108,864 deletions.
    ///
    /// It costs the ancestry of the parents and a pass over the elements up to the end of the last patch, for a body two
    /// over all of them; runs and deletions look for their elements from the last one found on.
    ///
    /// An answer other than New leaves the resource as it was, and the update is dropped. Known takes no memory.
    pub fn accept(&mut self, alloc: Global, update: Update, room: &Room) -> Accept
        requires versions { length self.old + room.now.versions ≤ 524288 }
        requires elements { length (elements_of self.old) + room.now.elements ≤ 33554432 }
        requires deletions { length (deletions_of self.old) + room.now.deletions ≤ 67108864 }
        ensures answer { IsAnswer room.now self.old update result }
        ensures taken { result ≡ New → self.new ≡ self.old ++ update ∷ [] }
        ensures kept { result ≢ New → self.new ≡ self.old }
        ensures known { Contains self.old update → result ≡ Known }
    {
        let resolved = match self.history.judge(alloc, &update, room) {
            Ok(resolved) => resolved,
            Err(answer) => return answer,
        };
        match self.history.take(alloc, update, resolved) {
            Ok(()) => Accept::New,
            Err(_) => Accept::Memory,
        }
    }

    /// What is read at a frontier.
    ///
    /// Errors: `Unknown::Id` with the least member that is not held, or `Unknown::Memory`.
    pub fn read(&self, alloc: Global, at: &Frontier) -> Result<Text, Unknown>
        ensures ok { IfOk result (λ text. HoldsAll (graph_of self.now) at.now × (text ≡ text_at self.now at.now)) }
        ensures fault { IfErr result (λ unknown. IsUnknown (graph_of self.now) at.now unknown) }
    {
        self.history.read(alloc, at)
    }

    /// The frontier of all updates: the identifiers that are no update's parent.
    ///
    /// Errors: `Memory` where there was none for the copies.
    pub fn frontier(&self, alloc: Global) -> Result<Frontier, Memory>
        ensures ok { IfOk result (λ frontier. IsFrontierOf (graph_of self.now) frontier) }
    {
        self.history.graph.frontier(alloc)
    }

    /// The digest of all updates: SHA-256 (FIPS 180-4) of their canonical spellings, by rising identifier.
    ///
    /// Errors: `Memory` where there was none for a list of references to the updates or for a spelling.
    pub fn digest(&self, alloc: Global) -> Result<[u8; 32], Memory>
        ensures ok { IfOk result (λ digest. digest ≡ digest_at self.now) }
    {
        digest(alloc, &self.history.updates)
    }

    /// The update with this arrival number, counted from 0. It takes no memory.
    pub fn entry(&self, n: u32) -> Option<&Update>
        ensures value { option_copied result ≡ slice_get self.now n }
    {
        self.history.updates.get(n as usize)
    }

    /// How many updates there are. It takes no memory.
    ///
    /// Contracts learn here that the updates are a legal history.
    pub fn entries(&self) -> u32
        ensures count { result ≡ length self.now }
        ensures few { length self.now ≤ 524288 }
        ensures legal { IsLegal self.now }
    {
        self.history.updates.len() as u32
    }

    /// How many elements there are, the deleted ones too. It takes no memory.
    pub fn elements(&self) -> u32
        ensures count { result ≡ length (elements_of self.now) }
    {
        self.history.document.elements()
    }

    /// How many deletions there are: pairs of an element and a version that deletes it. It takes no memory.
    pub fn deletions(&self) -> u32
        ensures count { result ≡ length (deletions_of self.now) }
    {
        self.history.document.deletions()
    }

    /// How many runs of characters the document of its elements has. It takes no memory.
    ///
    /// A run is a list of neighbouring elements in reading order, of one version, with rising ordinals, each after the first
    /// with the one before it as its origin, and all deleted by the same versions. A New adds at most two for each joined range
    /// that inserts text and for each deletion, so there are at most two for each of all these.
    pub fn runs(&self) -> u32
        ensures few { result ≤ most_runs self.now }
    {
        self.history.document.runs()
    }

    /// How many identifiers the frontier has. It takes no memory.
    pub fn width(&self) -> u32
        ensures width { result ≡ length (frontier_of (graph_of self.now)) }
    {
        self.history.graph.width()
    }

    /// Whether each member of a frontier is held. It takes no memory.
    pub fn holds(&self, at: &Frontier) -> bool
        ensures holds { IsTrue result ↔ HoldsAll (graph_of self.now) at.now }
    {
        match self.history.graph.least_unheld(at) {
            Some(_) => false,
            None => true,
        }
    }

    /// The arrival number of the update with this identifier, in expected constant time. It takes no memory.
    pub fn find(&self, id: &Id) -> Option<u32>
        ensures found { IfSome result (λ n. slice_get (ids_of (graph_of self.now)) n ≡ Some id.now) }
        ensures none { IfNone result (¬ (Holds (graph_of self.now) id.now)) }
    {
        self.history.graph.index_of(id)
    }

    /// The arrival numbers of the ancestry of a frontier.
    ///
    /// Errors: `Unknown::Id` with the least member that is not held, or `Unknown::Memory`.
    pub fn ancestry(&self, alloc: Global, of: &Frontier) -> Result<Marks, Unknown>
        ensures ok { IfOk result (λ marks. MarksAncestry (graph_of self.now) of.now marks) }
        ensures fault { IfErr result (λ unknown. IsUnknown (graph_of self.now) of.now unknown) }
    {
        self.history.graph.ancestry(alloc, of)
    }
}
