ghost use Rattle.std.specs.Prelude.{◌≡◌, ◌≢◌, ◌≤◌, ◌++◌, ◌∷◌, [], IfOk, IfErr, OnOk, Contains, length};
ghost use Rattle.std.specs.Option.{option_copied};
ghost use Rattle.braid_graph.specs.Ancestries.{IsUnknown};
ghost use Rattle.braid_graph.specs.Frontiers.{IsFrontierOf};
ghost use Rattle.braid_text.specs.Histories.{graph_of};
ghost use Rattle.braid_store.specs.Books.{of_path, IsLegalBook};
ghost use Rattle.braid_store.specs.Answers.{IsPut};
ghost use Rattle.braid_store.specs.Reads.{IsRead, IsGetFault};
ghost use Rattle.braid_store.specs.Cursors.{IsFit, IsNext};
ghost use Rattle.braid_store.specs.declared.put.Put.TheVariants.{New, Known};

use crate::contents::Contents;
use crate::cursor::Cursor;
use crate::entry::Entry;
use crate::got::{GetFault, Got};
use crate::put::Put;
use crate::reading::{open_on, read_at};
use braid_change::Update;
use braid_hall::Annals;
use braid_ids::{Bytes, Frontier, Memory, Unknown};
use braid_text::Resource;
use indexmap::IndexMap;
use std::alloc::Global;
use std::marker::Model;

/// Versioned texts by path: the updates that were taken, in order of arrival.
///
/// Each path's updates are a legal history, and the limits of a server hold over all paths together: 4,096 paths, 262,144
/// versions, 16,777,216 elements, 33,554,432 deletion marks, and 1,000 identifiers in the frontier of each path.
///
/// An update is kept once. A path is found in expected constant time, and the totals are kept, so no call but those that
/// speak of all entries costs more where other paths have more.
#[derive(Drop)]
pub struct Book {
    contents: Contents,
}

impl Model for Book {
    ghost use Rattle.std.specs.Prelude.{List};
    ghost use Rattle.braid_store.specs.declared.entry.Entry.{Entry};
    ghost use Rattle.braid_store.specs.Inside.{entries_in, IsKept};

    ghost Value = { List Entry };

    ghost view = { λ book. entries_in book.contents };

    ghost invariant = { λ book. IsKept book.contents };
}

impl Book {
    /// The book without entries. It takes no memory.
    pub fn new(alloc: Global) -> Book
        ensures none { result ≡ [] }
    {
        Book {
            contents: Contents {
                resources: IndexMap::new(alloc),
                places: Vec::new(alloc),
                elements: 0,
                deletions: 0,
            },
        }
    }

    /// Puts an update to a path, or says why not: the first of `Put`'s answers that holds, but New only where no other does.
    ///
    /// `by` is the number of who puts it. A path that has no entry is there from its first New on. The counts are those
    /// of the book with the update; a resource is counted where the path has none. It costs what
    /// `braid_text::Resource::accept` costs on the path's resource, and nothing that grows with other paths.
    ///
    /// An answer other than New leaves the book as it was, and the update is dropped. Known takes no memory.
    pub fn put(&mut self, alloc: Global, path: &Bytes, by: u32, update: Update) -> Put
        requires short { length path.now ≤ 1024 }
        ensures answer { IsPut self.old (record { path = path.now; by = by; update = update }) result }
        ensures taken { result ≡ New → self.new ≡ self.old ++ (record { path = path.now; by = by; update = update })
            ∷ [] }
        ensures kept { result ≢ New → self.new ≡ self.old }
        ensures known { Contains (of_path self.old path.now) update → result ≡ Known }
    {
        self.contents.put(alloc, path, by, update)
    }

    /// The text of a path at a version, or at its own frontier where none is asked for.
    ///
    /// Errors: `Absent`, `Unknown` with the least identifier that the path does not hold, or `Memory`.
    pub fn get(&self, alloc: Global, path: &Bytes, at: Option<&Frontier>) -> Result<Got, GetFault>
        ensures ok { IfOk result (λ got. IsRead self.now path.now (option_copied at.entry) got) }
        ensures fault { IfErr result (λ fault. IsGetFault self.now path.now (option_copied at.entry) fault) }
    {
        let Some(resource) = self.contents.resource(path) else {
            return Err(GetFault::Absent);
        };
        read_at(alloc, resource, at)
    }

    /// The frontier of a path: the identifiers that are no update's parent. It is empty where the path has no entry.
    ///
    /// Errors: `Memory` where there was none for the copies.
    pub fn frontier(&self, alloc: Global, path: &Bytes) -> Result<Frontier, Memory>
        ensures ok { IfOk result (λ frontier. IsFrontierOf (graph_of (of_path self.now path.now)) frontier) }
        ensures absent { of_path self.now path.now ≡ [] → IfOk result (λ frontier. frontier ≡ []) }
    {
        match self.contents.resource(path) {
            Some(resource) => resource.frontier(alloc),
            None => Resource::new(alloc).frontier(alloc),
        }
    }

    /// A cursor at the beginning of what a path has outside the ancestry of a frontier.
    ///
    /// Errors: `Unknown::Id` with the least member of the frontier that the path does not hold, or `Unknown::Memory`.
    pub fn open(&self, alloc: Global, path: &Bytes, from: &Frontier) -> Result<Cursor, Unknown>
        ensures path { IfOk result (λ cursor. cursor.path ≡ path.now) }
        ensures from { IfOk result (λ cursor. cursor.from ≡ from.now) }
        ensures passed { IfOk result (λ cursor. cursor.passed ≡ 0) }
        ensures fits { IfOk result (λ cursor. IsFit self.now cursor) }
        ensures fault { IfErr result (λ unknown. IsUnknown (graph_of (of_path self.now path.now)) from.now unknown) }
    {
        match self.contents.resource(path) {
            Some(resource) => open_on(alloc, resource, path, from),
            None => open_on(alloc, &Resource::new(alloc), path, from),
        }
    }

    /// The next update that a cursor's path has outside the ancestry of its frontier, in order of arrival, or `None` where
    /// no more is there. It takes no memory, and goes on from where the cursor stands.
    pub fn next_for(&self, cursor: &mut Cursor) -> Option<&Update>
        requires fits { IsFit self.now cursor.old }
        ensures next { IsNext (of_path self.now cursor.old.path) cursor.old.from cursor.old.passed
            (option_copied result) cursor.new.passed }
        ensures kept { cursor.new ≡ record cursor.old { passed = cursor.new.passed } }
        ensures fits { IsFit self.now cursor.new }
    {
        match self.contents.resource(cursor.path()) {
            Some(resource) => cursor.next_in(resource),
            None => None,
        }
    }

    /// How many entries there are. It takes no memory.
    ///
    /// Contracts learn here that each path has a legal history.
    pub fn len(&self) -> u64
        ensures count { result ≡ length self.now }
        ensures few { length self.now ≤ 262144 }
        ensures legal { IsLegalBook self.now }
    {
        self.contents.places.len() as u64
    }
}

impl Annals for Book {
    type Entry = Entry;

    ghost entries = { λ book. book };

    ghost by = { λ e. e.by };

    fn count(&self) -> u64 {
        self.len()
    }
}
