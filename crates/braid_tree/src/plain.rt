ghost use Rattle.std.specs.Prelude.{◌≡◌, []};
ghost use Rattle.braid_tree.specs.Inside.{PlainView};

use crate::at::At;
use crate::deletion::PlainDeletion;
use crate::document::Document;
use crate::row::{PlainRow, index_of, landing, put_run};
use crate::version::PlainVersion;
use crate::visible::{count_visible, nth_visible, visible_places, visible_text};
use braid_ids::{Id, Marks, Memory};
use std::alloc::Global;
use std::marker::Model;

/// A document with one row for each element, in reading order.
///
/// A row takes 32 bytes, a deletion 20, and a version its identifier and 32 more; all three up to twice that while room
/// for more is kept. A run or a deletion looks for its element from the row of the one before on, and then over all
/// rows; so what a version deletes by rising places costs one pass or two. A run moves what follows it once.
#[derive(Drop)]
pub struct PlainDocument {
    versions: Vec<PlainVersion>,
    elements: Vec<PlainRow>,
    deletions: Vec<PlainDeletion>,
    /// The row that was put or looked up last. The next one is often that one or near behind it: only a hint.
    near: usize,
}

impl Model for PlainDocument {
    ghost use Rattle.std.specs.Prelude.{vec_len, vec_capacity};
    ghost use Rattle.braid_tree.specs.Inside.{PlainView, stamps_in, rows_in, deletions_in, free_in, IsKept};

    ghost Value = { PlainView };

    ghost view = { λ d. record {
      stamps = stamps_in d.versions.items;
      rows = rows_in d.elements.items;
      deletions = deletions_in d.deletions.items;
      room = record {
        versions = free_in (vec_capacity d.versions) (vec_len d.versions);
        elements = free_in (vec_capacity d.elements) (vec_len d.elements);
        deletions = free_in (vec_capacity d.deletions) (vec_len d.deletions);
      };
    } };

    ghost invariant = { λ d. IsKept d.versions.items d.elements.items d.deletions.items };
}

impl PlainDocument {
    /// The document without versions, elements and deletions. It takes no memory.
    pub fn new(alloc: Global) -> PlainDocument
        ensures stamps { result.stamps ≡ [] }
        ensures rows { result.rows ≡ [] }
        ensures deletions { result.deletions ≡ [] }
    {
        PlainDocument {
            versions: Vec::new(alloc),
            elements: Vec::new(alloc),
            deletions: Vec::new(alloc),
            near: 0,
        }
    }
}

impl Document for PlainDocument {
    ghost stamps = { λ d. d.stamps };

    ghost rows = { λ d. d.rows };

    ghost row_deletions = { λ d. d.deletions };

    ghost room = { λ d. d.room };

    fn reserve(&mut self, versions: u32, elements: u32, deletions: u32) -> Result<(), Memory> {
        self.versions.reserve(versions as usize)?;
        self.elements.reserve(elements as usize)?;
        self.deletions.reserve(deletions as usize)?;
        Ok(())
    }

    fn begin(&mut self, id: Id, level: u32) {
        self.versions.push_reserved(PlainVersion { id, level });
    }

    fn insert_run(&mut self, after: Option<At>, text: &[char], ordinal: u32) {
        let version = (self.versions.len() - 1) as u32;
        let first = At { version, ordinal };
        let start = match after {
            None => 0,
            Some(at) => index_of(&self.elements, self.near, at) + 1,
        };
        let index = landing(&self.versions, &self.elements, start, first);
        put_run(&mut self.elements, index, first, after, text);
        self.near = index + text.len().saturating_sub(1);
    }

    fn delete(&mut self, at: At) {
        let by = (self.versions.len() - 1) as u32;
        let number = self.deletions.len() as u32;
        let index = index_of(&self.elements, self.near, at);
        let row = &mut self.elements[index];
        let earlier = row.newest;
        row.newest = Some(number);
        self.deletions
            .push_reserved(PlainDeletion { at, by, earlier });
        self.near = index;
    }

    fn len(&self, marks: &Marks) -> u32 {
        count_visible(marks, &self.deletions, &self.elements)
    }

    fn visible_at(&self, marks: &Marks, n: u32) -> Option<At> {
        nth_visible(marks, &self.deletions, &self.elements, n)
    }

    fn visible_between(
        &self,
        alloc: Global,
        marks: &Marks,
        from: u32,
        to: u32,
    ) -> Result<Vec<At>, Memory> {
        visible_places(alloc, marks, &self.deletions, &self.elements, from, to)
    }

    fn text(&self, alloc: Global, marks: &Marks) -> Result<Vec<char>, Memory> {
        visible_text(alloc, marks, &self.deletions, &self.elements)
    }

    fn elements(&self) -> u32 {
        self.elements.len() as u32
    }

    fn deletions(&self) -> u32 {
        self.deletions.len() as u32
    }
}
