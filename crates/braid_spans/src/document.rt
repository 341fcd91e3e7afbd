ghost use Rattle.std.specs.Prelude.{◌≡◌, ℕ, ◌+◌, ◌-◌, ◌*◌, ◌<◌, ◌≤◌, ◌^◌, ◌++◌, ◌∷◌, [], List, Contains, MatchOption, IsSomeAnd, OnOk, length, map, take, slice_get};
ghost use Rattle.std.specs.List.Sorted.{IsPermutation};
ghost use Rattle.braid_tree.specs.Rows.{RowDeletion, HasPlace, AreNewOrdinals, AreKnown, PutsRun, PutsOne, ListsWithRun, HasRoomFor, Spends};
ghost use Rattle.braid_spans.specs.Spans.{spelled, rows_of, deletions_of, deletion_by};

use crate::deleting::{neighbours, note_deletion, note_deletions};
use crate::inserting::put_run;
use crate::left::Left;
use crate::link::Link;
use crate::runs::Runs;
use crate::skipping::pass_blocks;
use crate::version::SpanVersion;
use crate::visible::room_for;
use crate::whole::{count_all, nth_of_all, push_chars, push_places};
use braid_ids::{Id, Marks, Memory};
use braid_tree::{At, Document};
use std::alloc::Global;
use std::marker::Model;

/// A document with one run for what was typed together and is deleted by the same versions.
///
/// A run takes 36 bytes, a character 4, a deletion that is not joined to a neighbour's 12, and a version its identifier
/// and 40 more; each up to twice that while room for more is kept, and two runs for each element and deletion that room
/// is kept for. A block of runs that was cut is half empty, so runs take up to twice their bytes.
///
/// The runs stand in blocks of at most 256, each with its number of runs and of elements that nothing deletes. A run or
/// a deletion looks its element up in the blocks where a run of its version or of its characters was put last and where
/// the last change was, then in all, passes over the blocks' numbers, and changes one block; where that is full it is cut in two. A version that
/// deletes neighbours one after the other leaves one run more of them, or two. Where the marks hold every version `len`
/// takes constant time, and `visible_at` and `visible_between` pass over the blocks' counts and then look into the blocks
/// that they reach; else they are one pass over the runs, as `text` is.
#[derive(Drop)]
pub struct SpanDocument {
    versions: Vec<SpanVersion>,
    chars: Vec<char>,
    links: Vec<Link>,
    runs: Runs,
    deletions: u32,
    left: Left,
}

impl Model for SpanDocument {
    ghost use Rattle.std.specs.Prelude.{vec_len, vec_capacity};
    ghost use Rattle.braid_spans.specs.Spans.{SpanView};
    ghost use Rattle.braid_spans.specs.Kept.{stamps_in, spans_of, chains_of, room_of, IsSound, HasLeft};

    ghost Value = { SpanView };

    ghost view = { λ d. record {
      stamps = stamps_in d.versions.items;
      runs = spans_of d.chars.items (chains_of d.links.items) d.runs.list;
      room = room_of d.left;
    } };

    ghost invariant = { λ d. IsSound d.versions.items d.chars.items d.links.items d.runs.list d.deletions
        × HasLeft d.left (vec_len d.versions) (vec_capacity d.versions) (vec_len d.chars) (vec_capacity d.chars)
        (vec_len d.links) (vec_capacity d.links) d.deletions d.runs.room };
}

impl SpanDocument {
    /// The document without versions, elements and deletions. It takes no memory.
    pub fn new(alloc: Global) -> SpanDocument
        ensures stamps { result.stamps ≡ [] }
        ensures runs { result.runs ≡ [] }
    {
        SpanDocument {
            versions: Vec::new(alloc),
            chars: Vec::new(alloc),
            links: Vec::new(alloc),
            runs: Runs::new(alloc),
            deletions: 0,
            left: Left {
                versions: 0,
                elements: 0,
                deletions: 0,
            },
        }
    }

    /// Notes that the version begun last deletes these elements, as `delete` does of each of them. They stay listed.
    ///
    /// A version was begun, and all of them are listed. Neighbours of one run that stand in the list one after the other
    /// are deleted at once. It takes no memory.
    pub fn delete_all(&mut self, places: &[At])
        requires begun { 0 < length self.old.stamps }
        requires there { (i : ℕ) → i < length places.now
            → IsSomeAnd (slice_get places.now i) (HasPlace (rows_of (spelled self.old.runs))) }
        requires roomy { HasRoomFor self.old.room 0 0 (length places.now) }
        ensures stamps { self.new.stamps ≡ self.old.stamps }
        ensures rows { rows_of (spelled self.new.runs) ≡ rows_of (spelled self.old.runs) }
        ensures deletions { IsPermutation (deletions_of (spelled self.old.runs)
            ++ map (deletion_by (length self.old.stamps - 1)) places.now) (deletions_of (spelled self.new.runs)) }
        ensures room { Spends self.old.room self.new.room 0 0 (length places.now) }
        ensures runs { length self.new.runs ≤ length self.old.runs + 2 * length places.now }
    {
        let mut done = 0;
        while done < places.len() {
            done += self.delete_front(&places[done..]);
        }
    }

    /// Notes that the version begun last deletes some of the first of these elements: how many.
    fn delete_front(&mut self, places: &[At]) -> usize
        requires begun { 0 < length self.old.stamps }
        requires some { 0 < length places.now }
        requires there { IsSomeAnd (slice_get places.now 0) (HasPlace (rows_of (spelled self.old.runs))) }
        requires roomy { HasRoomFor self.old.room 0 0 (length places.now) }
        ensures some { 0 < result }
        ensures within { result ≤ length places.now }
        ensures stamps { self.new.stamps ≡ self.old.stamps }
        ensures rows { rows_of (spelled self.new.runs) ≡ rows_of (spelled self.old.runs) }
        ensures deletions { (done : List RowDeletion) → IsPermutation done (deletions_of (spelled self.old.runs))
            → IsPermutation (done ++ map (deletion_by (length self.old.stamps - 1)) (take result places.now))
            (deletions_of (spelled self.new.runs)) }
        ensures room { Spends self.old.room self.new.room 0 0 result }
        ensures runs { length self.new.runs ≤ length self.old.runs + 2 }
    {
        let by = (self.versions.len() - 1) as u32;
        let most = neighbours(places) as u32;
        let count = note_deletions(&mut self.runs, &mut self.links, places[0], by, most);
        self.deletions += count;
        self.left.deletions -= count;
        count as usize
    }

    /// How many runs there are. It takes no memory.
    pub fn runs(&self) -> u32
        ensures count { result ≡ length self.now.runs }
    {
        self.runs.len() as u32
    }
}

impl Document for SpanDocument {
    ghost stamps = { λ d. d.stamps };

    ghost rows = { λ d. rows_of (spelled d.runs) };

    ghost row_deletions = { λ d. deletions_of (spelled d.runs) };

    ghost room = { λ d. d.room };

    fn reserve(&mut self, versions: u32, elements: u32, deletions: u32) -> Result<(), Memory>
        requires few_versions { length self.old.stamps + versions < 2 ^ 32 }
        requires few_elements { length (rows_of (spelled self.old.runs)) + elements < 2 ^ 32 }
        requires few_deletions { length (deletions_of (spelled self.old.runs)) + deletions < 2 ^ 32 }
        ensures ok { OnOk result (HasRoomFor self.new.room versions elements deletions) }
        ensures room { Spends self.old.room self.new.room 0 0 0 }
        ensures stamps { self.new.stamps ≡ self.old.stamps }
        ensures rows { rows_of (spelled self.new.runs) ≡ rows_of (spelled self.old.runs) }
        ensures deletions { deletions_of (spelled self.new.runs) ≡ deletions_of (spelled self.old.runs) }
        ensures runs { self.new.runs ≡ self.old.runs }
    {
        let versions = versions.max(self.left.versions);
        let elements = elements.max(self.left.elements);
        let deletions = deletions.max(self.left.deletions);
        self.versions.reserve(versions as usize)?;
        self.chars.reserve(elements as usize)?;
        self.links.reserve(deletions as usize)?;
        self.runs.reserve_homes(
            self.versions.len() + versions as usize,
            self.chars.len() + elements as usize,
        )?;
        self.runs
            .reserve(2 * (elements as usize + deletions as usize))?;
        self.left = Left {
            versions,
            elements,
            deletions,
        };
        Ok(())
    }

    fn begin(&mut self, id: Id, level: u32)
        requires roomy { HasRoomFor self.old.room 1 0 0 }
        ensures stamps { self.new.stamps ≡ self.old.stamps ++ record { id = id; level = level } ∷ [] }
        ensures rows { rows_of (spelled self.new.runs) ≡ rows_of (spelled self.old.runs) }
        ensures deletions { deletions_of (spelled self.new.runs) ≡ deletions_of (spelled self.old.runs) }
        ensures room { Spends self.old.room self.new.room 1 0 0 }
        ensures known { AreKnown self.old.stamps (rows_of (spelled self.old.runs)) }
        ensures runs { self.new.runs ≡ self.old.runs }
    {
        self.versions.push_reserved(SpanVersion { id, level });
        self.left.versions -= 1;
    }

    fn insert_run(&mut self, after: Option<At>, text: &[char], ordinal: u32)
        requires begun { 0 < length self.old.stamps }
        requires there { MatchOption after (Unit {0}) (HasPlace (rows_of (spelled self.old.runs))) }
        requires ordinals { AreNewOrdinals (rows_of (spelled self.old.runs)) (length self.old.stamps - 1) ordinal }
        requires roomy { HasRoomFor self.old.room 0 (length text.now) 0 }
        requires fits { ordinal + length text.now < 2 ^ 32 }
        ensures stamps { self.new.stamps ≡ self.old.stamps }
        ensures put { PutsRun (rows_of (spelled self.old.runs)) (rows_of (spelled self.new.runs))
            (length self.old.stamps - 1) after ordinal text.now }
        ensures placed { ListsWithRun self.old.stamps (rows_of (spelled self.old.runs))
            (rows_of (spelled self.new.runs)) after ordinal text.now }
        ensures deletions { deletions_of (spelled self.new.runs) ≡ deletions_of (spelled self.old.runs) }
        ensures room { Spends self.old.room self.new.room 0 (length text.now) 0 }
        ensures known { AreKnown self.new.stamps (rows_of (spelled self.new.runs)) }
        ensures runs { length self.new.runs ≤ length self.old.runs + 2 }
        ensures none { length text.now ≡ 0 → self.new.runs ≡ self.old.runs }
    {
        let first = At {
            version: (self.versions.len() - 1) as u32,
            ordinal,
        };
        if text.is_empty() {
            return;
        }
        put_run(
            &self.versions,
            &mut self.chars,
            &mut self.runs,
            first,
            after,
            text,
        );
        self.left.elements -= text.len() as u32;
    }

    fn delete(&mut self, at: At)
        requires begun { 0 < length self.old.stamps }
        requires there { HasPlace (rows_of (spelled self.old.runs)) at }
        requires once { ¬ (Contains (deletions_of (spelled self.old.runs))
            (record { at = at; by = length self.old.stamps - 1 })) }
        requires roomy { HasRoomFor self.old.room 0 0 1 }
        ensures deletions { PutsOne (deletions_of (spelled self.old.runs))
            (record { at = at; by = length self.old.stamps - 1 })
            (deletions_of (spelled self.new.runs)) }
        ensures stamps { self.new.stamps ≡ self.old.stamps }
        ensures rows { rows_of (spelled self.new.runs) ≡ rows_of (spelled self.old.runs) }
        ensures room { Spends self.old.room self.new.room 0 0 1 }
        ensures runs { length self.new.runs ≤ length self.old.runs + 2 }
    {
        let by = (self.versions.len() - 1) as u32;
        note_deletion(&mut self.runs, &mut self.links, at, by);
        self.deletions += 1;
        self.left.deletions -= 1;
    }

    fn len(&self, marks: &Marks) -> u32 {
        if marks.is_full() && marks.size() as usize >= self.versions.len() {
            return self.runs.undeleted();
        }
        count_all(marks, &self.links, self.runs.blocks())
    }

    fn visible_at(&self, marks: &Marks, n: u32) -> Option<At> {
        let passed = pass_blocks(self.versions.len(), marks, &self.links, self.runs.sums(), n);
        let blocks = &self.runs.blocks()[passed.blocks..];
        nth_of_all(marks, &self.links, blocks, passed.left)
    }

    fn visible_between(
        &self,
        alloc: Global,
        marks: &Marks,
        from: u32,
        to: u32,
    ) -> Result<Vec<At>, Memory> {
        let passed = pass_blocks(
            self.versions.len(),
            marks,
            &self.links,
            self.runs.sums(),
            from,
        );
        let blocks = &self.runs.blocks()[passed.blocks..];
        let count = to.saturating_sub(from);
        let mut places = room_for(alloc, count, self.elements())?;
        push_places(&mut places, marks, &self.links, blocks, passed.left, count)?;
        Ok(places)
    }

    fn text(&self, alloc: Global, marks: &Marks) -> Result<Vec<char>, Memory> {
        let mut text = Vec::new(alloc);
        push_chars(
            &mut text,
            marks,
            &self.links,
            &self.chars,
            self.runs.blocks(),
        )?;
        Ok(text)
    }

    fn elements(&self) -> u32 {
        self.chars.len() as u32
    }

    fn deletions(&self) -> u32 {
        self.deletions
    }
}
