ghost use Rattle.std.specs.Prelude.{◌≡◌, ◌+◌, ◌-◌, ◌<◌, ◌≤◌, ◌^◌, ◌++◌, ◌∷◌, [], List, IfOk, OnOk, MatchOption, Contains, length, map, take, drop, slice_get};
ghost use Rattle.std.specs.Option.{option_map};
ghost use Rattle.braid_tree.specs.Rows.{Stamp, Row, RowDeletion, DocumentRoom, HasPlace, AreNewOrdinals, AreKnown, PutsRun, PutsOne, ListsWithRun, HasRoomFor, Spends};
ghost use Rattle.braid_tree.specs.Seen.{seen_rows, place_in, char_in};

use crate::at::At;
use braid_ids::{Id, Marks, Memory};
use std::alloc::Global;

/// The elements of a text in reading order, with the versions that they came with and what deletes them.
///
/// Places are kept by arrival: version number 0 is the one begun first. `begin` starts a version; the runs and
/// deletions that follow are its own. Nothing is ever taken out: a deleted element stays in its place, and which
/// elements are visible depends on the versions that the reader marks.
///
/// `begin`, `insert_run` and `delete` spend room that `reserve` made, so they take no memory and never fail.
pub trait Document: Drop {
    /// The versions that were begun, in order of arrival.
    ghost stamps: { Self → List Stamp };

    /// The elements, in reading order.
    ghost rows: { Self → List Row };

    /// What deletes them, in some order.
    ghost row_deletions: { Self → List RowDeletion };

    /// How much room is left.
    ghost room: { Self → DocumentRoom };

    /// Makes room for this many more versions, elements and deletions. Each of them and what is there come to less than
    /// 2^32 together.
    ///
    /// Errors: `Memory` where there was none; versions, elements and deletions are then as before, and the room is
    /// at least what it was.
    fn reserve(&mut self, versions: u32, elements: u32, deletions: u32) -> Result<(), Memory>
        requires few_versions { length (stamps self.old) + versions < 2 ^ 32 }
        requires few_elements { length (rows self.old) + elements < 2 ^ 32 }
        requires few_deletions { length (row_deletions self.old) + deletions < 2 ^ 32 }
        ensures ok { OnOk result (HasRoomFor (room self.new) versions elements deletions) }
        ensures room { Spends (room self.old) (room self.new) 0 0 0 }
        ensures stamps { stamps self.new ≡ stamps self.old }
        ensures rows { rows self.new ≡ rows self.old }
        ensures deletions { row_deletions self.new ≡ row_deletions self.old };

    /// Begins a version with this identifier and level. Nothing is asked of the identifier; `insert_run` says where a
    /// run goes only where no other version has it.
    fn begin(&mut self, id: Id, level: u32)
        requires roomy { HasRoomFor (room self.old) 1 0 0 }
        ensures stamps { stamps self.new ≡ stamps self.old ++ record { id = id; level = level } ∷ [] }
        ensures rows { rows self.new ≡ rows self.old }
        ensures deletions { row_deletions self.new ≡ row_deletions self.old }
        ensures room { Spends (room self.old) (room self.new) 1 0 0 }
        ensures known { AreKnown (stamps self.old) (rows self.old) };

    /// Puts a run of characters of the version begun last behind the element `after`, or at the front of the text:
    /// past the neighbours with greater keys, as the reading order of the whole tree wants it.
    ///
    /// `ordinal` is the number of the first character in its version. A version was begun, `after` is listed, the
    /// version has no element of this ordinal or a later one yet, and `ordinal` and the text's length together are
    /// below 2^32.
    ///
    /// Where the rows list a tree, where the version's level is above those of the origin and of all that the origin
    /// stands below, and where its identifier is no other version's, the new rows list that tree with the run in its
    /// order.
    fn insert_run(&mut self, after: Option<At>, text: &[char], ordinal: u32)
        requires begun { 0 < length (stamps self.old) }
        requires there { MatchOption after (Unit {0}) (HasPlace (rows self.old)) }
        requires ordinals { AreNewOrdinals (rows self.old) (length (stamps self.old) - 1) ordinal }
        requires roomy { HasRoomFor (room self.old) 0 (length text.now) 0 }
        requires fits { ordinal + length text.now < 2 ^ 32 }
        ensures stamps { stamps self.new ≡ stamps self.old }
        ensures put { PutsRun (rows self.old) (rows self.new) (length (stamps self.old) - 1) after ordinal text.now }
        ensures placed { ListsWithRun (stamps self.old) (rows self.old) (rows self.new) after ordinal text.now }
        ensures deletions { row_deletions self.new ≡ row_deletions self.old }
        ensures room { Spends (room self.old) (room self.new) 0 (length text.now) 0 }
        ensures known { AreKnown (stamps self.new) (rows self.new) };

    /// Notes that the version begun last deletes an element. It stays listed, and others may delete it too.
    ///
    /// A version was begun, `at` is listed, and this version has not deleted it before.
    fn delete(&mut self, at: At)
        requires begun { 0 < length (stamps self.old) }
        requires there { HasPlace (rows self.old) at }
        requires once { ¬ (Contains (row_deletions self.old) (record { at = at; by = length (stamps self.old) - 1 })) }
        requires roomy { HasRoomFor (room self.old) 0 0 1 }
        ensures deletions { PutsOne (row_deletions self.old) (record { at = at; by = length (stamps self.old) - 1 })
            (row_deletions self.new) }
        ensures stamps { stamps self.new ≡ stamps self.old }
        ensures rows { rows self.new ≡ rows self.old }
        ensures room { Spends (room self.old) (room self.new) 0 0 1 };

    /// How many elements the marked versions see: those of a marked version that no marked version deletes.
    fn len(&self, marks: &Marks) -> u32
        ensures len { result ≡ length (seen_rows marks.now (row_deletions self.now) (rows self.now)) };

    /// The place of element number `n`, counted from 0, of those that the marked versions see. None where they see no
    /// more than `n`.
    fn visible_at(&self, marks: &Marks, n: u32) -> Option<At>
        ensures value { result ≡ option_map place_in (slice_get
            (seen_rows marks.now (row_deletions self.now) (rows self.now)) n) };

    /// The places of the elements from number `from` up to and without number `to`, counted from 0, of those that the
    /// marked versions see. Past the last there are none.
    ///
    /// Errors: `Memory` where there was none for them.
    fn visible_between(
        &self,
        alloc: Global,
        marks: &Marks,
        from: u32,
        to: u32,
    ) -> Result<Vec<At>, Memory>
        ensures ok { IfOk result (λ places. places.items ≡ take (to - from) (drop from
            (map place_in (seen_rows marks.now (row_deletions self.now) (rows self.now))))) };

    /// The characters of the elements that the marked versions see.
    ///
    /// Errors: `Memory` where there was none for them.
    fn text(&self, alloc: Global, marks: &Marks) -> Result<Vec<char>, Memory>
        ensures ok { IfOk result (λ text. text.items ≡ map char_in
            (seen_rows marks.now (row_deletions self.now) (rows self.now))) };

    /// How many elements are listed, deleted ones too.
    fn elements(&self) -> u32
        ensures count { result ≡ length (rows self.now) }
        ensures known { AreKnown (stamps self.now) (rows self.now) };

    /// How many deletions are noted: pairs of an element and a version that deletes it.
    fn deletions(&self) -> u32
        ensures count { result ≡ length (row_deletions self.now) };
}
