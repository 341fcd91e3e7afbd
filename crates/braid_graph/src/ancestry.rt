//! The ancestry of a frontier, run by run.

ghost use Rattle.std.specs.Prelude.{◌≡◌, ◌<◌, ◌≤◌, ◌++◌, ◌+◌, ◌↔◌, List, ℕ, length, replicate, IfOk, IfErr, IfSome, OnOk, IsTrue};
ghost use Rattle.braid_ids.specs.MarkSets.{IsMarked, pieces_of};
ghost use Rattle.braid_graph.specs.Entries.{HoldsAll};
ghost use Rattle.braid_graph.specs.Ancestries.{Covers, MarksAncestry, IsUnknown, NamesUnknown};
ghost use Rattle.braid_graph.specs.Runs.{starts_of, runs_of};
ghost use Rattle.braid_graph.specs.Inside.{IsParentNumber, AllMarked, AreEnds, IsReached, MarksPast, Reaches, ReachesMore};

use crate::graph::Graph;
use crate::known::{Known, place_of};
use braid_ids::{Frontier, Id, Marks, Memory, Unknown};
use std::alloc::Global;

/// Of how many entries at most the ancestry is kept.
const MOST_KNOWN: usize = 4;

/// While its entry is one of this many newest, an ancestry that is kept gives way to no other.
const LATELY: usize = 16;

impl Graph {
    /// The arrival numbers of the ancestry of a frontier: of its members, their parents, their parents' parents and so on.
    ///
    /// It takes time linear in the runs and the parents of what begins them, constant time for the newest frontier, and time
    /// linear in the ranges of the answer for an identifier whose ancestry is kept.
    /// The answer has at most as many ranges as there are runs.
    ///
    /// Errors: `Unknown::Id` where a member of the frontier is not held, with the least that is not; `Unknown::Memory`
    /// where there was none.
    pub fn ancestry(&self, alloc: Global, of: &Frontier) -> Result<Marks, Unknown>
        ensures ok { IfOk result (λ marks. MarksAncestry self.now of.now marks) }
        ensures pieces { IfOk result (λ marks. pieces_of marks ≤ runs_of self.now) }
        ensures fault { IfErr result (λ unknown. IsUnknown self.now of.now unknown) }
    {
        if let Some(id) = self.least_unheld(of) {
            return Err(unknown(alloc, id));
        }
        match self.marked(alloc, of) {
            Ok(marks) => Ok(marks),
            Err(_) => Err(Unknown::Memory),
        }
    }

    /// Whether each member of `lower` is in the ancestry of `upper`.
    ///
    /// Errors: `Unknown::Id` where a member of either is not held, with the least of both that is not;
    /// `Unknown::Memory` where there was none.
    pub fn covers(&self, alloc: Global, upper: &Frontier, lower: &Frontier) -> Result<bool, Unknown>
        ensures held { OnOk result (HoldsAll self.now (upper.now ++ lower.now)) }
        ensures ok { IfOk result (λ covered. IsTrue covered ↔ Covers self.now upper.now lower.now) }
        ensures fault { IfErr result (λ unknown. IsUnknown self.now (upper.now ++ lower.now) unknown) }
    {
        if let Some(id) = self.least_unheld_of_both(upper, lower) {
            return Err(unknown(alloc, id));
        }
        match self.marked(alloc, upper) {
            Ok(marks) => Ok(self.all_marked(lower, &marks)),
            Err(_) => Err(Unknown::Memory),
        }
    }

    /// The arrival numbers of the ancestry of a frontier whose members are held.
    ///
    /// Where all heads are among the members, that is each number.
    fn marked(&self, alloc: Global, of: &Frontier) -> Result<Marks, Memory>
        requires held { HoldsAll self.now of.now }
        ensures ok { IfOk result (λ marks. MarksAncestry self.now of.now marks) }
        ensures pieces { IfOk result (λ marks. pieces_of marks ≤ runs_of self.now) }
    {
        if self.heads_among(of) == self.width() {
            return self.all_numbers(alloc);
        }
        match self.kept(alloc, of) {
            Some(marks) => Ok(marks),
            None => self.walked(alloc, of),
        }
    }

    /// The same of a frontier with one member, where its ancestry is kept and there is memory for a copy.
    fn kept(&self, alloc: Global, of: &Frontier) -> Option<Marks>
        requires held { HoldsAll self.now of.now }
        ensures ok { IfSome result (λ marks. MarksAncestry self.now of.now marks) }
    {
        if of.len() != 1 {
            return None;
        }
        let n = self.number_of(of, 0);
        let Some(i) = place_of(&self.known, n) else {
            return None;
        };
        let Ok(mut marks) = self.known[i].marks.copy(alloc) else {
            return None;
        };
        marks.widen(self.entries.len() as u32);
        Some(marks)
    }

    /// The ancestry of a new entry's parents, where those that go on from the entry will want it: where it is kept, or has
    /// to be walked. What was kept is given away.
    pub(crate) fn take_past(&mut self, parents: &Frontier) -> Option<Marks>
        requires held { HoldsAll self.old parents.now }
        ensures ok { IfSome result (λ marks. MarksAncestry self.old parents.now marks) }
        ensures same { self.new ≡ self.old }
    {
        if parents.len() != 1 {
            return None;
        }
        let n = self.number_of(parents, 0);
        if let Some(i) = place_of(&self.known, n) {
            let Known { of: _of, mut marks } = self.known.remove(i);
            marks.widen(self.entries.len() as u32);
            return Some(marks);
        }
        if n as usize + 1 == self.entries.len() {
            return None;
        }
        // Where entries go on from more ancestries in turns than are kept, those that are kept stay.
        if self.known.len() >= MOST_KNOWN
            && self.known[0].of as usize + LATELY >= self.entries.len()
        {
            return None;
        }
        match self.walked(self.alloc, parents) {
            Ok(marks) => Some(marks),
            Err(_) => None,
        }
    }

    /// Keeps the ancestry of the newest entry, by that of its parents. Without memory nothing is kept.
    pub(crate) fn keep_past(&mut self, past: Marks)
        requires past { MarksPast self.old past }
        ensures same { self.new ≡ self.old }
    {
        let size = self.entries.len() as u32;
        let of = size - 1;
        let mut marks = past;
        marks.widen(size);
        if marks.add(of, size).is_err() {
            return;
        }
        if self.known.len() >= MOST_KNOWN {
            self.known.remove(0);
        }
        let _ = self.known.push(Known { of, marks });
    }

    /// Each arrival number.
    fn all_numbers(&self, alloc: Global) -> Result<Marks, Memory>
        ensures size { IfOk result (λ marks. length marks ≡ length self.now) }
        ensures ok { IfOk result (λ marks. (n : ℕ) → n < length self.now → IsMarked marks n) }
    {
        let size = self.entries.len() as u32;
        let mut marks = Marks::of(alloc, size)?;
        if size > 0 {
            marks.add(0, size)?;
        }
        Ok(marks)
    }

    /// The same by a walk over the runs, from the newest to the oldest.
    ///
    /// An entry that does not begin a run stands on the one before it alone. So what an ancestry has of a run is a front of
    /// it, and more of the run comes by nothing but by its first entry's parents, which stand in runs before.
    fn walked(&self, alloc: Global, of: &Frontier) -> Result<Marks, Memory>
        requires held { HoldsAll self.now of.now }
        ensures ok { IfOk result (λ marks. MarksAncestry self.now of.now marks) }
    {
        // The end of each run's front: one above its greatest number, or 0.
        let mut ends = vec![in alloc; 0; self.starts.len()]?;
        self.reach_members(of, &mut ends);
        for run in (0..self.starts.len()).rev() {
            self.reach_behind(run, &mut ends);
        }
        self.fronts(alloc, &ends)
    }

    /// Takes held identifiers into the fronts of their runs.
    fn reach_members(&self, of: &Frontier, ends: &mut [u32])
        requires held { HoldsAll self.now of.now }
        requires blank { ends.old ≡ replicate (runs_of self.now) 0 }
        ensures reached { IsReached self.now of.now of.now (runs_of self.now) ends.new }
    {
        for i in 0..of.len() {
            self.reach(self.number_of(of, i), ends);
        }
    }

    /// Takes the parents of a run's first entry into the fronts of their runs, where the run has a front.
    fn reach_behind(&self, run: usize, ends: &mut [u32])
        requires within { run < runs_of self.now }
        requires ends { AreEnds self.now ends.old }
        ensures reached { (F : List (List ℕ)) → IsReached self.now F F (run + 1) ends.old
            → IsReached self.now F F run ends.new }
    {
        let start = self.starts[run];
        if ends[run] <= start {
            return;
        }
        self.reach_parents(start, ends);
    }

    /// Takes the parents of an entry into the fronts of their runs.
    fn reach_parents(&self, n: u32, ends: &mut [u32])
        requires within { n < length self.now }
        requires ends { AreEnds self.now ends.old }
        ensures ends { AreEnds self.now ends.new }
        ensures reached { ReachesMore self.now ends.old ends.new (IsParentNumber self.now n) }
    {
        for parent in self.links[n as usize].parents.as_slice() {
            self.reach(*parent, ends);
        }
    }

    /// Takes an entry, and what stands before it in its run, into the run's front.
    fn reach(&self, n: u32, ends: &mut [u32])
        requires within { n < length self.now }
        requires ends { AreEnds self.now ends.old }
        ensures ends { AreEnds self.now ends.new }
        ensures reached { ReachesMore self.now ends.old ends.new (λ m. m ≡ n) }
    {
        let run = self.links[n as usize].run as usize;
        ends[run] = ends[run].max(n + 1);
    }

    /// The numbers in the fronts of the runs.
    fn fronts(&self, alloc: Global, ends: &[u32]) -> Result<Marks, Memory>
        requires ends { AreEnds self.now ends.now }
        ensures size { IfOk result (λ marks. length marks ≡ length self.now) }
        ensures ok { IfOk result (λ marks. (n : ℕ) → IsMarked marks n ↔ Reaches (starts_of self.now) ends.now n) }
    {
        let mut marks = Marks::of(alloc, self.entries.len() as u32)?;
        for (run, end) in ends.iter().enumerate() {
            let start = self.starts[run];
            if *end <= start {
                continue;
            }
            marks.add(start, *end)?;
        }
        Ok(marks)
    }

    /// Whether the numbers of all of these identifiers are marked.
    fn all_marked(&self, of: &Frontier, marks: &Marks) -> bool
        requires held { HoldsAll self.now of.now }
        ensures all { IsTrue result ↔ AllMarked self.now of.now marks.now }
    {
        for i in 0..of.len() {
            if !marks.has(self.number_of(of, i)) {
                return false;
            }
        }
        true
    }
}

/// The answer that names an identifier which no entry has.
fn unknown(alloc: Global, id: &Id) -> Unknown
    ensures names { NamesUnknown result id.now }
{
    match id.copy(alloc) {
        Ok(id) => Unknown::Id { id },
        Err(_) => Unknown::Memory,
    }
}
