ghost use Rattle.std.specs.Prelude.{◌≡◌, ◌<◌, ◌≤◌, ◌++◌, ◌∷◌, ◌+◌, [], List, ℕ, Some, filter, length, reverse, slice_get, IfOk, OnOk, OnErr, IfSome, IfNone, vec_len, vec_capacity};
ghost use Rattle.std.specs.List.{AllZip};
ghost use Rattle.std.specs.Option.{option_map, option_copied};
ghost use Rattle.braid_ids.specs.Frontiers.{IsRising};
ghost use Rattle.braid_graph.specs.Entries.{GraphEntry, ids_of, Holds, HoldsAll, IsMemberNumber, IsHistoryGraph};
ghost use Rattle.braid_graph.specs.Ancestries.{IsLeastUnheld};
ghost use Rattle.braid_graph.specs.Levels.{greatest_by, level_of};
ghost use Rattle.braid_graph.specs.Frontiers.{IsFrontierOf, frontier_of, heads_of, is_head};
ghost use Rattle.braid_graph.specs.Runs.{runs_of};
ghost use Rattle.braid_graph.specs.Inside.{IsNumberOf, IsLeastOf, IsRunAfter, begun, lesser_of};

use crate::heads::Heads;
use crate::known::Known;
use crate::links::Links;
use braid_ids::{Frontier, Id, Memory};
use indexmap::IndexMap;
use smallvec::SmallVec;
use std::alloc::Global;
use std::marker::Model;

/// A version graph: versions with their parents, in order of arrival, each parent before its children.
///
/// `known` has the ancestries of the last entries of a few branches that arrive in turns.
#[derive(Drop)]
pub struct Graph {
    pub(crate) entries: IndexMap<Id, Frontier>,
    pub(crate) links: Vec<Links>,
    heads: Heads,
    pub(crate) starts: Vec<u32>,
    pub(crate) known: Vec<Known>,
    pub(crate) alloc: Global,
}

impl Model for Graph {
    ghost use Rattle.std.specs.Prelude.{List};
    ghost use Rattle.braid_graph.specs.Entries.{GraphEntry};
    ghost use Rattle.braid_graph.specs.Inside.{entries_in, IsWhole, AreKnown};

    ghost Value = { List GraphEntry };

    ghost view = { λ graph. entries_in graph.entries.entries };

    ghost invariant = { λ graph. IsWhole (entries_in graph.entries.entries) graph.links.items graph.heads
        graph.starts.items × AreKnown (entries_in graph.entries.entries) graph.known.items };
}

impl Graph {
    /// The graph without entries. It takes no memory.
    pub fn new(alloc: Global) -> Graph
        ensures none { result ≡ [] }
    {
        Graph {
            entries: IndexMap::new(alloc),
            links: Vec::new(alloc),
            heads: Heads::new(alloc),
            starts: Vec::new(alloc),
            known: Vec::new(alloc),
            alloc,
        }
    }

    /// Puts an entry at the end, and answers its arrival number.
    ///
    /// Errors: `Memory` where there was none to grow; the graph is then unchanged, and what was given is dropped.
    pub fn add(&mut self, id: Id, parents: Frontier) -> Result<u32, Memory>
        requires new { ¬ (Holds self.old id) }
        requires held { HoldsAll self.old parents }
        requires few { length self.old < 524288 }
        ensures ok { OnOk result (self.new ≡ self.old ++ record { id = id; parents = parents } ∷ []) }
        ensures number { IfOk result (λ n. n ≡ length self.old) }
        ensures err { OnErr result (self.new ≡ self.old) }
    {
        let past = self.take_past(&parents);
        let number = self.put(id, parents)?;
        if let Some(marks) = past {
            self.keep_past(marks);
        }
        Ok(number)
    }

    /// Puts an entry at the end, as `add` does.
    fn put(&mut self, id: Id, parents: Frontier) -> Result<u32, Memory>
        requires new { ¬ (Holds self.old id) }
        requires held { HoldsAll self.old parents }
        requires few { length self.old < 524288 }
        ensures ok { OnOk result (self.new ≡ self.old ++ record { id = id; parents = parents } ∷ []) }
        ensures number { IfOk result (λ n. n ≡ length self.old) }
        ensures err { OnErr result (self.new ≡ self.old) }
    {
        let number = self.entries.len() as u32;
        let links = self.links_to(&parents)?;
        self.entries.reserve(1)?;
        self.links.reserve(1)?;
        self.starts.reserve(1)?;
        self.heads.add()?;
        // From here on nothing can fail.
        begin_run(&mut self.starts, links.run, number);
        self.heads.clear_all(links.parents.as_slice());
        let Ok(_) = self.links.push(links) else {
            unreachable!()
        };
        let Ok(_) = self.entries.insert(id, parents) else {
            unreachable!()
        };
        Ok(number)
    }

    /// The parents of a new entry by their numbers, its level, and the number of its run.
    fn links_to(&self, parents: &Frontier) -> Result<Links, Memory>
        requires held { HoldsAll self.now parents.now }
        ensures level { IfOk result (λ links. links.level ≡ 1 + greatest_by (level_of self.now) parents.now) }
        ensures parents { IfOk result (λ links. AllZip (IsNumberOf self.now) parents.now links.parents.items) }
        ensures run { IfOk result (λ links. IsRunAfter self.now parents.now links.run) }
    {
        let mut numbers = SmallVec::new(self.alloc);
        for i in 0..parents.len() {
            numbers.push(self.number_of(parents, i))?;
        }
        let level = self.level_above(parents);
        let run = self.run_after(numbers.as_slice());
        Ok(Links {
            parents: numbers,
            level,
            run,
        })
    }

    /// One level above the greatest of held versions, and 1 of none: the level of an entry with these parents. It takes
    /// no memory.
    pub fn level_above(&self, parents: &Frontier) -> u32
        requires held { HoldsAll self.now parents.now }
        ensures level { result ≡ 1 + greatest_by (level_of self.now) parents.now }
    {
        let mut greatest = 0;
        for i in 0..parents.len() {
            let n = self.number_of(parents, i);
            greatest = greatest.max(self.level(n));
        }
        greatest + 1
    }

    /// The number of the run of a new entry whose parents have these numbers: the last, where the newest entry is the
    /// one parent, and else a new one.
    fn run_after(&self, parents: &[u32]) -> u32
        ensures run { (ps : List (List ℕ)) → AllZip (IsNumberOf self.now) ps parents.now
            → IsRunAfter self.now ps result }
    {
        let runs = self.starts.len() as u32;
        if parents.len() != 1 {
            return runs;
        }
        if parents[0] as usize + 1 != self.entries.len() {
            return runs;
        }
        runs - 1
    }

    /// How many runs there are: entries whose parents are not the one entry before them. It takes no memory.
    pub fn runs(&self) -> u32
        ensures runs { result ≡ runs_of self.now }
    {
        self.starts.len() as u32
    }

    /// The arrival number of the entry with this identifier, counted from 0. It takes no memory.
    ///
    /// Contracts learn here that the entries are a history of at most 524,288.
    pub fn index_of(&self, id: &Id) -> Option<u32>
        ensures found { IfSome result (λ n. slice_get (ids_of self.now) n ≡ Some id.now) }
        ensures none { IfNone result (¬ (Holds self.now id.now)) }
        ensures valid { IsHistoryGraph self.now }
        ensures few { length self.now ≤ 524288 }
    {
        match self.entries.get_index_of(id) {
            Some(n) => Some(n as u32),
            None => None,
        }
    }

    /// The arrival number of member `i` of held identifiers, counted from 0 in rising order. It takes no memory.
    ///
    /// Contracts learn here that the entries are a history of at most 524,288.
    pub fn number_of(&self, of: &Frontier, i: u32) -> u32
        requires held { HoldsAll self.now of.now }
        requires member { i < length of.now }
        ensures number { IsMemberNumber self.now of.now i result }
        ensures within { result < length self.now }
        ensures valid { IsHistoryGraph self.now }
        ensures few { length self.now ≤ 524288 }
    {
        let Some(id) = of.get(i) else { unreachable!() };
        let Some(n) = self.index_of(id) else {
            unreachable!()
        };
        n
    }

    /// The entry with this arrival number: its identifier and its parents. It takes no memory.
    pub fn at(&self, n: u32) -> Option<(&Id, &Frontier)>
        ensures value { option_map (λ p. record { id = p.0.now; parents = p.1.now }) result ≡ slice_get self.now n }
    {
        self.entries.get_index(n as usize)
    }

    /// The level of the entry with this arrival number: 1 plus the greatest level of its parents, and 1 without
    /// parents. It takes no memory.
    pub fn level(&self, n: u32) -> u32
        requires { n < length self.now }
        ensures level { IfSome (slice_get self.now n) (λ e. result ≡ level_of self.now e.id) }
        ensures small { result ≤ length self.now }
    {
        self.links[n as usize].level
    }

    /// How many identifiers are no entry's parent. It takes no memory and constant time.
    pub fn width(&self) -> u32
        ensures width { result ≡ length (frontier_of self.now) }
    {
        self.heads.count()
    }

    /// How many identifiers will be no entry's parent, once a new entry with these parents is there.
    /// It takes no memory and time linear in the parents.
    pub fn width_after(&self, parents: &Frontier) -> u32
        requires held { HoldsAll self.now parents.now }
        ensures width { (id : List ℕ) → ¬ (Holds self.now id)
            → result ≡ length (frontier_of (self.now ++ record { id = id; parents = parents.now } ∷ [])) }
    {
        let heads = self.heads_among(parents);
        self.width() - heads + 1
    }

    /// How many of these identifiers are no entry's parent.
    pub(crate) fn heads_among(&self, of: &Frontier) -> u32
        requires held { HoldsAll self.now of.now }
        ensures count { result ≡ length (filter (is_head self.now) of.now) }
        ensures rising { IsRising of.now }
        ensures history { IsHistoryGraph self.now }
        ensures few { length self.now ≤ 524288 }
    {
        let mut count = 0;
        for i in 0..of.len() {
            let n = self.number_of(of, i);
            if self.heads.has(n) {
                count += 1;
            }
        }
        count
    }

    /// The set of the identifiers that are no entry's parent.
    ///
    /// Errors: `Memory` where there was none for the copies.
    pub fn frontier(&self, alloc: Global) -> Result<Frontier, Memory>
        ensures ok { IfOk result (λ frontier. IsFrontierOf self.now frontier) }
    {
        Frontier::of(self.head_ids(alloc)?)
    }

    /// The identifiers that are no entry's parent, the newest first.
    fn head_ids(&self, alloc: Global) -> Result<Vec<Id>, Memory>
        ensures ok { IfOk result (λ ids. ids.items ≡ reverse (heads_of self.now)) }
        ensures few { IfOk result (λ ids. vec_len ids ≤ 524288) }
    {
        let width = self.heads.count() as usize;
        let mut ids = Vec::with_capacity(alloc, width)?;
        for n in (0..self.entries.len()).rev() {
            if ids.len() == width {
                break;
            }
            if self.heads.has(n as u32) {
                let Some((id, _)) = self.entries.get_index(n) else {
                    unreachable!()
                };
                ids.push(id.copy(alloc)?)?;
            }
        }
        Ok(ids)
    }

    /// The least member of a frontier that no entry has, or `None` where all members are held. It takes no memory.
    pub fn least_unheld<'a>(&self, of: &'a Frontier) -> Option<&'a Id>
        ensures found { IfSome result (λ id. IsLeastUnheld self.now of.now id.now) }
        ensures none { IfNone result (HoldsAll self.now of.now) }
    {
        let mut least: Option<&'a Id> = None;
        for i in 0..of.len() {
            let Some(id) = of.get(i) else { unreachable!() };
            if self.index_of(id).is_none() {
                least = Some(lesser(least, id));
            }
        }
        least
    }

    /// The least identifier of two frontiers that no entry has.
    pub(crate) fn least_unheld_of_both<'a>(
        &self,
        one: &'a Frontier,
        other: &'a Frontier,
    ) -> Option<&'a Id>
        ensures least { IsLeastOf self.now (one.now ++ other.now) (option_copied result) }
    {
        match (self.least_unheld(one), self.least_unheld(other)) {
            (least, Some(id)) => Some(lesser(least, id)),
            (least, None) => least,
        }
    }
}

/// The lesser of two identifiers, where there are two.
fn lesser<'a>(least: Option<&'a Id>, id: &'a Id) -> &'a Id
    ensures lesser { result.now ≡ lesser_of (option_copied least.entry) id.now }
{
    match least {
        Some(least) if least < id => least,
        _ => id,
    }
}

/// Notes that a run begins at this number, where it is a new run's first. There is room for it.
fn begin_run(starts: &mut Vec<u32>, run: u32, number: u32)
    requires room { vec_len starts.old < vec_capacity starts.old }
    ensures begun { starts.new.items ≡ begun starts.old.items run number }
{
    if run as usize == starts.len() {
        let Ok(_) = starts.push(number) else {
            unreachable!()
        };
    }
}
