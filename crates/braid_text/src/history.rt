//! A history with its version graph and a document of its elements.

ghost use Rattle.std.specs.Prelude.{◌≡◌, ◌≢◌, ◌+◌, ◌*◌, ◌<◌, ◌≤◌, ◌^◌, ◌++◌, ◌∷◌, [], Ok, Err, IfOk, IfErr, OnOk, OnErr, length, map, vec_len, vec_capacity, Contains};
ghost use Rattle.braid_graph.specs.Ancestries.{IsUnknown};
ghost use Rattle.braid_graph.specs.Entries.{HoldsAll};
ghost use Rattle.braid_tree.specs.Rows.{HasRoomFor};
ghost use Rattle.braid_text.specs.Puts.{total_len};
ghost use Rattle.braid_text.specs.Histories.{graph_of, text_at, elements_of, deletions_of};
ghost use Rattle.braid_text.specs.Answers.{needs_of, HasRoom, IsAnswer};
ghost use Rattle.braid_text.specs.RunCounts.{insertions_of};
ghost use Rattle.braid_text.specs.Standing.{Stands, IsTakable, rows_in, row_deletions_in};
ghost use Rattle.braid_text.specs.declared.accept.Accept.TheVariants.{New, Known};

use crate::accept::Accept;
use crate::adding::add_version;
use crate::judging::{answer_held, first_full, read_parts, total_len, unknown_parent};
use crate::room::Room;
use braid_change::{Text, Update};
use braid_graph::Graph;
use braid_ids::{Frontier, Id, Memory, Unknown};
use braid_rebase::{RebaseFault, Resolved, resolve};
use braid_spans::SpanDocument;
use braid_tree::Document;
use std::alloc::Global;

/// A history in order of arrival, its version graph, and the document of its elements.
#[derive(Drop)]
pub struct History {
    pub updates: Vec<Update>,
    pub graph: Graph,
    pub document: SpanDocument,
}

impl History {
    /// What an update adds where it can be taken, or the answer that it gets.
    pub fn judge(&self, alloc: Global, update: &Update, room: &Room) -> Result<Resolved, Accept>
        requires stands { Stands self.now.updates.items self.now.graph self.now.document.stamps
            (rows_in self.now.document) (row_deletions_in self.now.document) }
        ensures ok { IfOk result (λ resolved. IsTakable self.now.updates.items (row_deletions_in self.now.document)
            (rows_in self.now.document) update.now resolved) }
        ensures room { OnOk result (HasRoom (needs_of self.now.updates.items update.now) room.now) }
        ensures refusal { IfErr result (λ answer. IsAnswer room.now self.now.updates.items update.now answer
            × (answer ≢ New)) }
        ensures known { Contains self.now.updates.items update.now → result ≡ Err Known }
    {
        if let Some(n) = self.graph.index_of(update.id()) {
            let held = &self.updates[n as usize];
            return Err(answer_held(alloc, held, update));
        }
        if let Some(id) = self.graph.least_unheld(update.parents()) {
            return Err(unknown_parent(alloc, id));
        }
        let resolved = match resolve(alloc, &self.document, &self.graph, update) {
            Ok(resolved) => resolved,
            Err(RebaseFault::OutOfRange { patch, len }) => {
                return Err(Accept::OutOfRange { patch, len });
            }
            Err(RebaseFault::Memory) => return Err(Accept::Memory),
        };
        // It does nothing when it runs: it gives the proof what every update keeps.
        read_parts(update);
        let need = self.need_of(update, &resolved);
        match first_full(&need, room) {
            Some(full) => Err(full),
            None => Ok(resolved),
        }
    }

    /// What an update needs, as it was resolved.
    fn need_of(&self, update: &Update, resolved: &Resolved) -> Room
        requires stands { Stands self.now.updates.items self.now.graph self.now.document.stamps
            (rows_in self.now.document) (row_deletions_in self.now.document) }
        requires takable { IsTakable self.now.updates.items (row_deletions_in self.now.document)
            (rows_in self.now.document) update.now resolved.now }
        ensures need { result ≡ needs_of self.now.updates.items update.now }
    {
        Room {
            versions: 1,
            elements: total_len(&resolved.runs) as u64,
            deletions: resolved.deletes.len() as u64,
            width: self.graph.width_after(update.parents()) as u64,
        }
    }

    /// Takes an update as it was resolved.
    ///
    /// Errors: `Memory` where there was none to grow; nothing is changed then.
    pub fn take(&mut self, alloc: Global, update: Update, resolved: Resolved) -> Result<(), Memory>
        requires stands { Stands self.old.updates.items self.old.graph self.old.document.stamps
            (rows_in self.old.document) (row_deletions_in self.old.document) }
        requires takable { IsTakable self.old.updates.items (row_deletions_in self.old.document)
            (rows_in self.old.document) update resolved }
        requires versions { length self.old.updates.items < 524288 }
        requires elements { length (elements_of self.old.updates.items) +
            (needs_of self.old.updates.items update).elements ≤ 33554432 }
        requires deletions { length (deletions_of self.old.updates.items) +
            (needs_of self.old.updates.items update).deletions ≤ 67108864 }
        ensures taken { OnOk result (self.new.updates.items ≡ self.old.updates.items ++ update ∷ []) }
        ensures kept { OnErr result (self.new.updates.items ≡ self.old.updates.items) }
        ensures stands { Stands self.new.updates.items self.new.graph self.new.document.stamps
            (rows_in self.new.document) (row_deletions_in self.new.document) }
        ensures runs { OnOk result (length self.new.document.runs ≤ length self.old.document.runs
            + 2 * (insertions_of update.change + (needs_of self.old.updates.items update).deletions)) }
        ensures kept_runs { OnErr result (self.new.document.runs ≡ self.old.document.runs) }
    {
        let name = self.prepare(alloc, &update, &resolved)?;
        add_version(&mut self.document, name, &resolved);
        self.updates.push_reserved(update);
        Ok(())
    }

    /// Puts an update into the graph and makes room for the rest of it: all that can fail. It answers the name of the
    /// update's version.
    ///
    /// Errors: `Memory` where there was none to grow; graph and document are unchanged then.
    fn prepare(&mut self, alloc: Global, update: &Update, resolved: &Resolved) -> Result<Id, Memory>
        requires stands { Stands self.old.updates.items self.old.graph self.old.document.stamps
            (rows_in self.old.document) (row_deletions_in self.old.document) }
        requires takable { IsTakable self.old.updates.items (row_deletions_in self.old.document)
            (rows_in self.old.document) update.now resolved.now }
        requires versions { length self.old.updates.items < 524288 }
        requires elements { length (elements_of self.old.updates.items) +
            (needs_of self.old.updates.items update.now).elements ≤ 33554432 }
        requires deletions { length (deletions_of self.old.updates.items) +
            (needs_of self.old.updates.items update.now).deletions ≤ 67108864 }
        ensures named { IfOk result (λ name. name ≡ update.now.id) }
        ensures added { OnOk result (self.new.graph ≡ self.old.graph
            ++ record { id = update.now.id; parents = update.now.parents } ∷ []) }
        ensures kept { OnErr result (self.new.graph ≡ self.old.graph) }
        ensures updates { self.new.updates.items ≡ self.old.updates.items }
        ensures stamps { self.new.document.stamps ≡ self.old.document.stamps }
        ensures rows { rows_in self.new.document ≡ rows_in self.old.document }
        ensures row_deletions { row_deletions_in self.new.document ≡ row_deletions_in self.old.document }
        ensures runs { self.new.document.runs ≡ self.old.document.runs }
        ensures room { OnOk result (HasRoomFor self.new.document.room 1 (total_len resolved.now.runs.items)
            (length resolved.now.deletes.items)) }
        ensures reserved { OnOk result (vec_len self.new.updates < vec_capacity self.new.updates) }
        ensures fits { OnOk result (total_len resolved.now.runs.items < 2 ^ 32) }
    {
        let name = update.id().copy(alloc)?;
        let id = update.id().copy(alloc)?;
        let parents = update.parents().copy(alloc)?;
        self.document.reserve(1, total_len(&resolved.runs), resolved.deletes.len() as u32)?;
        self.updates.reserve(1)?;
        self.graph.add(id, parents)?;
        Ok(name)
    }

    /// What is read at a frontier.
    pub fn read(&self, alloc: Global, at: &Frontier) -> Result<Text, Unknown>
        requires stands { Stands self.now.updates.items self.now.graph self.now.document.stamps
            (rows_in self.now.document) (row_deletions_in self.now.document) }
        ensures ok { IfOk result (λ text. HoldsAll (graph_of self.now.updates.items) at.now
            × (text ≡ text_at self.now.updates.items at.now)) }
        ensures fault { IfErr result (λ unknown. IsUnknown (graph_of self.now.updates.items) at.now unknown) }
    {
        let marks = match self.graph.ancestry(alloc, at) {
            Ok(marks) => marks,
            Err(unknown) => return Err(unknown),
        };
        match self.document.text(alloc, &marks) {
            Ok(chars) => Ok(Text::of(chars)),
            Err(_) => Err(Unknown::Memory),
        }
    }
}
