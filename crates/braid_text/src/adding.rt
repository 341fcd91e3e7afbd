//! An update that was resolved, put into a document as a version of its own.

ghost use Rattle.std.specs.Prelude.{◌≡◌, ◌+◌, ◌-◌, ◌*◌, ◌<◌, ◌≤◌, ◌^◌, ◌++◌, ◌∷◌, [], length, map};
ghost use Rattle.std.specs.List.Sorted.{IsPermutation};
ghost use Rattle.braid_tree.specs.Rows.{HasRoomFor, Spends, AreNewOrdinals, KeepsPlaces, AreKnown};
ghost use Rattle.braid_text.specs.Puts.{AreOver, AreThere, ListsWithRuns, total_len, insertions_at, deletion_by};
ghost use Rattle.braid_text.specs.Standing.{rows_in, row_deletions_in};

use braid_ids::Id;
use braid_rebase::{Resolved, Run};
use braid_spans::SpanDocument;
use braid_tree::Document;

/// Begins a version, puts its runs in order and notes what it deletes.
pub fn add_version(doc: &mut SpanDocument, id: Id, resolved: &Resolved)
    requires over { AreOver (rows_in doc.old) 0 resolved.now.runs.items }
    requires there { AreThere (rows_in doc.old) resolved.now.deletes.items }
    requires fits { total_len resolved.now.runs.items < 2 ^ 32 }
    requires roomy { HasRoomFor doc.old.room 1 (total_len resolved.now.runs.items)
        (length resolved.now.deletes.items) }
    ensures stamps { doc.new.stamps ≡ doc.old.stamps ++ record { id = id; level = resolved.now.level } ∷ [] }
    ensures placed { ListsWithRuns doc.new.stamps (rows_in doc.old) (rows_in doc.new) resolved.now.runs.items }
    ensures deletions { IsPermutation
        (row_deletions_in doc.old ++ map (deletion_by (length doc.old.stamps)) resolved.now.deletes.items)
        (row_deletions_in doc.new) }
    ensures known { AreKnown doc.new.stamps (rows_in doc.new) }
    ensures runs { length doc.new.runs ≤ length doc.old.runs
        + 2 * (insertions_at resolved.now.runs.items + length resolved.now.deletes.items) }
{
    doc.begin(id, resolved.level);
    put_runs(doc, &resolved.runs);
    doc.delete_all(&resolved.deletes);
}

/// Puts runs of the version begun last in order, one after the other.
fn put_runs(doc: &mut SpanDocument, runs: &[Run])
    requires begun { 0 < length doc.old.stamps }
    requires known { AreKnown doc.old.stamps (rows_in doc.old) }
    requires over { AreOver (rows_in doc.old) 0 runs.now }
    requires next { AreNewOrdinals (rows_in doc.old) (length doc.old.stamps - 1) 0 }
    requires fits { total_len runs.now < 2 ^ 32 }
    requires roomy { HasRoomFor doc.old.room 0 (total_len runs.now) 0 }
    ensures stamps { doc.new.stamps ≡ doc.old.stamps }
    ensures placed { ListsWithRuns doc.old.stamps (rows_in doc.old) (rows_in doc.new) runs.now }
    ensures places { KeepsPlaces (rows_in doc.old) (rows_in doc.new) }
    ensures deletions { row_deletions_in doc.new ≡ row_deletions_in doc.old }
    ensures room { Spends doc.old.room doc.new.room 0 (total_len runs.now) 0 }
    ensures known { AreKnown doc.new.stamps (rows_in doc.new) }
    ensures runs { length doc.new.runs ≤ length doc.old.runs + 2 * insertions_at runs.now }
{
    for run in runs {
        let text = run.text.chars();
        // A run without text would only cost a look-up.
        if text.is_empty() {
            continue;
        }
        doc.insert_run(run.after, text, run.ordinal);
    }
}
